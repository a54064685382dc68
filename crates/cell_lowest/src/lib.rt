// The first of a cell's coefficients that is not above a number, and the lowest number of its low coefficients. An inner crate, for `cell_least`,
// `cell_children` and `cell_search`.
#![tactic(auto)]

ghost use Rattle.std.specs.Prelude.{◌≡◌, ◌≤◌, map, position, int_le};
ghost use Rattle.search_theory.specs.Meaning.{lowest as lowest_of};
ghost use Rattle.cell_lowest.specs.Meaning.{number_of};

use cell_numbers::Number;

// Where the first coefficient stands that is not above v, from 0: its number less 1. It is written out where it is called, so that the compiler knows
// the 0 of `lowest`.
#[inline(always)]
pub fn first_at_most<N: Number>(g: &[N; 27], v: N) -> Option<usize>
    ensures { result ≡ position (λ x. int_le (N.value x) (N.value v)) g.now }
{
    g.iter().position(|x| x.at_most(v))
}

// The same of the first that is not above 0: with the lowest number of a low coefficient.
pub fn lowest<N: Number>(g: &[N; 27]) -> Option<usize>
    ensures { (number_of result ≡ lowest_of (map N.value g.now)) × (number_of result ≤ 27) }
{
    first_at_most(g, N::zero())
}
