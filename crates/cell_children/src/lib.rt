// The cut of a cell into its eight children, one after the other, by halves and quarters: each half and quarter is made where the first child in it is
// due, and one without a low coefficient has no child with one. Of every child that is made the least coefficient is answered, and the lowest number
// that holds it. The arrays are lent one by one: in a struct of three the search, generic in the numbers, does not prove that they fit in memory. An
// inner crate, for `cell_search` and `cell_bounds`. That a cell is `Small` is asked at each call: no type holds it, since the coefficients lie in
// arrays that are filled anew for every cell.
#![tactic(auto)]

ghost use Rattle.std.specs.Prelude.{◌≡◌, ◌<◌, ◌%◌, ◌&&◌, eqb, IfSome, map};
ghost use Rattle.definitions.specs.Jacobian.{side};
ghost use Rattle.definitions.specs.Subdivision.{halve};
ghost use Rattle.definitions.specs.Eighths.{eighth_of};
ghost use Rattle.expansion_theory.specs.Control.{Cuttable};
ghost use Rattle.verdict_theory.specs.Clear.{half_of, quarter_of};
ghost use Rattle.search_theory.specs.Meaning.{lowest, Small};
ghost use Rattle.search_theory.specs.Children.{Ready, Run};
ghost use Rattle.cell_least.specs.Meaning.{told};
ghost use Rattle.cell_children.specs.Meaning.{over};

use cell_least::Least;
use cell_numbers::{Number, is_low};

// The half of c in direction d that child k lies in, and n children: made where child k is the first of them, else there already. Whether it was made.
fn half_at<N: Number>(d: u32, n: u32, c: &[N; 27], k: u32, out: &mut [N; 27]) -> bool
    requires cuttable { Cuttable N.most (map N.value c.now) × (d < 3) × (0 < n) }
    requires there { (k % n ≡ 0 → ⊥) → map N.value out.old ≡ halve d (side d k) (map N.value c.now) }
    ensures { (map N.value out.new ≡ halve d (side d k) (map N.value c.now)) × (result ≡ eqb (k % n) 0) }
{
    let first = k % n == 0;
    if first {
        cell_halves::halve(d, cell_corners::side(d, k), c, out);
    }
    first
}

// The same, but whether it was made here and has no low coefficient.
fn clear_half_at<N: Number>(d: u32, n: u32, c: &[N; 27], k: u32, out: &mut [N; 27]) -> bool
    requires cuttable { Cuttable N.most (map N.value c.now) × (d < 3) × (0 < n) }
    requires there { (k % n ≡ 0 → ⊥) → map N.value out.old ≡ halve d (side d k) (map N.value c.now) }
    ensures { (map N.value out.new ≡ halve d (side d k) (map N.value c.now)) × (result ≡ (eqb (k % n) 0 && eqb (lowest (halve d (side d k) (map N.value c.now))) 0)) }
{
    half_at(d, n, c, k, out) && cell_lowest::lowest(out).is_none()
}

// Child k from its quarter: its 27 coefficients into out, the least of them and the lowest number that holds it. The number is looked for in a call of
// its own, which the compiler leaves out where a caller does not ask for it.
pub fn eighth<N: Number>(k: u32, quarter: &[N; 27], out: &mut [N; 27]) -> Least<N>
    requires { Cuttable N.most (map N.value quarter.now) }
    ensures { told N.value (map N.value out.new) result ≡ eighth_of (halve 0 (side 0 k) (map N.value quarter.now)) }
{
    cell_halves::halve(0, cell_corners::side(0, k), quarter, out);
    let value = cell_least::value(out);
    Least {
        value,
        number: cell_least::number(out, value),
    }
}

// The half and the quarter of g that child k lies in: a half is kept for the four children in it, a quarter for its two.
pub fn quarter_at<N: Number>(g: &[N; 27], k: u32, half: &mut [N; 27], quarter: &mut [N; 27])
    requires { Small N.most (map N.value g.now) 1 × Ready (map N.value g.now) k (map N.value half.old) (map N.value quarter.old) }
    ensures { (map N.value half.new ≡ half_of (map N.value g.now) k) × (map N.value quarter.new ≡ quarter_of (map N.value g.now) k) }
{
    half_at(2, 4, g, k, half);
    half_at(1, 2, half, k, quarter);
}

// How many children from k on are known to have no low coefficient: 4 where their half has none, 2 where their quarter has none, 1 where the
// least of child k is above 0. The half is tested where child k is the first in it, and so is the quarter. With None, child k is made and has one.
pub fn clear<N: Number>(
    g: &[N; 27],
    k: u32,
    half: &mut [N; 27],
    quarter: &mut [N; 27],
    child: &mut [N; 27],
) -> Option<u32>
    requires { Small N.most (map N.value g.now) 1 × (k < 8) × Ready (map N.value g.now) k (map N.value half.old) (map N.value quarter.old) }
    ensures run { Run (map N.value g.now) k (over result) (map N.value half.new) (map N.value quarter.new) (map N.value child.new) }
    ensures some { IfSome result (λ n. 0 < n) }
{
    if clear_half_at(2, 4, g, k, half) {
        return Some(4);
    }
    if clear_half_at(1, 2, half, k, quarter) {
        return Some(2);
    }
    let least = eighth(k, quarter, child);
    if is_low(least.value) { None } else { Some(1) }
}
