// Both bounds of eight points by recursion, for both widths of number. An inner crate, for `search_points`: its callers see to it that the numbers
// stay small enough at every level that is asked for (`Small`).
#![tactic(auto)]

ghost use Rattle.std.specs.Prelude.{◌≡◌, List, map, take, ℤ};
ghost use Rattle.foundation.specs.Least.{least_from, least_of};
ghost use Rattle.definitions.specs.Coefficients.{coefficients};
ghost use Rattle.definitions.specs.Subdivision.{Cell};
ghost use Rattle.verdict_theory.specs.Extremes.{extremes as extremes_below};
ghost use Rattle.search_theory.specs.Meaning.{Small};
ghost use Rattle.search_theory.specs.Bounds.{with_control, bounds_at};
ghost use Rattle.cell_bounds.specs.Meaning.{extremes_of};

use cell_numbers::Number;

// The least coefficient and the least corner of the cells seen so far.
#[derive(Clone, Copy)]
pub struct Extremes<N> {
    pub low: N,
    pub high: N,
}

// The least of v and the corners, the first eight coefficients. By number: a loop over a part of g wants an invariant over what the compiler hides.
fn with_corners<N: Number>(g: &[N; 27], v: N) -> N
    ensures { N.value result ≡ least_from (N.value v) (take 8 (map N.value g.now)) }
{
    let mut least = v;
    for k in 0..8 {
        least = cell_least::lesser(least, g[k]);
    }
    least
}

// One cell more, with its least coefficient.
fn with_cell<N: Number>(g: &[N; 27], least: N, seen: Extremes<N>) -> Extremes<N>
    requires { N.value least ≡ least_of (map N.value g.now) }
    ensures { extremes_of N.value result ≡ with_control (map N.value g.now) (extremes_of N.value seen) }
{
    Extremes {
        low: cell_least::lesser(seen.low, least),
        high: with_corners(g, seen.high),
    }
}

// The cells `left` levels below this one, of which the least coefficient is told, after those seen before.
fn survey<N: Number>(g: &[N; 27], least: N, left: u32, seen: Extremes<N>) -> Extremes<N>
    requires { Small N.most (map N.value g.now) left × (N.value least ≡ least_of (map N.value g.now)) }
    ensures { (s : Cell) → s.control ≡ map N.value g.now → extremes_of N.value result ≡ extremes_below left s (extremes_of N.value seen) }
{
    if left == 0 {
        return with_cell(g, least, seen);
    }
    let mut half = [N::zero(); 27];
    let mut quarter = [N::zero(); 27];
    let mut child = [N::zero(); 27];
    let mut seen = seen;
    for k in 0..8 {
        cell_children::quarter_at(g, k, &mut half, &mut quarter);
        let told = cell_children::eighth(k, &quarter, &mut child);
        seen = survey(&child, told.value, left - 1, seen);
    }
    seen
}

// Both bounds of the eight points with these coefficients, from the greatest number, which no coefficient passes.
pub fn bounds<N: Number>(g: &[N; 27], depth: u32) -> Extremes<N>
    requires { Small N.most (map N.value g.now) depth }
    ensures { (xs : List ℤ) → map N.value g.now ≡ coefficients xs → extremes_of N.value result ≡ bounds_at xs depth }
{
    let none = Extremes {
        low: N::greatest(),
        high: N::greatest(),
    };
    survey(g, cell_least::value(g), depth, none)
}
