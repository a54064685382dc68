// The least of a cell's 27 coefficients and the lowest number that holds it. An inner crate, for `cell_children` and `cell_bounds`.
#![tactic(auto)]

ghost use Rattle.std.specs.Prelude.{◌≡◌, ◌<◌, map};
ghost use Rattle.foundation.specs.Least.{lesser as lesser_of, least_from, least_of};
ghost use Rattle.definitions.specs.Eighths.{least_number, eighth_of};
ghost use Rattle.expansion_theory.specs.Rows.{line_at};
ghost use Rattle.cell_least.specs.Meaning.{told};

use cell_numbers::Number;

// The least, and its number, from 1.
#[derive(Clone, Copy)]
pub struct Least<N> {
    pub value: N,
    pub number: usize,
}

pub fn lesser<N: Number>(x: N, y: N) -> N
    ensures { N.value result ≡ lesser_of (N.value x) (N.value y) }
{
    if x.at_most(y) { x } else { y }
}

// The least of v and the coefficients of the row x, y, z, its places one by one, since a pattern in a parameter is refused beside a contract. Those three are compared with each other first, so that v is waited for once.
fn with_row<N: Number>(g: &[N; 27], x: usize, y: usize, z: usize, v: N) -> N
    requires { (x < 27) × (y < 27) × (z < 27) }
    ensures { N.value result ≡ least_from (N.value v) (line_at (map N.value g.now) x y z) }
{
    lesser(v, lesser(lesser(g[x], g[y]), g[z]))
}

// The least of the 27, row by row in ξ: of numbers that lie side by side the compiler would compare two at a time, which takes longer. The rows are
// written out: in a table their places would have to be shown to be of the 27 again, in a loop with an invariant.
pub fn value<N: Number>(g: &[N; 27]) -> N
    ensures { N.value result ≡ least_of (map N.value g.now) }
{
    let a = with_row(g, 0, 8, 1, g[0]);
    let b = with_row(g, 12, 21, 13, a);
    let c = with_row(g, 4, 16, 5, b);
    let d = with_row(g, 11, 20, 9, c);
    let e = with_row(g, 24, 26, 22, d);
    let f = with_row(g, 19, 25, 17, e);
    let h = with_row(g, 3, 10, 2, f);
    let i = with_row(g, 15, 23, 14, h);
    with_row(g, 7, 18, 6, i)
}

// The lowest number of the 27 that holds the least, v.
pub fn number<N: Number>(g: &[N; 27], v: N) -> usize
    requires { N.value v ≡ least_of (map N.value g.now) }
    ensures { result ≡ least_number (map N.value g.now) }
{
    cell_lowest::first_at_most(g, v).map_or(0, |k| k + 1)
}

// Both, of these 27.
pub fn least_of<N: Number>(g: &[N; 27]) -> Least<N>
    ensures { told N.value (map N.value g.now) result ≡ eighth_of (map N.value g.now) }
{
    let value = value(g);
    Least {
        value,
        number: number(g, value),
    }
}
