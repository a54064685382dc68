// J at the 27 grid points of the next level in a cell, as far as its sign is asked for. An inner crate, for `cell_search`. The places of each row are
// written out, so that the compiler knows them. That a cell is `Small` each function asks for itself: no type holds it, since the coefficients lie in
// arrays that are filled anew for every cell.
#![tactic(auto)]

ghost use Rattle.std.specs.Prelude.{◌≡◌, [], ◌∷◌, map};
ghost use Rattle.foundation.specs.Words.{args, Within};
ghost use Rattle.search_theory.specs.Meaning.{Small};
ghost use Rattle.search_theory.specs.Grid.{middle as middle_of, middles, low_in_row, faces_low, between_low, grid_low};
ghost use Rattle.cell_numbers.specs.Values.{cut_most};
ghost use Rattle.cell_grid.specs.Rows.{line_of, Inside};

use cell_numbers::{Number, is_low};

// Whether one of the three points of the row p, q, r is not above 0: its ends, and its middle, which is taken four times.
fn low_in_row<N: Number>(p: N, q: N, r: N) -> bool
    requires { Within (cut_most N.most) (N.value p ∷ N.value q ∷ N.value r ∷ []) }
    ensures { result ≡ low_in_row (args (N.value p ∷ N.value q ∷ N.value r ∷ [])) }
{
    is_low(p) | (is_low(r) | is_low(cell_rows::end(p, q, r)))
}

// The row of the coefficients at three places.
fn low_at<N: Number>(g: &[N; 27], row: [usize; 3]) -> bool
    requires { Small N.most (map N.value g.now) 1 × Inside row }
    ensures { result ≡ low_in_row (args (line_of (map N.value g.now) row)) }
{
    let [x, y, z] = row;
    low_in_row(g[x], g[y], g[z])
}

// Its middle, four times.
fn middle_at<N: Number>(g: &[N; 27], row: [usize; 3]) -> N
    requires { Small N.most (map N.value g.now) 1 × Inside row }
    ensures { N.value result ≡ middle_of (args (line_of (map N.value g.now) row)) }
{
    let [x, y, z] = row;
    cell_rows::end(g[x], g[y], g[z])
}

// The row of the middles of three rows.
fn low_across<N: Number>(
    g: &[N; 27],
    start: [usize; 3],
    middle: [usize; 3],
    end: [usize; 3],
) -> bool
    requires { Small N.most (map N.value g.now) 1 × Inside start × Inside middle × Inside end }
    ensures { result ≡ low_in_row (middles (line_of (map N.value g.now) start) (line_of (map N.value g.now) middle) (line_of (map N.value g.now) end)) }
{
    low_in_row(middle_at(g, start), middle_at(g, middle), middle_at(g, end))
}

// Its middle, sixteen times.
fn middle_across<N: Number>(
    g: &[N; 27],
    start: [usize; 3],
    middle: [usize; 3],
    end: [usize; 3],
) -> N
    requires { Small N.most (map N.value g.now) 1 × Inside start × Inside middle × Inside end }
    ensures { N.value result ≡ middle_of (middles (line_of (map N.value g.now) start) (line_of (map N.value g.now) middle) (line_of (map N.value g.now) end)) }
{
    cell_rows::end(middle_at(g, start), middle_at(g, middle), middle_at(g, end))
}

// The start of the cell in ξ: a face, of three rows in ζ; and its end.
fn low_in_faces<N: Number>(g: &[N; 27]) -> bool
    requires { Small N.most (map N.value g.now) 1 }
    ensures { result ≡ faces_low (map N.value g.now) }
{
    let start = low_at(g, [0, 12, 4])
        | (low_at(g, [3, 15, 7]) | low_across(g, [0, 11, 3], [12, 24, 15], [4, 19, 7]));
    let end = low_at(g, [1, 13, 5])
        | (low_at(g, [2, 14, 6]) | low_across(g, [1, 9, 2], [13, 22, 14], [5, 17, 6]));
    start | end
}

// The plane between them: the middles of the nine rows in ξ.
fn low_between<N: Number>(g: &[N; 27]) -> bool
    requires { Small N.most (map N.value g.now) 1 }
    ensures { result ≡ between_low (map N.value g.now) }
{
    let u = middle_across(g, [0, 8, 1], [11, 20, 9], [3, 10, 2]);
    let v = middle_across(g, [12, 21, 13], [24, 26, 22], [15, 23, 14]);
    let w = middle_across(g, [4, 16, 5], [19, 25, 17], [7, 18, 6]);
    low_across(g, [0, 8, 1], [12, 21, 13], [4, 16, 5])
        | (low_across(g, [3, 10, 2], [15, 23, 14], [7, 18, 6]) | low_in_row(u, v, w))
}

// Whether J is not above 0 at one of the 27 points.
pub fn low<N: Number>(g: &[N; 27]) -> bool
    requires { Small N.most (map N.value g.now) 1 }
    ensures { result ≡ grid_low (map N.value g.now) }
{
    low_in_faces(g) | low_between(g)
}
