// The halves of a cell in each direction, row by row, by de Casteljau's rule, kept four times larger. An inner crate, for `cell_children`.
// Directions and sides are numbers, as `halve` of the definitions and `cell_corners::side` have them.
#![tactic(auto)]

ghost use Rattle.std.specs.Prelude.{◌≡◌, [], ◌∷◌, ◌<◌, map, set, ℤ};
ghost use Rattle.definitions.specs.Subdivision.{halve};
ghost use Rattle.expansion_theory.specs.Control.{Cuttable};
ghost use Rattle.expansion_theory.specs.Rows.{Holds};
ghost use Rattle.cell_numbers.specs.Values.{cut_most};
ghost use Rattle.cell_halves.specs.Rows.{rows_of};

use cell_numbers::Number;

// The nine rows of each direction, from its lower side to its upper, by the numbers of their coefficients, less 1.
const ROWS: [[[usize; 3]; 9]; 3] = [
    [
        [0, 8, 1],
        [12, 21, 13],
        [4, 16, 5],
        [11, 20, 9],
        [24, 26, 22],
        [19, 25, 17],
        [3, 10, 2],
        [15, 23, 14],
        [7, 18, 6],
    ],
    [
        [0, 11, 3],
        [12, 24, 15],
        [4, 19, 7],
        [8, 20, 10],
        [21, 26, 23],
        [16, 25, 18],
        [1, 9, 2],
        [13, 22, 14],
        [5, 17, 6],
    ],
    [
        [0, 12, 4],
        [11, 24, 19],
        [3, 15, 7],
        [8, 21, 16],
        [20, 26, 25],
        [10, 23, 18],
        [1, 13, 5],
        [9, 22, 17],
        [2, 14, 6],
    ],
];

// The nine rows of direction d.
#[inline(always)]
fn rows(d: usize) -> [[usize; 3]; 9]
    requires { d < 3 }
    ensures { result ≡ rows_of d }
{
    ROWS[d]
}

// The three numbers of a row, at x, y and z of out.
#[inline(always)]
fn put_row<N: Number>(row: [N; 3], x: usize, y: usize, z: usize, out: &mut [N; 27])
    requires { (x < 27) × (y < 27) × (z < 27) }
    ensures { (u v w : ℤ) → map N.value row ≡ u ∷ v ∷ w ∷ [] → map N.value out.new ≡ set (set (set (map N.value out.old) x u) y v) z w }
{
    let [u, v, w] = row;
    out[x] = u;
    out[y] = v;
    out[z] = w;
}

// The half of c on side H, 0 or 1, in direction D: the compiler knows both, and so writes out the rows.
#[inline(always)]
fn half<N: Number, const D: usize, const H: u32>(c: &[N; 27], out: &mut [N; 27])
    requires cuttable { Cuttable N.most (map N.value c.now) }
    requires known { (D < 3) × (H < 2) }
    ensures { Holds (cut_most N.most) D H 9 (map N.value c.now) (map N.value out.new) }
{
    for [x, y, z] in rows(D) {
        let row = cell_rows::cut::<N, H>(c[x], c[y], c[z]);
        put_row(row, x, y, z, out);
    }
}

// The half of c on side h, 0 or else 1, in direction d, four times larger, into out. It branches six ways in one place: with a function
// for each side the compiler lays the three directions over each other and reads their places from tables.
pub fn halve<N: Number>(d: u32, h: u32, c: &[N; 27], out: &mut [N; 27])
    requires { Cuttable N.most (map N.value c.now) × (d < 3) }
    ensures { map N.value out.new ≡ halve d h (map N.value c.now) }
{
    match (d, h) {
        (0, 0) => half::<N, 0, 0>(c, out),
        (1, 0) => half::<N, 1, 0>(c, out),
        (_, 0) => half::<N, 2, 0>(c, out),
        (0, _) => half::<N, 0, 1>(c, out),
        (1, _) => half::<N, 1, 1>(c, out),
        (_, _) => half::<N, 2, 1>(c, out),
    }
}
