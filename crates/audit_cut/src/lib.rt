// One cut of a cell's 27 coefficients across a direction, both halves at once, in numbers of 128 bits. An inner crate, for `audit_cycle`. It
// goes row by row: the nine rows of a direction are found by their places, and each is cut by de Casteljau's rule, kept four times larger.
#![tactic(auto)]

ghost use Rattle.std.specs.Prelude.{◌≡◌, ◌+◌, ◌*◌, ◌<◌};
ghost use Rattle.definitions.specs.Subdivision.{halve};
ghost use Rattle.expansion_theory.specs.Control.{Cuttable};
ghost use Rattle.expansion_theory.specs.Rows.{in_line};
ghost use Rattle.audit_cut.specs.Word.{largest};
ghost use Rattle.audit_cut.specs.Direction.{axis};
ghost use Rattle.audit_cut.specs.Rows.{BothHeld};

// A direction across which a cell is cut.
#[derive(Clone, Copy, Debug, PartialEq, Eq)]
pub enum Direction {
    Xi,
    Eta,
    Zeta,
}

// The number, less 1, of the coefficient at each place (i, j, k), at 9i + 3j + k.
const NUMBERS: [usize; 27] = [
    0, 12, 4, 11, 24, 19, 3, 15, 7, 8, 21, 16, 20, 26, 25, 10, 23, 18, 1, 13, 5, 9, 22, 17, 2, 14,
    6,
];

// The number, less 1, of the coefficient at t in row j of direction d.
fn number_at(d: Direction, j: usize, t: usize) -> usize
    requires { (j < 9) × (t < 3) }
    ensures { (result ≡ in_line (axis d) (3 * j + t)) × (result < 27) }
{
    let u = j / 3;
    let v = j % 3;
    match d {
        Direction::Xi => NUMBERS[9 * t + 3 * u + v],
        Direction::Eta => NUMBERS[9 * u + 3 * t + v],
        Direction::Zeta => NUMBERS[9 * u + 3 * v + t],
    }
}

// Row j of direction d: both halves of it, by the sums of its neighbours.
fn cut_row(c: &[i128; 27], d: Direction, j: usize, lower: &mut [i128; 27], upper: &mut [i128; 27])
    requires { (j < 9) × BothHeld (axis d) j c.now lower.old upper.old }
    ensures { BothHeld (axis d) (j + 1) c.now lower.new upper.new }
{
    let x = number_at(d, j, 0);
    let y = number_at(d, j, 1);
    let z = number_at(d, j, 2);
    let p = c[x];
    let q = c[y];
    let r = c[z];
    let s = p + q;
    let t = q + r;
    let m = s + t;
    lower[x] = 4 * p;
    lower[y] = 2 * s;
    lower[z] = m;
    upper[x] = m;
    upper[y] = 2 * t;
    upper[z] = 4 * r;
}

// Both halves of c across direction d, the lower and the upper, four times larger. They are lent: handed back by value they are copied at every cut, and a
// deep walk takes a third longer.
pub fn cut(d: Direction, c: &[i128; 27], lower: &mut [i128; 27], upper: &mut [i128; 27])
    requires { Cuttable largest c.now }
    ensures { (lower.new ≡ halve (axis d) 0 c.now) × (upper.new ≡ halve (axis d) 1 c.now) }
{
    for j in 0..9 {
        cut_row(c, d, j, lower, upper);
    }
}
