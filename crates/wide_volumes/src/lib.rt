// An inner crate, for `wide_coefficients`. The twenty volumes of eight points whose coordinates go to 1,048,576: J at the corners and four times
// J at the edge middles. One word does not hold them, so each is given by two digits that one word holds, 2048 times the upper and the lower.
// A volume is a determinant, and linear in its first vector u: with u = 2048 · u' + u'' its digits are the determinants with u' and with u''.
#![tactic(auto)]

ghost use Rattle.std.specs.Prelude.{◌≡◌};
ghost use Rattle.foundation.specs.Polynomial.{integers};
ghost use Rattle.foundation.specs.Words.{Within, args};
ghost use Rattle.definitions.specs.Limits.{base};
ghost use Rattle.definitions.specs.Jacobian.{nodes_of, det};
ghost use Rattle.element_vectors.specs.Range.{InRange, Nodes};
ghost use Rattle.wide_volumes.specs.Range.{edge_limit, middle_limit};
ghost use Rattle.wide_volumes.specs.Digits.{upper, lower, corner_digit, edge_digit, pairs};

use element_vectors::{determinant, edge, middle};

// The digits of the determinant of u, v, w, the upper and the lower.
fn determinant_digits(u: [i64; 3], v: [i64; 3], w: [i64; 3]) -> (i64, i64)
    requires first { Within edge_limit u }
    requires second { Within middle_limit v }
    requires third { Within middle_limit w }
    ensures upper { result.0 ≡ det integers (λ e. upper (args u e)) (args v) (args w) }
    ensures lower { result.1 ≡ det integers (λ e. lower (args u e)) (args v) (args w) }
{
    let [ux, uy, uz] = u;
    let x = ux >> 11;
    let y = uy >> 11;
    let z = uz >> 11;
    let upper = determinant([x, y, z], v, w);
    let lower = determinant([ux - 2048 * x, uy - 2048 * y, uz - 2048 * z], v, w);
    (upper, lower)
}

// The digits of J at the corner of this tetrahedron, which has its neighbours too.
fn at_corner(p: &[i32; 24], t: [usize; 4]) -> (i64, i64)
    requires range { InRange base.range p.now }
    requires nodes { Nodes t }
    ensures upper { result.0 ≡ corner_digit upper (nodes_of p.now) t }
    ensures lower { result.1 ≡ corner_digit lower (nodes_of p.now) t }
{
    let [a, b, c, d] = t;
    determinant_digits(edge(p, a, b), edge(p, a, c), edge(p, a, d))
}

// The digits of four times J at the middle of edge a-b. The tetrahedron's other vertices are the middles of c and d and of e and f.
fn at_edge(p: &[i32; 24], t: [usize; 6]) -> (i64, i64)
    requires range { InRange base.range p.now }
    requires nodes { Nodes t }
    ensures upper { result.0 ≡ edge_digit upper (nodes_of p.now) t }
    ensures lower { result.1 ≡ edge_digit lower (nodes_of p.now) t }
{
    let [a, b, c, d, e, f] = t;
    determinant_digits(edge(p, a, b), middle(p, a, c, d), middle(p, a, e, f))
}

// The digits of the twenty volumes, corners 1 to 8 and then edges 9 to 20, each by its tetrahedron. They are written out for the reason that
// `narrow_volumes` gives.
pub fn digits(p: &[i32; 24]) -> [(i64, i64); 20]
    requires { InRange base.range p.now }
    ensures { result ≡ pairs (nodes_of p.now) }
{
    [
        at_corner(p, [1, 2, 4, 5]),
        at_corner(p, [2, 3, 1, 6]),
        at_corner(p, [3, 4, 2, 7]),
        at_corner(p, [4, 1, 3, 8]),
        at_corner(p, [5, 8, 6, 1]),
        at_corner(p, [6, 5, 7, 2]),
        at_corner(p, [7, 6, 8, 3]),
        at_corner(p, [8, 7, 5, 4]),
        at_edge(p, [1, 2, 3, 4, 5, 6]),
        at_edge(p, [2, 3, 1, 4, 6, 7]),
        at_edge(p, [3, 4, 1, 2, 7, 8]),
        at_edge(p, [1, 4, 5, 8, 2, 3]),
        at_edge(p, [1, 5, 2, 6, 4, 8]),
        at_edge(p, [2, 6, 3, 7, 1, 5]),
        at_edge(p, [3, 7, 4, 8, 2, 6]),
        at_edge(p, [4, 8, 1, 5, 3, 7]),
        at_edge(p, [5, 6, 1, 2, 7, 8]),
        at_edge(p, [6, 7, 2, 3, 5, 8]),
        at_edge(p, [7, 8, 3, 4, 5, 6]),
        at_edge(p, [5, 8, 6, 7, 1, 4]),
    ]
}
