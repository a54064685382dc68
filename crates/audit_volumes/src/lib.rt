// The twenty volumes of eight points whose coordinates go to 1,048,576, in numbers of 128 bits: J at the corners and four times J at the edge
// middles. An inner crate, for `audit_coefficients`: a second way to what `narrow_volumes` and `wide_volumes` give, which shares with them only
// the vectors between nodes.
#![tactic(auto)]

ghost use Rattle.std.specs.Prelude.{◌≡◌};
ghost use Rattle.foundation.specs.Polynomial.{integers};
ghost use Rattle.foundation.specs.Words.{args, Within};
ghost use Rattle.definitions.specs.Limits.{base};
ghost use Rattle.definitions.specs.Jacobian.{nodes_of, det};
ghost use Rattle.definitions.specs.Coefficients.{corner_volume, edge_volume, volumes as volumes_of};
ghost use Rattle.element_vectors.specs.Range.{InRange};
ghost use Rattle.audit_volumes.specs.Limits.{edge_limit, middle_limit};
ghost use Rattle.audit_volumes.specs.Vectors.{Nodes};

use element_vectors::{edge, middle};

// A corner's tetrahedron: the corner and its three neighbours.
const CORNERS: [[usize; 4]; 8] = [
    [1, 2, 4, 5],
    [2, 3, 1, 6],
    [3, 4, 2, 7],
    [4, 1, 3, 8],
    [5, 8, 6, 1],
    [6, 5, 7, 2],
    [7, 6, 8, 3],
    [8, 7, 5, 4],
];

// An edge's: its ends, and the two pairs of nodes whose middles are the other vertices.
const EDGES: [[usize; 6]; 12] = [
    [1, 2, 3, 4, 5, 6],
    [2, 3, 1, 4, 6, 7],
    [3, 4, 1, 2, 7, 8],
    [1, 4, 5, 8, 2, 3],
    [1, 5, 2, 6, 4, 8],
    [2, 6, 3, 7, 1, 5],
    [3, 7, 4, 8, 2, 6],
    [4, 8, 1, 5, 3, 7],
    [5, 6, 1, 2, 7, 8],
    [6, 7, 2, 3, 5, 8],
    [7, 8, 3, 4, 5, 6],
    [5, 8, 6, 7, 1, 4],
];

// A vector in numbers of 128 bits.
fn widened(v: [i64; 3]) -> [i128; 3]
    ensures { result ≡ v }
{
    v.map(i128::from)
}

// The determinant of the vectors u, v, w: the coordinates of u with the minors of v and w.
fn determinant(u: [i64; 3], v: [i64; 3], w: [i64; 3]) -> i128
    requires first { Within edge_limit u }
    requires second { Within middle_limit v }
    requires third { Within middle_limit w }
    ensures { result ≡ det integers (args u) (args v) (args w) }
{
    let [p, q, r] = widened(u);
    let [a, b, c] = widened(v);
    let [d, e, f] = widened(w);
    p * (b * f - c * e) - q * (a * f - c * d) + r * (a * e - b * d)
}

// J at the corner of this tetrahedron.
fn at_corner(p: &[i32; 24], t: [usize; 4]) -> i128
    requires range { InRange base.range p.now }
    requires nodes { Nodes 4 t }
    ensures { result ≡ corner_volume integers (nodes_of p.now) t }
{
    let [a, b, c, d] = t;
    determinant(edge(p, a, b), edge(p, a, c), edge(p, a, d))
}

// Four times J at the middle of the edge of this tetrahedron.
fn at_edge(p: &[i32; 24], t: [usize; 6]) -> i128
    requires range { InRange base.range p.now }
    requires nodes { Nodes 6 t }
    ensures { result ≡ edge_volume integers (nodes_of p.now) t }
{
    let [a, b, c, d, e, f] = t;
    determinant(edge(p, a, b), middle(p, a, c, d), middle(p, a, e, f))
}

// The twenty volumes, corners 1 to 8 and then edges 9 to 20.
pub fn volumes(p: &[i32; 24]) -> [i128; 20]
    requires { InRange base.range p.now }
    ensures { result ≡ volumes_of integers (nodes_of p.now) }
{
    let mut out = [0; 20];
    for (k, t) in CORNERS.iter().enumerate() {
        out[k] = at_corner(p, *t);
    }
    for (k, t) in EDGES.iter().enumerate() {
        out[8 + k] = at_edge(p, *t);
    }
    out
}
