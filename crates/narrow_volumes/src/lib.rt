// An inner crate, for `narrow_coefficients`. The twenty volumes: J at the corners and four times J at the edge middles, each a determinant of three
// vectors. A tetrahedron goes by its nodes' numbers, 1 to 8. `wide_volumes` has another method, by two digits, since one word is too short there; so the
// two are not one function.
#![tactic(auto)]

ghost use Rattle.std.specs.Prelude.{◌≡◌};
ghost use Rattle.foundation.specs.Polynomial.{integers};
ghost use Rattle.definitions.specs.Jacobian.{nodes_of};
ghost use Rattle.definitions.specs.Coefficients.{corner_volume, edge_volume, volumes};
ghost use Rattle.element_vectors.specs.Range.{InRange, Nodes};
ghost use Rattle.narrow_volumes.specs.Range.{narrow_range};

use element_vectors::{determinant, edge, middle};

// J at the corner of this tetrahedron, which has its neighbours too.
fn at_corner(p: &[i32; 24], t: [usize; 4]) -> i64
    requires range { InRange narrow_range p.now }
    requires nodes { Nodes t }
    ensures { result ≡ corner_volume integers (nodes_of p.now) t }
{
    let [a, b, c, d] = t;
    determinant(edge(p, a, b), edge(p, a, c), edge(p, a, d))
}

// Four times J at the middle of edge a-b. The tetrahedron's other vertices are the middles of c and d and of e and f.
fn at_edge(p: &[i32; 24], t: [usize; 6]) -> i64
    requires range { InRange narrow_range p.now }
    requires nodes { Nodes t }
    ensures { result ≡ edge_volume integers (nodes_of p.now) t }
{
    let [a, b, c, d, e, f] = t;
    determinant(edge(p, a, b), middle(p, a, c, d), middle(p, a, e, f))
}

// The twenty volumes, corners 1 to 8 and then edges 9 to 20, each by its tetrahedron. They are written out: a loop over a table of the tetrahedra was
// tried, and took a fifth longer for each element, since the compiler no longer takes once what neighbours share.
pub fn volumes(p: &[i32; 24]) -> [i64; 20]
    requires { InRange narrow_range p.now }
    ensures { result ≡ volumes integers (nodes_of p.now) }
{
    [
        at_corner(p, [1, 2, 4, 5]),
        at_corner(p, [2, 3, 1, 6]),
        at_corner(p, [3, 4, 2, 7]),
        at_corner(p, [4, 1, 3, 8]),
        at_corner(p, [5, 8, 6, 1]),
        at_corner(p, [6, 5, 7, 2]),
        at_corner(p, [7, 6, 8, 3]),
        at_corner(p, [8, 7, 5, 4]),
        at_edge(p, [1, 2, 3, 4, 5, 6]),
        at_edge(p, [2, 3, 1, 4, 6, 7]),
        at_edge(p, [3, 4, 1, 2, 7, 8]),
        at_edge(p, [1, 4, 5, 8, 2, 3]),
        at_edge(p, [1, 5, 2, 6, 4, 8]),
        at_edge(p, [2, 6, 3, 7, 1, 5]),
        at_edge(p, [3, 7, 4, 8, 2, 6]),
        at_edge(p, [4, 8, 1, 5, 3, 7]),
        at_edge(p, [5, 6, 1, 2, 7, 8]),
        at_edge(p, [6, 7, 2, 3, 5, 8]),
        at_edge(p, [7, 8, 3, 4, 5, 6]),
        at_edge(p, [5, 8, 6, 7, 1, 4]),
    ]
}
