// The vectors between an element's nodes, and the determinant of three vectors. An inner crate, for the crates of volumes. Nodes go by their
// numbers, 1 to 8; coordinates may be any numbers of 32 bits. A vector is its coordinates on x, y, z.
#![tactic(auto)]

ghost use Rattle.std.specs.Prelude.{◌≡◌, ◌+◌, ◌-◌, ◌<◌, ◌≤◌, nat_abs};
ghost use Rattle.foundation.specs.Polynomial.{integers};
ghost use Rattle.foundation.specs.Words.{args};
ghost use Rattle.definitions.specs.Jacobian.{nodes_of, det};
ghost use Rattle.definitions.specs.Coefficients.{edge, middle};
ghost use Rattle.element_vectors.specs.Fitting.{Fitting};
ghost use Rattle.element_vectors.specs.Range.{Node};
ghost use Rattle.element_vectors.specs.Vectors.{coordinates};
ghost use Rattle.element_vectors.specs.Widened.{widest};

// Node a's coordinate on axis e.
fn coordinate(p: &[i32; 24], a: usize, e: usize) -> i64
    requires { Node a × (e < 3) }
    ensures { (result ≡ nodes_of p.now (a - 1) e) × (nat_abs (nodes_of p.now (a - 1) e) ≤ widest) }
{
    i64::from(p[3 * (a - 1) + e])
}

// The difference of two nodes' coordinates on axis e.
fn difference(p: &[i32; 24], a: usize, b: usize, e: usize) -> i64
    requires { Node a × Node b × (e < 3) }
    ensures { (result ≡ edge integers (nodes_of p.now) a b e) × (nat_abs (edge integers (nodes_of p.now) a b e) ≤ widest + widest) }
{
    coordinate(p, b, e) - coordinate(p, a, e)
}

// From node a to node b.
pub fn edge(p: &[i32; 24], a: usize, b: usize) -> [i64; 3]
    requires { Node a × Node b }
    ensures { result ≡ coordinates (edge integers (nodes_of p.now) a b) }
{
    [
        difference(p, a, b, 0),
        difference(p, a, b, 1),
        difference(p, a, b, 2),
    ]
}

// From node a to the middle of nodes b and c, twice.
pub fn middle(p: &[i32; 24], a: usize, b: usize, c: usize) -> [i64; 3]
    requires { Node a × Node b × Node c }
    ensures { result ≡ coordinates (middle integers (nodes_of p.now) a b c) }
{
    [
        difference(p, a, b, 0) + difference(p, a, c, 0),
        difference(p, a, b, 1) + difference(p, a, c, 1),
        difference(p, a, b, 2) + difference(p, a, c, 2),
    ]
}

// The determinant of the vectors u, v, w.
pub fn determinant(u: [i64; 3], v: [i64; 3], w: [i64; 3]) -> i64
    requires { Fitting u v w }
    ensures { result ≡ det integers (args u) (args v) (args w) }
{
    let [ux, uy, uz] = u;
    let [vx, vy, vz] = v;
    let [wx, wy, wz] = w;
    ux * (vy * wz - vz * wy) - uy * (vx * wz - vz * wx) + uz * (vx * wy - vy * wx)
}
