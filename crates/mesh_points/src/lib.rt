// An element's eight points, and whether they lie within the limits: x, y, z of each place, 24 coordinates.
// An inner crate: only the crates of the two inspectors call it, and they meet what each `requires` asks.
// Every answer is an equation with `Mesh` of the definitions at the limits `base`.
#![tactic(auto)]

ghost use Rattle.std.specs.Prelude.{◌≡◌, ℕ, ◌/◌, ◌<◌, length, get_or, IfSome};
ghost use Rattle.definitions.specs.Limits.{base};
ghost use Rattle.definitions.specs.Mesh.{usable, points_of, out_of_range};
ghost use Rattle.mesh_points.specs.Meaning.{first_of};

use limits::{MAX_COORDINATE, MIN_COORDINATE};

// Whether a coordinate lies within the range.
fn usable(x: i32) -> bool
    ensures { result ≡ usable base x }
{
    (MIN_COORDINATE <= x) & (x <= MAX_COORDINATE)
}

// The first of the 24 coordinates of eight points that is out of range, counted from 0.
pub fn out_of_range(p: &[i32; 24]) -> Option<usize>
    ensures first { first_of result ≡ out_of_range base p.now }
    ensures bound { IfSome result (λ k. k < 24) }
{
    p.iter().position(|x| !usable(*x))
}

// The eight points of an element whose indices all name nodes: x, y, z of each place in turn, into p. They are lent: by value they would be copied twice on their way
// to the search.
pub fn gather(coordinates: &[i32], ix: &[u32; 8], p: &mut [i32; 24])
    requires { (k : ℕ) → k < 8 → get_or ix.now k 0 < length coordinates.now / 3 }
    ensures { p.new ≡ points_of coordinates.now ix.now }
{
    for (place, index) in ix.iter().enumerate() {
        let at = 3 * *index as usize;
        let x = coordinates[at];
        let y = coordinates[at + 1];
        let z = coordinates[at + 2];
        p[3 * place] = x;
        p[3 * place + 1] = y;
        p[3 * place + 2] = z;
    }
}
