// Which meshes are refused. A mesh is a run of coordinates, three per node, and a run of indices, eight per element.
// An inner crate: only the crates of the two inspectors call it.
// The answer is an equation with `Mesh` of the definitions at the limits `base`.
#![tactic(auto)]

ghost use Rattle.std.specs.Prelude.{◌≡◌, ◌<◌};
ghost use Rattle.definitions.specs.Limits.{base};
ghost use Rattle.definitions.specs.Mesh.{well_sized, refusal};
ghost use Rattle.mesh_checks.specs.Meaning.{check_of};

use inspection_answers::Refusal;
use limits::{MAX_DEPTH, MAX_ELEMENTS, MAX_NODES, RECORD_WORDS};

// Whether n numbers are a whole number of groups, and at most so many.
fn well_sized(n: usize, group: usize, most: usize) -> bool
    requires { 0 < group }
    ensures { result ≡ well_sized n group most }
{
    (n % group == 0) & (n / group <= most)
}

// The first refusal that a mesh meets, given the lengths of its coordinate run, its index run and the report space, and the depth.
pub fn check(coordinates: usize, indices: usize, space: usize, depth: u32) -> Result<(), Refusal>
    ensures { check_of result ≡ refusal base coordinates indices space depth }
{
    if MAX_DEPTH < depth {
        return Err(Refusal::DepthTooGreat);
    }
    if !well_sized(coordinates, 3, MAX_NODES) {
        return Err(Refusal::BadCoordinates);
    }
    if !well_sized(indices, 8, MAX_ELEMENTS) {
        return Err(Refusal::BadIndices);
    }
    if space != RECORD_WORDS * (indices / 8) {
        return Err(Refusal::BadSpace);
    }
    Ok(())
}
