// The record of one element: of eight points in range by the search, of an element with a fault by its fault. An inner crate: `mesh_records` meets
// what each `requires` asks. Every answer is an equation with `Record` and `Mesh` of the definitions at the limits `base`.
#![tactic(auto)]

ghost use Rattle.std.specs.Prelude.{◌≡◌, ◌≤◌};
ghost use Rattle.definitions.specs.Limits.{base};
ghost use Rattle.definitions.specs.Mesh.{element_record};

use limits::RECORD_WORDS;

// The record of the element whose eight indices are lent.
pub fn element(coordinates: &[i32], ix: &[u32; 8], depth: u32) -> [i64; RECORD_WORDS]
    requires { depth ≤ base.depth }
    ensures { result ≡ element_record base coordinates.now ix.now depth }
{
    let mut p = [0; 24];
    match mesh_elements::points(coordinates, ix, &mut p) {
        Ok(()) => search_points::record(&p, depth),
        Err(fault) => mesh_elements::fault_words(Some(fault)),
    }
}
