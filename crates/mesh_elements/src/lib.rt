// Which elements are refused, and the record of one that is.
// An inner crate: only the crates of the two inspectors call it.
// Every answer is an equation with `Mesh` and `Record` of the definitions at the limits `base`.
#![tactic(auto)]

ghost use Rattle.std.specs.Prelude.{◌≡◌, ◌/◌, length, pos, IfOk};
ghost use Rattle.std.proofs.Math.Option.{none};
ghost use Rattle.definitions.specs.Limits.{base};
ghost use Rattle.definitions.specs.Record.{words};
ghost use Rattle.definitions.specs.Mesh.{missing_index, fault_of, points_of};
ghost use Rattle.mesh_elements.specs.Meaning.{element_of, points_left, fault_told, refused_words};

use limits::RECORD_WORDS;

// Why an element is refused.
#[derive(Clone, Copy, Debug, PartialEq, Eq)]
pub enum Fault {
    // The place, 1 to 8, of an index that names no node, and that index.
    Missing { place: u32, index: u32 },
    // The lower and the higher place, 1 to 8, of one index.
    Twice { lower: u32, higher: u32 },
    // The place, 1 to 8, and the axis, 1 to 3, of a coordinate that is out of range.
    Outside { place: u32, axis: u32 },
}

// The same as below of an element whose indices all name nodes. It is a call of its own, so that the room that it needs is not made where a node is missing.
#[inline(never)]
fn named_points(coordinates: &[i32], ix: &[u32; 8], p: &mut [i32; 24]) -> Result<(), Fault>
    requires { missing_index (length coordinates.now / 3) ix.now ≡ none }
    ensures result_value { element_of result ≡ fault_of base coordinates.now ix.now }
    ensures points { IfOk result (λ _. p.new ≡ points_of coordinates.now ix.now) }
    ensures lent { p.new ≡ points_left coordinates.now ix.now p.old }
{
    if let Some(k) = mesh_indices::named_twice(ix) {
        return Err(Fault::Twice {
            lower: k as u32 / 8 + 1,
            higher: k as u32 % 8 + 1,
        });
    }
    mesh_points::gather(coordinates, ix, p);
    if let Some(k) = mesh_points::out_of_range(p) {
        return Err(Fault::Outside {
            place: k as u32 / 3 + 1,
            axis: k as u32 % 3 + 1,
        });
    }
    Ok(())
}

// The eight points of an element that can be inspected, into p, or why it is refused: a missing node goes before a node named twice, and this before a
// coordinate out of range. Where a node is missing or named twice, p stays as it is.
pub fn points(coordinates: &[i32], ix: &[u32; 8], p: &mut [i32; 24]) -> Result<(), Fault>
    ensures result_value { element_of result ≡ fault_of base coordinates.now ix.now }
    ensures points { IfOk result (λ _. p.new ≡ points_of coordinates.now ix.now) }
    ensures lent { p.new ≡ points_left coordinates.now ix.now p.old }
{
    if let Some(k) = mesh_indices::missing_index(coordinates.len() / 3, ix) {
        return Err(Fault::Missing {
            place: k as u32 + 1,
            index: ix[k],
        });
    }
    named_points(coordinates, ix, p)
}

// The record of an element that is refused: the number, and the two that name the fault. It is words, as `words` of the definitions has it.
fn refusal_words(number: u32, first: u32, second: u32) -> [i64; RECORD_WORDS]
    ensures { result ≡ words number first second 0 0 0 (pos 0) 0 }
{
    [
        i64::from(number),
        i64::from(first),
        i64::from(second),
        0,
        0,
        0,
        0,
        0,
        0,
    ]
}

// The record of a refused element: why it is refused. Where nothing is at fault, nine zeros.
pub fn fault_words(fault: Option<Fault>) -> [i64; RECORD_WORDS]
    ensures { result ≡ refused_words (fault_told fault) }
{
    match fault {
        None => [0; RECORD_WORDS],
        Some(Fault::Missing { place, index }) => refusal_words(5, place, index),
        Some(Fault::Twice { lower, higher }) => refusal_words(7, lower, higher),
        Some(Fault::Outside { place, axis }) => refusal_words(6, place, axis),
    }
}
