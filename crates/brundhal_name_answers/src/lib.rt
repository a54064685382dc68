// The answers of naming as plain numbers for callers in C and Rust. An inner crate: `brundhal` exports the services.
// Every contract is an equation with `specs/Meaning.antt`: the fields of an answer are the numbers of the definition's.
#![tactic(auto)]

ghost use Rattle.std.specs.Prelude.{◌≡◌};
ghost use Rattle.lot_naming.specs.Meaning.{number_told};
ghost use Rattle.brundhal_name_answers.specs.Meaning.{name_fields, name_said};

use lot_group_names::Part;
use lot_naming::Unnamed;

// The number that answers the naming of an element, 0 or 24, 23, 25, 28, and the name that it bears: 1 and the place and length of a part of
// the names; or 0, 0 and the length of the label, whose whole it is. A refusal has 0 for each.
#[repr(C)]
#[derive(Clone, Copy, Debug, PartialEq, Eq)]
pub struct BrundhalName {
    pub number: u32,
    pub grouped: u32,
    pub start: usize,
    pub len: usize,
}

// The name of an element, by whether it has one, the part of the names that is in force there and the length of the label.
pub fn name(refusal: Result<(), Unnamed>, part: Part, label: usize) -> BrundhalName
    ensures { name_fields result ≡ name_said (number_told refusal) part.start part.len label }
{
    match refusal {
        Err(r) => BrundhalName {
            number: u32::from(r),
            grouped: 0,
            start: 0,
            len: 0,
        },
        Ok(()) if part.len == 0 => BrundhalName {
            number: 0,
            grouped: 0,
            start: 0,
            len: label,
        },
        Ok(()) => BrundhalName {
            number: 0,
            grouped: 1,
            start: part.start,
            len: part.len,
        },
    }
}
