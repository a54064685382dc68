// The answers of reading as plain numbers for callers in C and Rust. An inner crate: `brundhal` exports the services.
// Every contract is an equation with `specs/Meaning.antt`: the fields of an answer are the numbers of the definition's.
#![tactic(auto)]

ghost use Rattle.std.specs.Prelude.{◌≡◌};
ghost use Rattle.lot_reader.specs.Meaning.{numbers_told};
ghost use Rattle.brundhal_lot_answers.specs.Meaning.{lot_fields, lot_told};

use lot_entry_reader::Unreadable;
use lot_reader::Contents;

// The number that answers the reading of a lot file, 0 or 20 to 27, the numbers of nodes, elements, groups and bytes of the groups' names,
// and where in the file the label stands: its first byte's place and its length.
#[repr(C)]
#[derive(Clone, Copy, Debug, PartialEq, Eq)]
pub struct BrundhalLot {
    pub number: u32,
    pub nodes: u32,
    pub elements: u32,
    pub groups: u32,
    pub names: u32,
    pub start: u32,
    pub len: u32,
}

// The answer for an accepted lot, by what it holds and the length of its label, which starts behind the four bytes of its mark and length.
pub fn accepted(contents: Contents, len: u32) -> BrundhalLot
    ensures { lot_fields result ≡ lot_told (numbers_told (Ok contents.entry)) len }
{
    BrundhalLot {
        number: 0,
        nodes: contents.nodes,
        elements: contents.elements,
        groups: contents.groups,
        names: contents.names,
        start: 4,
        len,
    }
}

// The answer for a refused lot: the refusal's number, and 0 for each.
pub fn refused(r: Unreadable) -> BrundhalLot
    ensures { lot_fields result ≡ lot_told (numbers_told (Err r)) 0 }
{
    BrundhalLot {
        number: u32::from(r),
        nodes: 0,
        elements: 0,
        groups: 0,
        names: 0,
        start: 0,
        len: 0,
    }
}
