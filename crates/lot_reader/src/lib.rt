// Reading a lot file: the service `read`. Nothing has to be checked first: it takes any bytes and any lent space, and states its whole
// answer, every word of lent space included, as an equation with `Reading` of the crate `lot_format` at the limits `lot_file`.
// A file is gone through twice: first for a fault, then, where it has none and the lent space is large enough, to hand out what it holds.
#![tactic(auto)]

ghost use Rattle.std.specs.Prelude.{◌≡◌, ◌+◌, IfOk};
ghost use Rattle.lot_format.specs.Reading.{handed_out, label_place, reading_numbers};
ghost use Rattle.lot_runs.specs.Meaning.{space_held, Over, Kept};
ghost use Rattle.lot_reader.specs.Promise.{read_over};
ghost use Rattle.lot_reader.specs.Meaning.{label_told, numbers_told};

use lot_entry_reader::Unreadable;
use lot_runs::Space;

// What an accepted lot holds: its label, as the part of the file that it is, and the numbers of nodes, elements and groups and of the bytes of
// the groups' names.
#[derive(Clone, Copy)]
pub struct Contents<'a> {
    pub label: &'a [u8],
    pub nodes: u32,
    pub elements: u32,
    pub groups: u32,
    pub names: u32,
}

// Reads a lot file: what it holds, or why it is refused. An accepted lot's coordinates, three a node, and indices, eight an element, are
// written to the lent words, and so are its groups: their names end to end, the length of each name, and the count of elements before
// each group. Its label is handed back as the part of the file that it is: the last clause says where that part starts. A refused lot leaves
// the lent words as they are.
pub fn read<'a>(file: &'a [u8], space: &mut Space) -> Result<Contents<'a>, Unreadable>
    ensures label { label_told result ≡ (handed_out (read_over file.now (space_held space.old))).label }
    ensures numbers { numbers_told result ≡ reading_numbers (read_over file.now (space_held space.old)) }
    ensures lent { Over (handed_out (read_over file.now (space_held space.old))) (space_held space.old) (space_held space.new) }
    ensures kept { Kept space.old space.new }
    ensures ref_ptr_value { IfOk result (λ c. c.label.ref_ptr ≡ (file.entry.ref_ptr.0, label_place (read_over file.now (space_held space.old)) + file.entry.ref_ptr.1)) }
{
    let n = lot_scan::scan_with_room(file, space)?;
    lot_hand_out::hand_out(file, space);
    let end = 4 + n.label;
    Ok(Contents {
        label: &file[4..end],
        nodes: n.nodes as u32,
        elements: n.elements as u32,
        groups: n.groups as u32,
        names: n.names as u32,
    })
}
