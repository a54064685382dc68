// The scan of a lot file: its first fault, or how much it holds, and whether the lent space is large enough for it.
// An inner crate: only the reader's own crates call it, and they meet what each `requires` asks.
// Every answer is an equation with `Reading` of the crate `lot_format` at the limits `lot_file`.
#![tactic(auto)]

ghost use Rattle.std.specs.Prelude.{◌≡◌};
ghost use Rattle.lot_format.specs.Format.{lot_file};
ghost use Rattle.lot_format.specs.Reading.{read_lot, reading};
ghost use Rattle.lot_marks.specs.Meaning.{mark_held};
ghost use Rattle.lot_runs.specs.Meaning.{room_held};
ghost use Rattle.lot_scan.specs.Meaning.{counted_of, Small, scan_held, scan_of, Few, has_room};

use lot_entry_reader::{Entry, Unreadable};
use lot_marks::{Mark, Stage};
use lot_runs::Space;

// The bytes of the label, the numbers of nodes, elements and groups, and the bytes of the groups' names. The default is that of no entry.
#[derive(Clone, Copy, Debug, Default, PartialEq, Eq)]
pub struct Counts {
    pub label: usize,
    pub nodes: usize,
    pub elements: usize,
    pub groups: usize,
    pub names: usize,
}

impl Counts {
    // The counts with one entry more. Only one label is read.
    pub fn counted(self, entry: Entry) -> Counts
        requires { Small entry.len self }
        ensures { result ≡ counted_of (mark_held entry.mark) entry.len self }
    {
        match entry.mark {
            Mark::LB => Counts {
                label: self.label + entry.len,
                ..self
            },
            Mark::ND => Counts {
                nodes: self.nodes + 1,
                ..self
            },
            Mark::HX => Counts {
                elements: self.elements + 1,
                ..self
            },
            Mark::GR => Counts {
                groups: self.groups + 1,
                names: self.names + entry.len,
                ..self
            },
            Mark::EN => self,
        }
    }
}

// The first fault of a file, or what it holds. An entry's length is known only once it is read, so the place is counted by hand.
fn scan_file(file: &[u8]) -> Result<Counts, Unreadable>
    ensures result_value { scan_held result ≡ scan_of (read_lot lot_file file.now) }
    ensures few { Few result }
{
    if limits::MAX_BYTES < file.len() {
        return Err(Unreadable::TooLong);
    }
    let mut at = 0;
    let mut stage = Stage::AtLabel;
    let mut counts = Counts::default();
    while !lot_marks::has_ended(stage) {
        let entry = lot_entry_reader::entry_at(file, at, stage, counts.elements)?;
        counts = counts.counted(entry);
        at = at + 4 + entry.len;
        stage = lot_marks::stage_after(entry.mark);
    }
    if at < file.len() {
        return Err(Unreadable::OutOfPlace);
    }
    Ok(counts)
}

// Whether there is room for so much.
fn has_room(n: Counts, space: &Space) -> bool
    requires { Small 0 n }
    ensures { result ≡ has_room n (room_held space.now) }
{
    (3 * n.nodes <= space.nodes.len())
        & ((8 * n.elements <= space.elements.len())
            & ((n.names <= space.names.len())
                & ((n.groups <= space.lengths.len()) & (n.groups <= space.offsets.len()))))
}

// What the scan of a file finds, and `NoRoom` where what it holds does not fit the lent runs.
pub fn scan_with_room(file: &[u8], space: &Space) -> Result<Counts, Unreadable>
    ensures result_value { scan_held result ≡ scan_of (reading lot_file file.now (room_held space.now)) }
    ensures few { Few result }
{
    let found = scan_file(file)?;
    if has_room(found, space) {
        Ok(found)
    } else {
        Err(Unreadable::NoRoom)
    }
}
