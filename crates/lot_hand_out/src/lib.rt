// Handing out what a lot file holds, to lent space that is large enough for it.
// An inner crate: only the reader calls it, and it meets what each `requires` asks.
// Every answer is an equation with `Reading` of the crate `lot_format` at the limits `lot_file`.
#![tactic(auto)]

ghost use Rattle.lot_format.specs.Format.{lot_file};
ghost use Rattle.lot_format.specs.Reading.{read_lot, handed_out};
ghost use Rattle.lot_runs.specs.Meaning.{room_held, space_held, Over, Kept};
ghost use Rattle.lot_hand_out.specs.Meaning.{Handable};

use lot_entry_reader::Entry;
use lot_runs::Space;
use lot_scan::Counts;

// Writes what a file without fault holds to lent words that have room for it. An entry's length is known only once it is read, so the place is counted
// by hand.
pub fn hand_out(file: &[u8], space: &mut Space)
    requires { Handable (read_lot lot_file file.now) (room_held space.old) }
    ensures over { Over (handed_out (read_lot lot_file file.now)) (space_held space.old) (space_held space.new) }
    ensures kept { Kept space.old space.new }
{
    let mut at = 0;
    let mut n = Counts::default();
    while at < file.len() {
        let Some(mark) = lot_entry_reader::mark_at(file, at) else {
            return;
        };
        let len = lot_marks::body_length(mark, lot_entry_reader::length_at(file, at));
        let entry = Entry { mark, len };
        lot_entry_hand_out::put_entry(file, at + 4, entry, space, n);
        n = n.counted(entry);
        at = at + 4 + len;
    }
}
