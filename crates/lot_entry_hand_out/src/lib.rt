// Handing out what one entry of a lot file holds, to lent space that is large enough for it. An inner crate: `lot_hand_out` meets what each
// `requires` asks. Every answer is an equation with `Numbers` and `Reading` of the crate `lot_format`.
#![tactic(auto)]

ghost use Rattle.std.specs.Prelude.{◌≡◌, map, ◌+◌, ◌*◌, ◌≤◌, length, drop};
ghost use Rattle.foundation.specs.Laid.{put};
ghost use Rattle.lot_format.specs.Numbers.{unsigneds};
ghost use Rattle.lot_marks.specs.Meaning.{mark_held};
ghost use Rattle.lot_runs.specs.Meaning.{room_held, space_held, Kept};
ghost use Rattle.lot_entry_hand_out.specs.Meaning.{new_runs, Fitting, Laid};

use bytes_input::Word;
use lot_entry_reader::Entry;
use lot_marks::Mark;
use lot_runs::Space;
use lot_scan::Counts;

// Writes N numbers, whose bytes start at a place of the file, to the lent words from n on. The index stands for both places: nothing is known of
// words that an adapter of `iter_mut` hands out.
fn put_words<T: Word, const N: usize>(file: &[u8], at: usize, words: &mut [T], n: usize)
    requires { (at + 4 * N ≤ length file.now) × (n + N ≤ length words.old) }
    ensures { words.new ≡ put n (map T.held (unsigneds N (drop at file.now))) words.old }
{
    for k in 0..N {
        words[n + k] = T::word_at(file, at + 4 * k);
    }
}

// Writes a name to the lent bytes from n on. It is a call of its own: laid into the loop over a file's entries its own loop would take the room that nodes and
// elements need.
#[inline(never)]
fn put_name(names: &mut [u8], n: usize, name: &[u8])
    requires { n + length name.now ≤ length names.old }
    ensures { names.new ≡ put n name.now names.old }
{
    bytes_output::put(names, n, name)
}

// Writes what an entry holds, whose body starts at a place of the file, behind what the entries before it held: n counts that.
pub fn put_entry(file: &[u8], at: usize, entry: Entry, space: &mut Space, n: Counts)
    requires { Fitting (mark_held entry.mark) file.now at entry.len n (room_held space.old) }
    ensures laid { Laid (new_runs (mark_held entry.mark) file.now at entry.len n) n (space_held space.old) (space_held space.new) }
    ensures kept { Kept space.old space.new }
{
    match entry.mark {
        Mark::LB | Mark::EN => {}
        Mark::ND => put_words::<i32, 3>(file, at, space.nodes, 3 * n.nodes),
        Mark::HX => put_words::<u32, 8>(file, at, space.elements, 8 * n.elements),
        Mark::GR => {
            put_name(space.names, n.names, &file[at..at + entry.len]);
            space.lengths[n.groups] = entry.len as u32;
            space.offsets[n.groups] = n.elements as u32;
        }
    }
}
