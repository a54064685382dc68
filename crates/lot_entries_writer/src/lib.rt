// Runs of entries of a lot file, written to lent space. An inner crate: its callers see that there is room. Every text is one of `Format` of
// the crate `lot_format`.
#![tactic(auto)]

ghost use Rattle.std.specs.Prelude.{◌≡◌, ◌++◌, ◌*◌, ◌/◌, ◌%◌, ◌<◌, map, length};
ghost use Rattle.lot_format.specs.Numbers.{unsigned_bytes};
ghost use Rattle.lot_format.specs.Format.{GR, entry_bytes, entries, node_entries, element_entries, grouped_entries};
ghost use Rattle.lot_marks.specs.Meaning.{mark_held};
ghost use Rattle.lot_runs.specs.Meaning.{groups_held};
ghost use Rattle.bytes_output.specs.Behind.{Room, Laid};
ghost use Rattle.lot_entries_writer.specs.Meaning.{Grouped};

use bytes_output::Output;
use lot_entry_writer::Word;
use lot_marks::Mark;
use lot_runs::Groups;

// The entries of one mark, each with the next n numbers.
fn put_entries<W: Word>(out: &mut Output, mark: Mark, n: usize, numbers: &[W])
    requires { (0 < n) × (4 * n < 65536) × Room out.old (entries (mark_held mark) n (λ xs. unsigned_bytes (map W.Word.bits xs)) (length numbers.now / n) numbers.now) }
    ensures { Laid out.old (entries (mark_held mark) n (λ xs. unsigned_bytes (map W.Word.bits xs)) (length numbers.now / n) numbers.now) out.new }
{
    for chunk in numbers.chunks_exact(n) {
        lot_entry_writer::put_numbers(out, mark, chunk);
    }
}

// The entries of nodes.
pub fn put_nodes(out: &mut Output, nodes: &[i32])
    requires { Room out.old (node_entries nodes.now) }
    ensures { Laid out.old (node_entries nodes.now) out.new }
{
    put_entries(out, Mark::ND, 3, nodes);
}

// The entries of elements.
fn put_elements(out: &mut Output, elements: &[u32])
    requires { Room out.old (element_entries elements.now) }
    ensures { Laid out.old (element_entries elements.now) out.new }
{
    put_entries(out, Mark::HX, 8, elements);
}

// The elements before a group, and its name.
fn put_group(out: &mut Output, elements: &[u32], name: &[u8])
    requires { (length name.now < 65536) × Room out.old (element_entries elements.now ++ entry_bytes GR name.now) }
    ensures { Laid out.old (element_entries elements.now ++ entry_bytes GR name.now) out.new }
{
    put_elements(out, elements);
    lot_entry_writer::put_entry(out, Mark::GR, name);
}

// The entries of elements with the groups among them: before each group those that it counts, then its name.
pub fn put_grouped(out: &mut Output, elements: &[u32], groups: Groups)
    requires grouped { Grouped elements.now groups.names.now groups.lengths.now groups.offsets.now }
    requires elements_in_bounds { Room out.old (grouped_entries 0 (groups_held groups) elements.now) }
    ensures { Laid out.old (grouped_entries 0 (groups_held groups.entry) elements.now) out.new }
{
    let mut done = 0;
    let mut named = 0;
    // By number: zipped lists would want an invariant over the iterator, of which `Among` does not speak.
    for (k, len) in groups.lengths.iter().enumerate() {
        let end = 8 * groups.offsets[k] as usize;
        let name_end = named + *len as usize;
        put_group(out, &elements[done..end], &groups.names[named..name_end]);
        done = end;
        named = name_end;
    }
    put_elements(out, &elements[done..]);
}
