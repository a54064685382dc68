// Writing a lot file: the service `write`. Nothing has to be checked first: it takes any runs and any lent space, and states its whole
// answer, every byte of lent space included, as an equation with `Writing` of the crate `lot_format` at the limits `lot_file`.
// All is tested first, in the order of the definitions' `tests`; then the file is written entry by entry.
#![tactic(auto)]

ghost use Rattle.std.specs.Prelude.{◌≡◌, length};
ghost use Rattle.foundation.specs.Laid.{put, laid_over};
ghost use Rattle.lot_format.specs.Format.{lot_file, written};
ghost use Rattle.lot_format.specs.Runs.{lot_from};
ghost use Rattle.lot_format.specs.Writing.{unwritable_number, writing, file_of};
ghost use Rattle.lot_roundtrip_theory.specs.Lengths.{length_by};
ghost use Rattle.lot_roundtrip_theory.specs.Tests.{Writable};
ghost use Rattle.lot_runs.specs.Meaning.{lot_held};
ghost use Rattle.bytes_output.specs.Behind.{Laid};
ghost use Rattle.lot_writer.specs.Meaning.{unwritable_of, unwritable_held, written_held, answer_of, capped};

use bytes_output::Output;
use limits::{MAX_BYTES, MAX_ELEMENTS};
use lot_groups::GroupFault;
use lot_marks::Mark;
use lot_runs::Lot;

// Why runs are not written.
#[derive(Clone, Copy, Debug, PartialEq, Eq)]
pub enum Unwritable {
    PartialNode,
    PartialElement,
    GroupsApart,
    NameTooLong,
    BadByte,
    TooManyElements,
    TooLong,
    NoRoom,
}

// The refusal for a fault of the label or the groups.
impl From<GroupFault> for Unwritable {
    ghost from_gives = { λ f r. r ≡ unwritable_of f };

    fn from(f: GroupFault) -> Unwritable {
        match f {
            GroupFault::Apart => Unwritable::GroupsApart,
            GroupFault::NameTooLong => Unwritable::NameTooLong,
            GroupFault::BadByte => Unwritable::BadByte,
        }
    }
}

// The number of a refusal.
impl From<Unwritable> for u32 {
    ghost from_gives = { λ r n. n ≡ unwritable_number (unwritable_held r) };

    fn from(r: Unwritable) -> u32 {
        match r {
            Unwritable::PartialNode => 2,
            Unwritable::PartialElement => 3,
            Unwritable::GroupsApart => 24,
            Unwritable::NameTooLong => 23,
            Unwritable::BadByte => 25,
            Unwritable::TooManyElements => 26,
            Unwritable::TooLong => 20,
            Unwritable::NoRoom => 27,
        }
    }
}

// A number, or 65,537 where it is larger.
fn cap(n: usize) -> usize
    ensures { result ≡ capped n }
{
    n.min(MAX_BYTES + 1)
}

// The length of the file of so many bytes of label, nodes, elements, groups and bytes of names, or 65,537 where it is longer.
fn file_length(label: usize, nodes: usize, elements: usize, groups: usize, names: usize) -> usize
    ensures { result ≡ capped (length_by label nodes elements groups names) }
{
    cap(8 + cap(label) + 16 * cap(nodes) + 36 * cap(elements) + 4 * cap(groups) + cap(names))
}

// The answer, before anything is written: the length of the file that fits so many lent bytes, or the first test that fails.
fn tested(lot: Lot, room: usize) -> Result<usize, Unwritable>
    ensures { written_held result ≡ answer_of (writing lot_file (lot_held lot.entry) room) }
{
    let elements = lot.elements.len() / 8;
    if lot.nodes.len() % 3 != 0 {
        return Err(Unwritable::PartialNode);
    }
    if lot.elements.len() % 8 != 0 {
        return Err(Unwritable::PartialElement);
    }
    lot_groups::check(lot.label, lot.groups, elements)?;
    if MAX_ELEMENTS < elements {
        return Err(Unwritable::TooManyElements);
    }
    let n = file_length(
        lot.label.len(),
        lot.nodes.len() / 3,
        elements,
        lot.groups.lengths.len(),
        lot.groups.names.len(),
    );
    if MAX_BYTES < n {
        return Err(Unwritable::TooLong);
    }
    if room < n {
        return Err(Unwritable::NoRoom);
    }
    Ok(n)
}

// The entries of a lot that can be written, from the start of the space on.
fn put_lot(out: &mut Output, lot: Lot)
    requires { (out.old.at ≡ 0) × Writable lot_file (lot_held lot) (length out.old.space.now) }
    ensures { Laid out.old (written (lot_from (lot_held lot.entry))) out.new }
{
    lot_entry_writer::put_entry(out, Mark::LB, lot.label);
    lot_entries_writer::put_nodes(out, lot.nodes);
    lot_entries_writer::put_grouped(out, lot.elements, lot.groups);
    lot_entry_writer::put_entry(out, Mark::EN, &[]);
}

// The file of a lot that can be written, at the start of the lent space.
fn put_file(space: &mut [u8], lot: Lot)
    requires { Writable lot_file (lot_held lot) (length space.old) }
    ensures { space.new ≡ put 0 (written (lot_from (lot_held lot.entry))) space.old }
{
    let mut out = Output { space, at: 0 };
    put_lot(&mut out, lot);
}

// Writes a lot file. The answer is its length, and the file stands at the start of the lent space, whose other bytes stay as they are.
// Where a test fails, the answer is the first that does, and no byte is written.
pub fn write(lot: Lot, out: &mut [u8]) -> Result<usize, Unwritable>
    ensures result_value { written_held result ≡ answer_of (writing lot_file (lot_held lot.entry) (length out.old)) }
    ensures out_after { out.new ≡ laid_over (file_of (writing lot_file (lot_held lot.entry) (length out.old))) out.old }
{
    let n = tested(lot, out.len())?;
    put_file(out, lot);
    Ok(n)
}
