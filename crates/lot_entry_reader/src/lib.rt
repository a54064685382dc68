// The entries of a lot file, as a record of the file is called here: mark, length, body. What stands at a place of the file, and whether it is
// right there. An inner crate: its callers meet what each `requires` asks.
// Every answer is an equation with `Format` and `Reading` of the crate `lot_format` at the limits `lot_file`.
#![tactic(auto)]

ghost use Rattle.std.specs.Prelude.{◌≡◌, true, ◌+◌, ◌/◌, ◌%◌, ◌≤◌, ◌<◌, length, get_or, take, drop};
ghost use Rattle.lot_format.specs.Numbers.{number};
ghost use Rattle.lot_format.specs.Format.{lot_file, mark_of, right_length, name_byte, name_bytes};
ghost use Rattle.lot_format.specs.Reading.{unreadable_number, name_fault, body_fault, body_of, known_of, entry_of};
ghost use Rattle.lot_marks.specs.Meaning.{mark_held, marked_held, stage_held};
ghost use Rattle.lot_entry_reader.specs.Meaning.{unreadable_held, fault_held, entry_held, Within};

use limits::MAX_ELEMENTS;
use lot_marks::{Mark, Stage};

// Why a lot is refused.
#[derive(Clone, Copy, Debug, PartialEq, Eq)]
pub enum Unreadable {
    TooLong,
    CutShort,
    UnknownMark,
    WrongLength,
    OutOfPlace,
    BadByte,
    TooManyElements,
    NoRoom,
}

// The number of a refusal.
impl From<Unreadable> for u32 {
    ghost from_gives = { λ r n. n ≡ unreadable_number (unreadable_held r) };

    fn from(r: Unreadable) -> u32 {
        match r {
            Unreadable::TooLong => 20,
            Unreadable::CutShort => 21,
            Unreadable::UnknownMark => 22,
            Unreadable::WrongLength => 23,
            Unreadable::OutOfPlace => 24,
            Unreadable::BadByte => 25,
            Unreadable::TooManyElements => 26,
            Unreadable::NoRoom => 27,
        }
    }
}

// A whole entry: its mark and the length of its body.
#[derive(Clone, Copy, Debug, PartialEq, Eq)]
pub struct Entry {
    pub mark: Mark,
    pub len: usize,
}

// Whether a byte may stand in a label or a group's name.
fn name_byte(b: u8) -> bool
    ensures { result ≡ name_byte b }
{
    (32 <= b) & (b <= 126)
}

// Whether all bytes may stand in a label or a group's name.
pub fn name_bytes(name: &[u8]) -> bool
    ensures { result ≡ name_bytes name.now }
{
    name.iter().all(|b| name_byte(*b))
}

// The fault of a label or a group's name.
fn name_fault(name: &[u8]) -> Result<(), Unreadable>
    ensures { fault_held result ≡ name_fault name.now }
{
    if name_bytes(name) {
        Ok(())
    } else {
        Err(Unreadable::BadByte)
    }
}

// The fault of a whole entry, where so many elements stand before it.
fn body_fault(mark: Mark, elements: usize, body: &[u8]) -> Result<(), Unreadable>
    ensures { fault_held result ≡ body_fault lot_file (mark_held mark) elements body.now }
{
    match mark {
        Mark::LB | Mark::GR => name_fault(body),
        Mark::HX if MAX_ELEMENTS <= elements => Err(Unreadable::TooManyElements),
        Mark::HX | Mark::ND | Mark::EN => Ok(()),
    }
}

// The mark of the entry at a place.
pub fn mark_at(file: &[u8], at: usize) -> Option<Mark>
    requires { at + 2 ≤ length file.now }
    ensures { marked_held result ≡ mark_of (get_or (drop at file.now) 0 0) (get_or (drop at file.now) 1 0) }
{
    lot_marks::mark_of(u32::from(bytes_input::short_at(file, at)))
}

// The length that the entry at a place gives for its body.
pub fn length_at(file: &[u8], at: usize) -> usize
    requires { at + 4 ≤ length file.now }
    ensures { (result ≡ number (take 2 (drop 2 (drop at file.now)))) × (result < 65536) }
{
    usize::from(bytes_input::short_at(file, at + 2))
}

// The entry at a place, its mark and length being right: cut short, at fault, or whole.
fn body_at(
    file: &[u8],
    at: usize,
    mark: Mark,
    elements: usize,
    len: usize,
) -> Result<Entry, Unreadable>
    requires { (at + 4 ≤ length file.now) × (len < 65536) }
    ensures result_value { entry_held (drop at file.now) result ≡ body_of lot_file (mark_held mark) elements len (drop 4 (drop at file.now)) }
    ensures within { Within (drop at file.now) result }
{
    let start = at + 4;
    if file.len() - start < len {
        return Err(Unreadable::CutShort);
    }
    body_fault(mark, elements, &file[start..start + len])?;
    Ok(Entry { mark, len })
}

// The entry at a place, its mark being known.
fn known_at(
    file: &[u8],
    at: usize,
    stage: Stage,
    mark: Mark,
    elements: usize,
) -> Result<Entry, Unreadable>
    requires { at + 4 ≤ length file.now }
    ensures result_value { entry_held (drop at file.now) result ≡ known_of lot_file (stage_held stage) (mark_held mark) elements (drop at file.now) }
    ensures within { Within (drop at file.now) result }
{
    let len = length_at(file, at);
    let right = lot_marks::right_length(mark, len);
    if !lot_marks::in_place(stage, mark) {
        return Err(Unreadable::OutOfPlace);
    }
    if !right {
        return Err(Unreadable::WrongLength);
    }
    body_at(file, at, mark, elements, lot_marks::body_length(mark, len))
}

// What stands at a place of the file, where so many elements stand before it.
pub fn entry_at(file: &[u8], at: usize, stage: Stage, elements: usize) -> Result<Entry, Unreadable>
    requires { at ≤ length file.now }
    ensures result_value { entry_held (drop at file.now) result ≡ entry_of lot_file (stage_held stage) elements (drop at file.now) }
    ensures within { Within (drop at file.now) result }
{
    if file.len() - at < 4 {
        return Err(Unreadable::CutShort);
    }
    let Some(mark) = mark_at(file, at) else {
        return Err(Unreadable::UnknownMark);
    };
    known_at(file, at, stage, mark, elements)
}
