// The marks of a lot file's entries: their letters, which stand where, and how long a body they have. An inner crate, for those that read and write entries.
// Every answer is an equation with `Format` and `Reading` of the crate `lot_format` at the limits `lot_file`.
#![tactic(auto)]

ghost use Rattle.std.specs.Prelude.{◌≡◌, true, ◌/◌, ◌%◌};
ghost use Rattle.lot_format.specs.Format.{lot_file, mark_of, right_length, in_place, stage_after};
ghost use Rattle.lot_format.specs.Reading.{has_ended};
ghost use Rattle.lot_marks.specs.Meaning.{mark_held, marked_held, stage_held};

use limits::MAX_NAME;

// The two letters of each mark as a number, low byte first: L is 0x4c, B is 0x42.
pub const LETTERS_LB: u32 = 0x424c;

pub const LETTERS_ND: u32 = 0x444e;

pub const LETTERS_HX: u32 = 0x5848;

pub const LETTERS_GR: u32 = 0x5247;

pub const LETTERS_EN: u32 = 0x4e45;

// The mark of an entry.
#[derive(Clone, Copy, Debug, PartialEq, Eq)]
pub enum Mark {
    LB,
    ND,
    HX,
    GR,
    EN,
}

// Which marks are in place: none was read yet; the label or a node was; an element or a group was; the end was.
#[derive(Clone, Copy, Debug, PartialEq, Eq)]
pub enum Stage {
    AtLabel,
    AtNodes,
    AtElements,
    AtEnd,
}

// The mark whose two letters are the low and the high byte of a number, if they are one's.
pub fn mark_of(letters: u32) -> Option<Mark>
    ensures { marked_held result ≡ mark_of (letters % 256) (letters / 256) }
{
    match letters {
        LETTERS_ND => Some(Mark::ND),
        LETTERS_HX => Some(Mark::HX),
        LETTERS_LB => Some(Mark::LB),
        LETTERS_GR => Some(Mark::GR),
        LETTERS_EN => Some(Mark::EN),
        _ => None,
    }
}

// Whether a mark is in place at a stage.
pub fn in_place(stage: Stage, mark: Mark) -> bool
    ensures { result ≡ in_place (stage_held stage) (mark_held mark) }
{
    match stage {
        Stage::AtLabel => mark == Mark::LB,
        Stage::AtNodes => mark != Mark::LB,
        Stage::AtElements => matches!(mark, Mark::HX | Mark::GR | Mark::EN),
        Stage::AtEnd => false,
    }
}

// The stage after a mark.
pub fn stage_after(mark: Mark) -> Stage
    ensures { stage_held result ≡ stage_after (mark_held mark) }
{
    match mark {
        Mark::LB | Mark::ND => Stage::AtNodes,
        Mark::HX | Mark::GR => Stage::AtElements,
        Mark::EN => Stage::AtEnd,
    }
}

// Whether a body may have this length.
pub fn right_length(mark: Mark, n: usize) -> bool
    ensures { result ≡ right_length lot_file (mark_held mark) n }
{
    match mark {
        Mark::LB | Mark::GR => n <= MAX_NAME,
        Mark::ND => n == 12,
        Mark::HX => n == 32,
        Mark::EN => n == 0,
    }
}

// The length of an entry's body, where it gives n and that is right. For a node, an element and the end this is known from the mark, so that the next
// entry is found without waiting for n to be read.
pub fn body_length(mark: Mark, n: usize) -> usize
    requires { right_length lot_file (mark_held mark) n ≡ true }
    ensures { result ≡ n }
{
    match mark {
        Mark::LB | Mark::GR => n,
        Mark::ND => 12,
        Mark::HX => 32,
        Mark::EN => 0,
    }
}

// Whether the end was read.
pub fn has_ended(stage: Stage) -> bool
    ensures { result ≡ has_ended (stage_held stage) }
{
    stage == Stage::AtEnd
}
