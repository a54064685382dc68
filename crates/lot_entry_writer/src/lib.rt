// An entry of a lot file, written to lent space. An inner crate: its callers see that there is room. Every text is one of `Format` of the
// crate `lot_format`.
#![tactic(auto)]

ghost use Rattle.std.specs.Prelude.{◌≡◌, ◌++◌, ℕ, map, ◌*◌, ◌<◌, length};
ghost use Rattle.lot_format.specs.Numbers.{bits, number_bytes, unsigned_bytes};
ghost use Rattle.lot_format.specs.Format.{letters, entry_bytes};
ghost use Rattle.lot_marks.specs.Meaning.{mark_held};
ghost use Rattle.bytes_output.specs.Behind.{Room, Laid};

use bytes_output::Output;
use lot_marks::Mark;

// A number of four bytes in an entry, by its bits; those of a signed one are its two's complement.
pub trait Word: Copy {
    ghost bits: { Self → ℕ };

    fn bits(self) -> u32
        ensures { result ≡ bits self };
}

impl Word for u32 {
    ghost bits = { λ x. x };

    fn bits(self) -> u32 {
        self
    }
}

impl Word for i32 {
    ghost bits = { bits };

    fn bits(self) -> u32 {
        self.cast_unsigned()
    }
}

// The two letters of a mark as a number, low byte first.
fn letters(mark: Mark) -> u16
    ensures { number_bytes 2 result ≡ letters (mark_held mark) }
{
    match mark {
        Mark::LB => lot_marks::LETTERS_LB as u16,
        Mark::ND => lot_marks::LETTERS_ND as u16,
        Mark::HX => lot_marks::LETTERS_HX as u16,
        Mark::GR => lot_marks::LETTERS_GR as u16,
        Mark::EN => lot_marks::LETTERS_EN as u16,
    }
}

// The head of an entry: its letters and the length of its body.
fn put_head(out: &mut Output, mark: Mark, len: u16)
    requires { Room out.old (letters (mark_held mark) ++ number_bytes 2 len) }
    ensures { Laid out.old (letters (mark_held mark) ++ number_bytes 2 len) out.new }
{
    out.short(letters(mark));
    out.short(len);
}

// An entry whose body is bytes: a label, a name, or none.
pub fn put_entry(out: &mut Output, mark: Mark, body: &[u8])
    requires { (length body.now < 65536) × Room out.old (entry_bytes (mark_held mark) body.now) }
    ensures { Laid out.old (entry_bytes (mark_held mark) body.now) out.new }
{
    put_head(out, mark, body.len() as u16);
    out.bytes(body);
}

// The four bytes of each number.
fn put_words<W: Word>(out: &mut Output, words: &[W])
    requires { Room out.old (unsigned_bytes (map W.Word.bits words.now)) }
    ensures { Laid out.old (unsigned_bytes (map W.Word.bits words.now)) out.new }
{
    for x in words {
        out.word(x.bits());
    }
}

// An entry whose body is numbers: those of a node or an element.
pub fn put_numbers<W: Word>(out: &mut Output, mark: Mark, numbers: &[W])
    requires { (4 * length numbers.now < 65536) × Room out.old (entry_bytes (mark_held mark) (unsigned_bytes (map W.Word.bits numbers.now))) }
    ensures { Laid out.old (entry_bytes (mark_held mark) (unsigned_bytes (map W.Word.bits numbers.now))) out.new }
{
    put_head(out, mark, (4 * numbers.len()) as u16);
    put_words(out, numbers);
}
