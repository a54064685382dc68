// The answers of writing as plain numbers for callers in C and Rust. An inner crate: `brundhal` exports the services.
// Every contract is an equation with `specs/Meaning.antt`: the fields of an answer are the numbers of the definition's.
#![tactic(auto)]

ghost use Rattle.std.specs.Prelude.{◌≡◌};
ghost use Rattle.lot_writer.specs.Meaning.{written_held};
ghost use Rattle.brundhal_written_answers.specs.Meaning.{written_fields, answer_numbers, ShortAnswer};

use lot_writer::Unwritable;

// The number that answers the writing of a lot file, 0 with the file's length, or the number that refuses it with 0.
#[repr(C)]
#[derive(Clone, Copy, Debug, PartialEq, Eq)]
pub struct BrundhalWritten {
    pub number: u32,
    pub len: u32,
}

// The writing of a lot file, whose length fits: that is asked, and so it is no `From`.
pub fn written(answer: Result<usize, Unwritable>) -> BrundhalWritten
    requires { ShortAnswer answer }
    ensures { written_fields result ≡ answer_numbers (written_held answer) }
{
    match answer {
        Ok(n) => BrundhalWritten {
            number: 0,
            len: n as u32,
        },
        Err(r) => BrundhalWritten {
            number: u32::from(r),
            len: 0,
        },
    }
}
