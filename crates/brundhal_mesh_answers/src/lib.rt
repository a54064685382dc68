// The answers of inspections and stamps as plain numbers for callers in C and Rust, and what their plain numbers stand for. An
// inner crate: `brundhal` exports the services. Every contract is an equation with `specs/Meaning.antt`: the fields of an answer are the numbers of the definition's.
#![tactic(auto)]

ghost use Rattle.std.specs.Prelude.{◌≡◌};
ghost use Rattle.inspection_counts.specs.Meaning.{stamp_held};
ghost use Rattle.inspection_answers.specs.Meaning.{inspection_held};
ghost use Rattle.brundhal_mesh_answers.specs.Meaning.{inspection_numbers, inspection_fields, stamp_number, stamp_told, stamp_for};

use inspection_answers::Refusal;
use inspection_counts::{Counts, Stamp};

// The number that answers an inspection, 0 or 1 to 4, and the four counts.
#[repr(C)]
#[derive(Clone, Copy, Default)]
pub struct BrundhalInspection {
    pub number: u32,
    pub valid: u32,
    pub invalid: u32,
    pub undecided: u32,
    pub refused: u32,
}

// An inspection. A refused mesh has its number, and counts 0.
impl From<Result<Counts, Refusal>> for BrundhalInspection {
    ghost from_gives = { λ answer r. inspection_fields r ≡ inspection_numbers (inspection_held answer) };

    fn from(answer: Result<Counts, Refusal>) -> BrundhalInspection {
        match answer {
            Ok(n) => BrundhalInspection {
                number: 0,
                valid: n.valid,
                invalid: n.invalid,
                undecided: n.undecided,
                refused: n.refused,
            },
            Err(refusal) => BrundhalInspection {
                number: u32::from(refusal),
                ..BrundhalInspection::default()
            },
        }
    }
}

// A stamp as a number, which only C has: `From` would have to stand beside `Stamp`.
fn stamp_number(stamp: Stamp) -> u32
    ensures { result ≡ stamp_number (stamp_held stamp) }
{
    match stamp {
        Stamp::Sound => 0,
        Stamp::Faulty => 1,
        Stamp::Open => 2,
    }
}

// The stamp of an inspection's answer, 0 sound, 1 faulty or 2 open: `inspection_counts::stamp_of`. An answer with another number than 0 is that of a
// refused mesh, which has no stamp: 3.
pub fn stamp_told(answer: BrundhalInspection) -> u32
    ensures { result ≡ stamp_told (stamp_for answer) }
{
    if answer.number != 0 {
        return 3;
    }
    stamp_number(inspection_counts::stamp_of(Counts {
        valid: answer.valid,
        invalid: answer.invalid,
        undecided: answer.undecided,
        refused: answer.refused,
    }))
}
