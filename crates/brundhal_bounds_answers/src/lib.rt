// The answers of the bounds service as plain numbers for callers in C and Rust. An inner crate: `brundhal` exports the services.
// Every contract is an equation with `specs/Meaning.antt`: the fields of an answer are the numbers of the definition's.
#![tactic(auto)]

ghost use Rattle.std.specs.Prelude.{◌≡◌, [], ◌∷◌};
ghost use Rattle.inspection_answers.specs.Meaning.{bounds_held};
ghost use Rattle.brundhal_bounds_answers.specs.Meaning.{bounds_numbers, bounds_fields};

use brundhal_number_answers::BrundhalNumber;
use inspection_answers::{Bounds, BoundsRefusal};

// The number that answers the bounds service, 0, 1 or 6, and both bounds.
#[repr(C)]
#[derive(Clone, Copy, Debug, PartialEq, Eq)]
pub struct BrundhalBounds {
    pub number: u32,
    pub low: BrundhalNumber,
    pub high: BrundhalNumber,
}

// A refusal, by number alone: both bounds are 0.
fn refused(number: u32) -> BrundhalBounds
    ensures { bounds_fields result ≡ number ∷ 0 ∷ 0 ∷ 0 ∷ 0 ∷ [] }
{
    BrundhalBounds {
        number,
        low: BrundhalNumber { low: 0, high: 0 },
        high: BrundhalNumber { low: 0, high: 0 },
    }
}

// Both bounds.
impl From<Result<Bounds, BoundsRefusal>> for BrundhalBounds {
    ghost from_gives = { λ answer r. bounds_fields r ≡ bounds_numbers (bounds_held answer) };

    fn from(answer: Result<Bounds, BoundsRefusal>) -> BrundhalBounds {
        match answer {
            Ok(b) => BrundhalBounds {
                number: 0,
                low: BrundhalNumber::from(b.low),
                high: BrundhalNumber::from(b.high),
            },
            Err(refusal) => refused(u32::from(refusal)),
        }
    }
}
