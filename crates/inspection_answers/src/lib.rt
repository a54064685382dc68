// The answers of an inspection and of the bounds service: counts or both bounds, or why they are refused. Public: the inspector and the auditor answer with
// `Result<Counts, Refusal>` and `Result<Bounds, BoundsRefusal>`, `brundhal_mesh_answers` and `brundhal_bounds_answers` turn them into plain numbers.
// specs/Meaning.antt says what each case stands for.
#![tactic(auto)]

ghost use Rattle.std.specs.Prelude.{◌≡◌};
ghost use Rattle.definitions.specs.Mesh.{mesh_refusal_number};
ghost use Rattle.inspection_answers.specs.Meaning.{refusal_held, bounds_refusal_number};

use wide_number::Wide;

// Why a mesh is refused.
#[derive(Clone, Copy, Debug, PartialEq, Eq)]
pub enum Refusal {
    DepthTooGreat,
    BadCoordinates,
    BadIndices,
    BadSpace,
}

// The number of a refusal, 1 to 4.
impl From<Refusal> for u32 {
    ghost from_gives = { λ r n. n ≡ mesh_refusal_number (refusal_held r) };

    fn from(refusal: Refusal) -> u32 {
        match refusal {
            Refusal::DepthTooGreat => 1,
            Refusal::BadCoordinates => 2,
            Refusal::BadIndices => 3,
            Refusal::BadSpace => 4,
        }
    }
}

// The low and the high bound of eight points.
#[derive(Clone, Copy, Debug, PartialEq, Eq)]
pub struct Bounds {
    pub low: Wide,
    pub high: Wide,
}

// Why the bounds service refuses points.
#[derive(Clone, Copy, Debug, PartialEq, Eq)]
pub enum BoundsRefusal {
    TooDeep,
    OutOfRange,
}

// The number of a refusal of the bounds service, 1 or 6.
impl From<BoundsRefusal> for u32 {
    ghost from_gives = { λ r n. n ≡ bounds_refusal_number r };

    fn from(refusal: BoundsRefusal) -> u32 {
        match refusal {
            BoundsRefusal::TooDeep => 1,
            BoundsRefusal::OutOfRange => 6,
        }
    }
}
