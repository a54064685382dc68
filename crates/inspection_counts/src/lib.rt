// The counts of an inspection and the stamp that they give. Public: nothing has to be checked first, and any counts are answered.
//   Counts, Stamp  how many records there are of each kind, and the three stamps
//   stamp_of       the stamp of an accepted mesh, by its counts
// The inspections that answer with counts are in the crates `inspector` and `auditor`.
#![tactic(auto)]

ghost use Rattle.std.specs.Prelude.{◌≡◌};
ghost use Rattle.definitions.specs.Mesh.{stamp_of};
ghost use Rattle.inspection_counts.specs.Meaning.{counts_held, stamp_held};

// The number of records of each kind.
#[derive(Clone, Copy, Debug, Default, PartialEq, Eq)]
pub struct Counts {
    pub valid: u32,
    pub invalid: u32,
    pub undecided: u32,
    pub refused: u32,
}

// The stamp of an accepted mesh.
#[derive(Clone, Copy, Debug, PartialEq, Eq)]
pub enum Stamp {
    Sound,
    Faulty,
    Open,
}

// The stamp of an accepted mesh, by its counts. An answer that refuses a mesh holds no counts, so a refused mesh has no stamp.
pub fn stamp_of(n: Counts) -> Stamp
    ensures { stamp_held result ≡ stamp_of (counts_held n) }
{
    if (0 < n.valid) & (n.invalid == 0) & (n.undecided == 0) & (n.refused == 0) {
        return Stamp::Sound;
    }
    if (0 < n.invalid) | (0 < n.refused) {
        return Stamp::Faulty;
    }
    Stamp::Open
}
