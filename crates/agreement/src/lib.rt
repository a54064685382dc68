// The first inspector and the auditor beside each other. Public: nothing has to be checked first. Each function asks both, and its contract is the theorem that for every
// mesh, report space and depth, and for all eight points, the two give the same.
//   inspect_twice  both inspections of a mesh, each into report space of its own
//   bounds_twice   both bounds of eight points, from each
#![tactic(auto)]

ghost use Rattle.std.specs.Prelude.{◌≡◌, length};
ghost use Rattle.definitions.specs.Limits.{base};
ghost use Rattle.definitions.specs.Mesh.{inspection, report_after, bounds_of};
ghost use Rattle.inspection_answers.specs.Meaning.{inspection_held, bounds_held};
ghost use Rattle.inspection_answers.specs.Back.{bounds_back};

use inspection_answers::{Bounds, BoundsRefusal, Refusal};
use inspection_counts::Counts;

// The answers of both inspectors.
#[derive(Clone, Copy, Debug, PartialEq, Eq)]
pub struct Both<T> {
    pub first: T,
    pub second: T,
}

// Inspects a mesh twice. Where both report spaces are alike before, they are alike after, and the answers are the same.
pub fn inspect_twice(
    coordinates: &[i32],
    indices: &[u32],
    depth: u32,
    report: &mut [i64],
    audited: &mut [i64],
) -> Both<Result<Counts, Refusal>>
    ensures first_value { report.old ≡ audited.old → (result.first ≡ result.second) × (report.new ≡ audited.new) }
    ensures first_value_2 { (inspection_held result.first ≡ inspection base coordinates.now indices.now (length report.old) depth) × (report.new ≡ report_after base coordinates.now indices.now report.old depth) }
    ensures second_value { (inspection_held result.second ≡ inspection base coordinates.now indices.now (length audited.old) depth) × (audited.new ≡ report_after base coordinates.now indices.now audited.old depth) }
{
    let first = inspector::inspect(coordinates, indices, depth, report);
    let second = auditor::inspect(coordinates, indices, depth, audited);
    Both { first, second }
}

// The same bounds again, taken apart and put together: so the contract can say that what they stand for determines them, word by word.
fn bounds_again(b: Result<Bounds, BoundsRefusal>) -> Result<Bounds, BoundsRefusal>
    ensures { (result ≡ bounds_back (bounds_held b)) × (result ≡ b) }
{
    let Bounds { low, high } = b?;
    Ok(Bounds { low, high })
}

// The low and the high bound of eight points, twice: the same, in every word.
pub fn bounds_twice(p: [i32; 24], depth: u32) -> Both<Result<Bounds, BoundsRefusal>>
    ensures { (result.first ≡ result.second) × (bounds_held result.first ≡ bounds_of base p depth) }
{
    let first = inspector::bounds_of(p, depth);
    let second = auditor::bounds_of(p, depth);
    Both {
        first: bounds_again(first),
        second: bounds_again(second),
    }
}
