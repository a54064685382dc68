// The auditor: a second inspector, to be believed apart from the first. Nothing has to be checked first: each function takes any arguments and states
// its whole answer, every word of lent space included, by the same equations as `inspector`; `agreement` says of the two that they give the same.
//   inspect   the records of a mesh's elements, into lent report space, with four counts; or why the mesh is refused
//   bounds_of the low and the high bound of eight points at a depth; or why they are refused
// It cuts one direction at a time, with numbers of 128 bits from the differences of coordinates on, and looks at every cell that document 01 counts as opened,
// for the bounds at every cell of the level. Its volumes, coefficients, cut, search, bounds and the loop over a mesh's elements are its own (the crates `audit_*`); docs/TRUST.md has
// the whole list of what it shares with the first.
#![tactic(auto)]

ghost use Rattle.std.specs.Prelude.{◌≡◌, length};
ghost use Rattle.definitions.specs.Limits.{base};
ghost use Rattle.definitions.specs.Mesh.{inspection, report_after, bounds_of};
ghost use Rattle.inspection_answers.specs.Meaning.{inspection_held, bounds_held};

use inspection_answers::{Bounds, BoundsRefusal, Refusal};
use inspection_counts::Counts;
use limits::MAX_DEPTH;
use wide_number::Wide;

// Inspects a mesh: three coordinates a node, eight indices an element, a depth, and report space of nine words an element.
pub fn inspect(
    coordinates: &[i32],
    indices: &[u32],
    depth: u32,
    report: &mut [i64],
) -> Result<Counts, Refusal>
    ensures result_value { inspection_held result ≡ inspection base coordinates.now indices.now (length report.old) depth }
    ensures report_after { report.new ≡ report_after base coordinates.now indices.now report.old depth }
{
    mesh_checks::check(coordinates.len(), indices.len(), report.len(), depth)?;
    Ok(audit_records::write_records(coordinates, indices, depth, report))
}

// The low and the high bound of eight points, x, y, z of each, at a depth.
pub fn bounds_of(p: [i32; 24], depth: u32) -> Result<Bounds, BoundsRefusal>
    ensures { bounds_held result ≡ bounds_of base p depth }
{
    if MAX_DEPTH < depth {
        return Err(BoundsRefusal::TooDeep);
    }
    if let Some(_) = mesh_points::out_of_range(&p) {
        return Err(BoundsRefusal::OutOfRange);
    }
    let r = audit_points::bounds(&p, depth);
    Ok(Bounds {
        low: Wide::from(r.low),
        high: Wide::from(r.high),
    })
}
