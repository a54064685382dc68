// The auditor's records of a mesh's elements, one after the other into the report space, and how many there are of each kind. An inner crate: `auditor`
// meets what each `requires` asks. It shares with the first inspector which elements are refused, the report space and the counts.
#![tactic(auto)]

ghost use Rattle.std.specs.Prelude.{◌≡◌, ◌*◌, ◌/◌, ◌%◌, ◌≤◌, length};
ghost use Rattle.definitions.specs.Limits.{base, record_words};
ghost use Rattle.definitions.specs.Mesh.{element_record, records, report as report_of, counts_of};
ghost use Rattle.inspection_counts.specs.Meaning.{counts_held};

use inspection_counts::Counts;
use limits::RECORD_WORDS;

// The record of the element whose eight indices are lent. Like the loop below, it is the auditor's own and not shared with the first inspector's
// `mesh_element_records` and `mesh_records`: 02, No. 6, asks for a second inspector, and docs/TRUST.md lists the records of a mesh as its own.
fn element(coordinates: &[i32], ix: &[u32; 8], depth: u32) -> [i64; RECORD_WORDS]
    requires { depth ≤ base.depth }
    ensures { result ≡ element_record base coordinates.now ix.now depth }
{
    let mut p = [0; 24];
    match mesh_elements::points(coordinates, ix, &mut p) {
        Ok(()) => audit_points::record(&p, depth),
        Err(fault) => mesh_elements::fault_words(Some(fault)),
    }
}

// The records of all elements into the report space, element by element, and how many there are of each kind.
pub fn write_records(coordinates: &[i32], indices: &[u32], depth: u32, report: &mut [i64]) -> Counts
    requires indices_len { (length indices.now % 8 ≡ 0) × (length indices.now / 8 ≤ base.elements) × (length report.old ≡ record_words * (length indices.now / 8)) }
    requires depth_le_depth { depth ≤ base.depth }
    ensures result_value { counts_held result ≡ counts_of (records base coordinates.now indices.now depth) }
    ensures report_after { report.new ≡ report_of base coordinates.now indices.now depth }
{
    let (elements, _) = indices.as_chunks::<8>();
    let mut counts = Counts::default();
    for (e, ix) in elements.iter().enumerate() {
        let words = element(coordinates, ix, depth);
        counts = mesh_report::enter(words, e, counts, report);
    }
    counts
}
