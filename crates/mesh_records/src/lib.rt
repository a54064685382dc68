// The records of a mesh's elements, one after the other into the report space, and how many there are of each kind.
// An inner crate: only the inspector calls it, and it meets what each `requires` asks.
// Every answer is an equation with `Record` and `Mesh` of the definitions at the limits `base`.
#![tactic(auto)]

ghost use Rattle.std.specs.Prelude.{◌≡◌, ◌*◌, ◌/◌, ◌%◌, ◌≤◌, length};
ghost use Rattle.definitions.specs.Limits.{base, record_words};
ghost use Rattle.definitions.specs.Mesh.{records, report as report_of, counts_of};
ghost use Rattle.inspection_counts.specs.Meaning.{counts_held};

use inspection_counts::Counts;

// The records of all elements into the report space, element by element, and how many there are of each kind.
pub fn write_records(coordinates: &[i32], indices: &[u32], depth: u32, report: &mut [i64]) -> Counts
    requires indices_len { (length indices.now % 8 ≡ 0) × (length indices.now / 8 ≤ base.elements) × (length report.old ≡ record_words * (length indices.now / 8)) }
    requires depth_le_depth { depth ≤ base.depth }
    ensures result_value { counts_held result ≡ counts_of (records base coordinates.now indices.now depth) }
    ensures report_after { report.new ≡ report_of base coordinates.now indices.now depth }
{
    let (elements, _) = indices.as_chunks::<8>();
    let mut counts = Counts::default();
    for (e, ix) in elements.iter().enumerate() {
        let words = mesh_element_records::element(coordinates, ix, depth);
        counts = mesh_report::enter(words, e, counts, report);
    }
    counts
}
