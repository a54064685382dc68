// The lines of a lot's elements, and the slip of a lot that was inspected, written to lent space. An inner crate: its callers see that there
// is room. Every text is the one that `Slip` of the crate `slip_format` defines.
#![tactic(auto)]

ghost use Rattle.std.specs.Prelude.{◌/◌, ◌≤◌, length};
ghost use Rattle.definitions.specs.Limits.{record_words};
ghost use Rattle.slip_format.specs.Slip.{slip_limits, element_lines, inspected_slip};
ghost use Rattle.lot_runs.specs.Meaning.{groups_held};
ghost use Rattle.inspection_counts.specs.Meaning.{counts_held};
ghost use Rattle.bytes_output.specs.Behind.{Room, Laid};

use bytes_output::Output;
use inspection_counts::Counts;
use limits::RECORD_WORDS;
use lot_runs::Groups;

// The lines of all elements, with the words of the record that the report has of each.
fn element_lines<'a, 'l>(out: &mut Output, label: &'a [u8], groups: Groups<'a, 'l>, report: &[i64])
    requires record_words_len_bound { length report.now / record_words ≤ slip_limits.elements }
    requires report_in_bounds { Room out.old (element_lines label.now (groups_held groups) record_words 0 (length report.now / record_words) report.now) }
    ensures { Laid out.old (element_lines label.now (groups_held groups.entry) record_words 0 (length report.now / record_words) report.now) out.new }
{
    let (records, _) = report.as_chunks::<RECORD_WORDS>();
    for (k, words) in records.iter().enumerate() {
        let element = k as u32;
        let name = lot_group_names::name_of(label, groups, element);
        slip_lines::element_line(out, element, name, words);
    }
}

// The slip of a lot whose mesh was inspected, with its report and its counts.
pub fn inspected_slip<'a, 'l>(
    out: &mut Output,
    label: &'a [u8],
    groups: Groups<'a, 'l>,
    report: &[i64],
    counts: Counts,
)
    requires record_words_len_bound { length report.now / record_words ≤ slip_limits.elements }
    requires counts_in_bounds { Room out.old (inspected_slip label.now (groups_held groups) record_words (length report.now / record_words) report.now (counts_held counts)) }
    ensures { Laid out.old (inspected_slip label.now (groups_held groups.entry) record_words (length report.now / record_words) report.now (counts_held counts)) out.new }
{
    slip_lines::lot_line(out, label);
    element_lines(out, label, groups, report);
    slip_summary::tally_line(out, counts);
    slip_summary::stamp_line(out, inspection_counts::stamp_of(counts));
}
