// The slip of a lot whose mesh is inspected for it, written to lent space. An inner crate: its callers see that there is room, and that the
// words which an answer of the reader counts are there. Every text is the one that `Slip` of the crate `slip_format` defines.
#![tactic(auto)]

ghost use Rattle.std.specs.Prelude.{◌≡◌, ◌*◌, ◌/◌, ◌≤◌, length};
ghost use Rattle.definitions.specs.Limits.{record_words, base};
ghost use Rattle.slip_format.specs.Slip.{slip_limits, mesh_slip};
ghost use Rattle.lot_format.specs.Runs.{lot_from};
ghost use Rattle.lot_runs.specs.Meaning.{lot_held, space_held};
ghost use Rattle.bytes_output.specs.Behind.{Room, Laid};
ghost use Rattle.lot_reader.specs.Promise.{as_read};
ghost use Rattle.slip_meshes.specs.Counted.{lent, told, Counted};

use bytes_output::Output;
use limits::{RECORD_WORDS, SLIP_DEPTH};
use lot_reader::Contents;
use lot_runs::{Groups, Lot, Space};

// The slip of a lot whose elements are few enough: its mesh is inspected at the depth of a slip, with lent space for the report.
fn mesh_slip(out: &mut Output, lot: Lot, report: &mut [i64])
    requires elements_len_bound { (length lot.elements.now / 8 ≤ slip_limits.elements) × (length report.old ≡ record_words * (length lot.elements.now / 8)) }
    requires offsets_in_bounds { Room out.old (mesh_slip base slip_limits.depth (lot_from (lot_held lot))) }
    ensures { Laid out.old (mesh_slip base slip_limits.depth (lot_from (lot_held lot.entry))) out.new }
{
    match inspector::inspect(lot.nodes, lot.elements, SLIP_DEPTH, report) {
        Ok(counts) => slip_parts::inspected_slip(out, lot.label, lot.groups, report, counts),
        Err(refusal) => slip_lines::refused_line(out, u32::from(refusal)),
    }
}

// A lot that was read into lent space: the words that the answer counts.
fn lot_of<'a>(contents: Contents<'a>, space: &'a Space) -> Lot<'a>
    requires { Counted (lent contents.label.now (space_held space.now)) (told contents) }
    ensures { lot_held result ≡ as_read (lent contents.entry.label.now (space_held space.now)) (told contents.entry) }
{
    let coordinates = 3 * contents.nodes as usize;
    let indices = 8 * contents.elements as usize;
    let groups = contents.groups as usize;
    let bytes = contents.names as usize;
    Lot {
        label: contents.label,
        nodes: &space.nodes[..coordinates],
        elements: &space.elements[..indices],
        groups: Groups {
            names: &space.names[..bytes],
            lengths: &space.lengths[..groups],
            offsets: &space.offsets[..groups],
        },
    }
}

// The slip of a lot that was read into lent space, whose elements are few enough.
pub fn read_slip(out: &mut Output, contents: Contents, space: &Space, report: &mut [i64])
    requires counted { Counted (lent contents.label.now (space_held space.now)) (told contents) × (length report.old ≡ record_words * slip_limits.elements) × (contents.elements ≤ slip_limits.elements) }
    requires answer_in_bounds { Room out.old (mesh_slip base slip_limits.depth (lot_from (as_read (lent contents.label.now (space_held space.now)) (told contents)))) }
    ensures { Laid out.old (mesh_slip base slip_limits.depth (lot_from (as_read (lent contents.entry.label.now (space_held space.now)) (told contents.entry)))) out.new }
{
    let words = RECORD_WORDS * contents.elements as usize;
    mesh_slip(out, lot_of(contents, space), &mut report[..words]);
}
