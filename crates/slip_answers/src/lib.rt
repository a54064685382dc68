// The slip by the answer of the reader, whose lent space is handed in, written to lent space. An inner crate: its callers see that there is
// room, and that the words which the answer counts are there.
#![tactic(auto)]

ghost use Rattle.std.specs.Prelude.{◌≡◌, ◌*◌, length};
ghost use Rattle.definitions.specs.Limits.{record_words};
ghost use Rattle.slip_format.specs.Slip.{slip_limits};
ghost use Rattle.lot_runs.specs.Meaning.{space_held};
ghost use Rattle.bytes_output.specs.Behind.{Room, Laid};
ghost use Rattle.lot_reader.specs.Meaning.{label_told, numbers_told};
ghost use Rattle.slip_meshes.specs.Counted.{lent, Counted};
ghost use Rattle.slip_answers.specs.Answered.{answered_slip};

use bytes_output::Output;
use limits::SLIP_ELEMENTS;
use lot_entry_reader::Unreadable;
use lot_reader::Contents;
use lot_runs::Space;

// The slip by the answer of the reading, and by how many elements it counts.
pub fn answered_slip(
    out: &mut Output,
    answer: Result<Contents, Unreadable>,
    space: &Space,
    report: &mut [i64],
)
    requires counted { Counted (lent (label_told answer) (space_held space.now)) (numbers_told answer) × (length report.old ≡ record_words * slip_limits.elements) }
    requires answer_in_bounds { Room out.old (answered_slip (lent (label_told answer) (space_held space.now)) (numbers_told answer)) }
    ensures { Laid out.old (answered_slip (lent (label_told answer.entry) (space_held space.now)) (numbers_told answer.entry)) out.new }
{
    match answer {
        Err(refusal) => slip_lines::refused_line(out, u32::from(refusal)),
        Ok(contents) => {
            if SLIP_ELEMENTS < contents.elements as usize {
                return slip_lines::refused_line(out, u32::from(Unreadable::TooManyElements));
            }
            slip_meshes::read_slip(out, contents, space, report)
        }
    }
}
