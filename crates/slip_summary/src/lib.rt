// The last two lines of a slip, the four counts and the stamp, written to lent space. An inner crate: its callers see that there is room.
// Every text is the one that `Slip` of the crate `slip_format` defines.
#![tactic(auto)]

ghost use Rattle.std.specs.Prelude.{[], ◌∷◌};
ghost use Rattle.slip_format.specs.Slip.{line, word_stamp, stamp_word, tally_line};
ghost use Rattle.inspection_counts.specs.Meaning.{counts_held, stamp_held};
ghost use Rattle.bytes_output.specs.Behind.{Room, Laid};

use bytes_output::Output;
use inspection_counts::{Counts, Stamp};

// The line of the four counts.
pub fn tally_line(out: &mut Output, n: Counts)
    requires { Room out.old (tally_line (counts_held n)) }
    ensures { Laid out.old (tally_line (counts_held n)) out.new }
{
    out.bytes(b"tally");
    slip_lines::number(out, u64::from(n.valid));
    slip_lines::number(out, u64::from(n.invalid));
    slip_lines::number(out, u64::from(n.undecided));
    slip_lines::number(out, u64::from(n.refused));
    out.byte(b'\n');
}

// The word of a stamp, behind a space.
fn stamp_word(out: &mut Output, stamp: Stamp)
    requires { Room out.old (32 ∷ stamp_word (stamp_held stamp)) }
    ensures { Laid out.old (32 ∷ stamp_word (stamp_held stamp)) out.new }
{
    match stamp {
        Stamp::Sound => slip_lines::word(out, b"sound"),
        Stamp::Faulty => slip_lines::word(out, b"faulty"),
        Stamp::Open => slip_lines::word(out, b"open"),
    }
}

// The line of a stamp.
pub fn stamp_line(out: &mut Output, stamp: Stamp)
    requires { Room out.old (line word_stamp (stamp_word (stamp_held stamp) ∷ [])) }
    ensures { Laid out.old (line word_stamp (stamp_word (stamp_held stamp) ∷ [])) out.new }
{
    out.bytes(b"stamp");
    stamp_word(out, stamp);
    out.byte(b'\n');
}
