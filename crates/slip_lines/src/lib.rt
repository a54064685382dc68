// The lines of a slip, written to lent space. An inner crate: its callers see that there is room. Every text is the one that `Decimal` and
// `Slip` of the crate `slip_format` define.
#![tactic(auto)]

ghost use Rattle.std.specs.Prelude.{[], ◌∷◌, map, suc};
ghost use Rattle.slip_format.specs.Decimal.{decimal, signed_decimal};
ghost use Rattle.slip_format.specs.Slip.{line, word_lot, refused_line};
ghost use Rattle.bytes_output.specs.Behind.{Room, Laid};
ghost use Rattle.slip_lines.specs.Spaced.{spaced};

use bytes_output::Output;

// A word behind a space.
pub fn word(out: &mut Output, xs: &[u8])
    requires { Room out.old (32 ∷ xs.now) }
    ensures { Laid out.old (32 ∷ xs.now) out.new }
{
    out.byte(b' ');
    out.bytes(xs);
}

// A number behind a space.
pub fn number(out: &mut Output, x: u64)
    requires { Room out.old (32 ∷ decimal x) }
    ensures { Laid out.old (32 ∷ decimal x) out.new }
{
    out.byte(b' ');
    slip_numbers::decimal(out, x);
}

// A signed number behind a space.
fn signed_number(out: &mut Output, w: i64)
    requires { Room out.old (32 ∷ signed_decimal w) }
    ensures { Laid out.old (32 ∷ signed_decimal w) out.new }
{
    out.byte(b' ');
    slip_numbers::signed(out, w);
}

// The words of a record, each behind a space.
fn words(out: &mut Output, ws: &[i64])
    requires { Room out.old (spaced (map signed_decimal ws.now)) }
    ensures { Laid out.old (spaced (map signed_decimal ws.now)) out.new }
{
    for w in ws {
        signed_number(out, *w);
    }
}

// The line of an element, counted from 0, that bears a name, with the words of its record.
pub fn element_line(out: &mut Output, element: u32, name: &[u8], ws: &[i64])
    requires { Room out.old (line (decimal (suc element)) (name.now ∷ map signed_decimal ws.now)) }
    ensures { Laid out.old (line (decimal (suc element)) (name.now ∷ map signed_decimal ws.now)) out.new }
{
    slip_numbers::decimal(out, u64::from(element) + 1);
    word(out, name);
    words(out, ws);
    out.byte(b'\n');
}

// The line of a lot's label.
pub fn lot_line(out: &mut Output, label: &[u8])
    requires { Room out.old (line word_lot (label.now ∷ [])) }
    ensures { Laid out.old (line word_lot (label.now ∷ [])) out.new }
{
    out.bytes(b"lot");
    word(out, label);
    out.byte(b'\n');
}

// The line of a lot that is refused: here a refusal is the number that is printed.
pub fn refused_line(out: &mut Output, n: u32)
    requires { Room out.old (refused_line n) }
    ensures { Laid out.old (refused_line n) out.new }
{
    out.bytes(b"refused");
    number(out, u64::from(n));
    out.byte(b'\n');
}
