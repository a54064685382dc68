// Numbers in decimal, written to lent space digit by digit, since there is no heap to format in. An inner crate: its callers see that there is room. Every text is the one that `Decimal` of the
// crate `slip_format` defines.
#![tactic(auto)]

ghost use Rattle.std.specs.Prelude.{◌≡◌, ◌+◌, ◌≤◌, length, nat_abs};
ghost use Rattle.foundation.specs.Laid.{put};
ghost use Rattle.slip_format.specs.Decimal.{decimal, signed_decimal};
ghost use Rattle.bytes_output.specs.Behind.{Room, Laid};

use bytes_output::Output;

// The digits of a number over lent space from a place on, and the place behind them. The place is handed on by value: in an `Output` it would be read and
// written for every digit. A number of one digit, as most in a slip are, is not divided.
fn digits(space: &mut [u8], at: usize, x: u64) -> usize
    requires { at + length (decimal x) ≤ length space.old }
    ensures { (result ≡ at + length (decimal x)) × (space.new ≡ put at (decimal x) space.old) }
{
    if x < 10 {
        space[at] = b'0' + x as u8;
        return at + 1;
    }
    let next = digits(space, at, x / 10);
    space[next] = b'0' + (x % 10) as u8;
    next + 1
}

// A number in decimal.
pub fn decimal(out: &mut Output, x: u64)
    requires { Room out.old (decimal x) }
    ensures { Laid out.old (decimal x) out.new }
{
    out.at = digits(out.space, out.at, x);
}

// How far a number is from zero.
pub fn magnitude(w: i64) -> u64
    ensures { result ≡ nat_abs w }
{
    w.unsigned_abs()
}

// A number in decimal, with a minus before one below zero.
pub fn signed(out: &mut Output, w: i64)
    requires { Room out.old (signed_decimal w) }
    ensures { Laid out.old (signed_decimal w) out.new }
{
    if w < 0 {
        out.byte(b'-');
    }
    decimal(out, magnitude(w));
}
