// The numbers that stand in our files, low byte first. An inner crate: its callers meet what each `requires` asks.
// Every answer is an equation with `Numbers` of the crate `lot_format`.
#![tactic(auto)]

ghost use Rattle.std.specs.Prelude.{◌≡◌, ◌+◌, ◌≤◌, ℕ, length, take, drop};
ghost use Rattle.lot_format.specs.Numbers.{number, signed};

// The number of two bytes, low byte first.
pub fn short_at(file: &[u8], at: usize) -> u16
    requires { at + 2 ≤ length file.now }
    ensures { result ≡ number (take 2 (drop at file.now)) }
{
    u16::from_le_bytes([file[at], file[at + 1]])
}

// A number of four bytes, signed or not.
pub trait Word: Copy {
    // the number that an unsigned number's bits stand for
    ghost held: { ℕ → Self };

    // The number of four bytes, low byte first.
    fn word_at(file: &[u8], at: usize) -> Self
        requires { at + 4 ≤ length file.now }
        ensures { result ≡ held (number (take 4 (drop at file.now))) };
}

impl Word for u32 {
    ghost held = { λ x. x };

    fn word_at(file: &[u8], at: usize) -> u32 {
        u32::from_le_bytes([file[at], file[at + 1], file[at + 2], file[at + 3]])
    }
}

// A signed number is the one whose two's complement the bits are.
impl Word for i32 {
    ghost held = { λ x. signed x };

    fn word_at(file: &[u8], at: usize) -> i32 {
        u32::word_at(file, at).cast_signed()
    }
}
