// Bytes written to lent space one behind the other. An inner crate: its callers see that there is room. Numbers stand low byte first, as
// `Numbers` of the crate `lot_format` has it.
#![tactic(auto)]

ghost use Rattle.std.specs.Prelude.{◌≡◌, [], ◌∷◌, ◌+◌, ◌≤◌, length};
ghost use Rattle.foundation.specs.Laid.{put};
ghost use Rattle.lot_format.specs.Numbers.{number_bytes};
ghost use Rattle.bytes_output.specs.Behind.{Room, Laid};

// A run of bytes over lent space from a place on, byte by byte: for a copy of two runs that might lie over each other the compiler would call
// `memmove`, and who links the library from C would have to bring it.
pub fn put(space: &mut [u8], at: usize, xs: &[u8])
    requires { at + length xs.now ≤ length space.old }
    ensures { space.new ≡ put at xs.now space.old }
{
    for k in 0..xs.len() {
        space[at + k] = xs[k];
    }
}

// Lent space, with the place behind what is written. That there is room is asked of each text: no type can hold it, since it is another text each time.
#[derive(Drop)]
pub struct Output<'a> {
    pub space: &'a mut [u8],
    pub at: usize,
}

impl Output<'_> {
    // One byte.
    pub fn byte(&mut self, b: u8)
        requires { Room self.old (b ∷ []) }
        ensures { Laid self.old (b ∷ []) self.new }
    {
        self.space[self.at] = b;
        self.at += 1;
    }

    // A run of bytes.
    pub fn bytes(&mut self, xs: &[u8])
        requires { Room self.old xs.now }
        ensures { Laid self.old xs.now self.new }
    {
        put(self.space, self.at, xs);
        self.at += xs.len();
    }

    // The two bytes of a number.
    pub fn short(&mut self, n: u16)
        requires { Room self.old (number_bytes 2 n) }
        ensures { Laid self.old (number_bytes 2 n) self.new }
    {
        self.bytes(&n.to_le_bytes());
    }

    // The four bytes of a number.
    pub fn word(&mut self, x: u32)
        requires { Room self.old (number_bytes 4 x) }
        ensures { Laid self.old (number_bytes 4 x) self.new }
    {
        self.bytes(&x.to_le_bytes());
    }
}
