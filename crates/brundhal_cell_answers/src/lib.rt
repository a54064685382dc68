// Cell addresses and their moves as plain numbers for callers in C and Rust. An inner crate: `brundhal` exports the services. Every contract
// is an equation with `specs/Meaning.antt`: the fields of an answer are the numbers of the definition's.
#![tactic(auto)]

ghost use Rattle.std.specs.Prelude.{◌≡◌};
ghost use Rattle.cell_address.specs.Meaning.{address_of, move_of};
ghost use Rattle.brundhal_cell_answers.specs.Meaning.{move_numbers, move_fields, address_held};

use cell_address::Address;

// A level and three grid numbers.
#[repr(C)]
#[derive(Clone, Copy, Debug, PartialEq, Eq)]
pub struct BrundhalAddress {
    pub level: u32,
    pub a: u32,
    pub b: u32,
    pub c: u32,
}

// Whether a move was made, 1 or 0, and the address that it led to, or the same one.
#[repr(C)]
#[derive(Clone, Copy, Debug, PartialEq, Eq)]
pub struct BrundhalMove {
    pub made: u32,
    pub level: u32,
    pub a: u32,
    pub b: u32,
    pub c: u32,
}

// An address that is handed in.
impl From<BrundhalAddress> for Address {
    ghost from_gives = { λ q r. address_of r ≡ address_held q };

    fn from(q: BrundhalAddress) -> Address {
        Address {
            level: q.level,
            a: q.a,
            b: q.b,
            c: q.c,
        }
    }
}

// A move of an address.
impl From<Result<Address, Address>> for BrundhalMove {
    ghost from_gives = { λ answer r. move_fields r ≡ move_numbers (move_of answer) };

    fn from(answer: Result<Address, Address>) -> BrundhalMove {
        let (made, q) = match answer {
            Ok(q) => (1, q),
            Err(q) => (0, q),
        };
        BrundhalMove {
            made,
            level: q.level,
            a: q.a,
            b: q.b,
            c: q.c,
        }
    }
}
