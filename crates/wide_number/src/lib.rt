// A signed number of two words: whole numbers modulo 2^128, as two's complement. A public crate: no service asks anything of its numbers,
// and each answer is an equation with the value that document 02, No. 8, gives two words (`definitions`, TwoWords). Where the exact
// whole number lies within −2^127..2^127 − 1, the answer is that number, for one operation and for a run of them of which only the
// last has to fit: `wrapping_theory`, Wrapping and Runs. An operation is that of `i128` on the value.
#![tactic(auto)]

ghost use Rattle.std.specs.Prelude.{◌≡◌, pos, ◌+ℤ◌, ◌-ℤ◌, ◌*ℤ◌, int_le};
ghost use Rattle.std.specs.Int.{w64};
ghost use Rattle.std.proofs.Common.{to_z};
ghost use Rattle.wide_number.specs.Meaning.{value_of, modulo, order_of, single_of};

use std::cmp::Ordering;

// Two to the power of a word's bits: what a one in the high word counts.
const WORD_BASE: u128 = 18446744073709551616;

// Two words, the low one first, as a record and a caller in C have them. Their order is that of their value, and not the derived one of the words.
#[derive(Clone, Copy, Debug, PartialEq, Eq)]
pub struct Wide {
    pub low: u64,
    pub high: u64,
}

// The two words of a number of 128 bits.
impl From<i128> for Wide {
    ghost from_gives = { λ x r. value_of r ≡ x };

    fn from(x: i128) -> Wide {
        let bits = x.cast_unsigned();
        Wide {
            low: (bits % WORD_BASE) as u64,
            high: (bits / WORD_BASE) as u64,
        }
    }
}

// The number of 128 bits that two words stand for.
impl From<Wide> for i128 {
    ghost from_gives = { λ x r. r ≡ value_of x };

    fn from(x: Wide) -> i128 {
        let bits = u128::from(x.high) * WORD_BASE + u128::from(x.low);
        bits.cast_signed()
    }
}

// A number of one word in two: the sign fills the high word.
impl From<i64> for Wide {
    ghost from_gives = { λ x r. value_of r ≡ x };

    fn from(x: i64) -> Wide {
        Wide::from(i128::from(x))
    }
}

// The signed number that a word stands for.
pub fn signed(word: u64) -> i64
    ensures { result ≡ to_z w64 word }
{
    word.cast_signed()
}

#[tactic(auto, using(crate::proofs::Bits::represented))]
impl Wide {
    // The number in one word, or that it is too long for one.
    pub fn to_i64(self) -> Option<i64>
        ensures { result ≡ single_of (value_of self) }
    {
        i64::try_from(i128::from(self)).ok()
    }

    // The sum, modulo 2^128.
    pub fn add(self, y: Wide) -> Wide
        ensures { value_of result ≡ modulo (value_of self +ℤ value_of y) }
    {
        Wide::from(i128::from(self).wrapping_add(i128::from(y)))
    }

    // The difference, modulo 2^128.
    pub fn sub(self, y: Wide) -> Wide
        ensures { value_of result ≡ modulo (value_of self -ℤ value_of y) }
    {
        Wide::from(i128::from(self).wrapping_sub(i128::from(y)))
    }

    // The product, modulo 2^128.
    pub fn mul(self, y: Wide) -> Wide
        ensures { value_of result ≡ modulo (value_of self *ℤ value_of y) }
    {
        Wide::from(i128::from(self).wrapping_mul(i128::from(y)))
    }

    // The whole product of two numbers of one word.
    pub fn product(x: i64, y: i64) -> Wide
        ensures { value_of result ≡ x *ℤ y }
    {
        Wide::from(i128::from(x) * i128::from(y))
    }

    // Two times the number, modulo 2^128.
    pub fn twice(self) -> Wide
        ensures { value_of result ≡ modulo (pos 2 *ℤ value_of self) }
    {
        Wide::from(2i128.wrapping_mul(i128::from(self)))
    }

    // Four times the number, modulo 2^128.
    pub fn four_times(self) -> Wide
        ensures { value_of result ≡ modulo (pos 4 *ℤ value_of self) }
    {
        Wide::from(4i128.wrapping_mul(i128::from(self)))
    }

    // Whether the number is less than another, equal or greater.
    pub fn compare(self, y: Wide) -> Ordering
        ensures { result ≡ order_of (value_of self) (value_of y) }
    {
        i128::from(self).cmp(&i128::from(y))
    }

    // The same against 0.
    pub fn sign(self) -> Ordering
        ensures { result ≡ order_of (value_of self) (pos 0) }
    {
        i128::from(self).cmp(&0)
    }

    // Whether the number is less than another, or equal.
    pub fn at_most(self, y: Wide) -> bool
        ensures { result ≡ int_le (value_of self) (value_of y) }
    {
        i128::from(self) <= i128::from(y)
    }

    // The same against 0.
    pub fn at_most_zero(self) -> bool
        ensures { result ≡ int_le (value_of self) (pos 0) }
    {
        i128::from(self) <= 0
    }
}
