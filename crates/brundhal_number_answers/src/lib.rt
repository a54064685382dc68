// Numbers of two words and the answers about them as plain numbers for callers in C and Rust: the services of `wide_number`. An inner crate: `brundhal`
// exports them. Every contract is an equation with `specs/Meaning.antt`: the fields of an answer are the numbers of the definition's.
#![tactic(auto, using(crate::proofs::Parts::wrapped_words))]

ghost use Rattle.std.specs.Prelude.{◌≡◌, pos, ◌+ℤ◌, ◌-ℤ◌, ◌*ℤ◌};
ghost use Rattle.std.specs.Int.Signed.{le_z};
ghost use Rattle.wide_number.specs.Meaning.{value_of, single_of, order_of};
ghost use Rattle.brundhal_number_answers.specs.Meaning.{number_words, number_fields, single_numbers, single_fields, order_number, answer_number, number_held};

use std::cmp::Ordering;
use wide_number::Wide;

// The low word, and then the high one.
#[repr(C)]
#[derive(Clone, Copy, Debug, PartialEq, Eq)]
pub struct BrundhalNumber {
    pub low: u64,
    pub high: u64,
}

// Whether one word holds a number, 1 or 0, and the number, or 0.
#[repr(C)]
#[derive(Clone, Copy, Debug, PartialEq, Eq)]
pub struct BrundhalSingle {
    pub fits: u32,
    pub value: i64,
}

// A number that is handed in.
impl From<BrundhalNumber> for Wide {
    ghost from_gives = { λ x r. value_of r ≡ number_held x };

    fn from(x: BrundhalNumber) -> Wide {
        Wide {
            low: x.low,
            high: x.high,
        }
    }
}

// A number that is handed back.
impl From<Wide> for BrundhalNumber {
    ghost from_gives = { λ x r. number_fields r ≡ number_words (value_of x) };

    fn from(x: Wide) -> BrundhalNumber {
        BrundhalNumber {
            low: x.low,
            high: x.high,
        }
    }
}

// What a number is in one word.
impl From<Option<i64>> for BrundhalSingle {
    ghost from_gives = { λ x r. single_fields r ≡ single_numbers x };

    fn from(answer: Option<i64>) -> BrundhalSingle {
        BrundhalSingle {
            fits: u32::from(answer.is_some()),
            value: answer.unwrap_or(0),
        }
    }
}

// An order, by C's numbers; no `From`, since both types are another crate's.
fn order(answer: Ordering) -> i32
    ensures { result ≡ order_number answer }
{
    match answer {
        Ordering::Less => -1,
        Ordering::Equal => 0,
        Ordering::Greater => 1,
    }
}

pub fn from_i64(x: i64) -> BrundhalNumber
    ensures { number_fields result ≡ number_words x }
{
    BrundhalNumber::from(Wide::from(x))
}

pub fn to_i64(x: BrundhalNumber) -> BrundhalSingle
    ensures { single_fields result ≡ single_numbers (single_of (number_held x)) }
{
    BrundhalSingle::from(Wide::from(x).to_i64())
}

pub fn add(x: BrundhalNumber, y: BrundhalNumber) -> BrundhalNumber
    ensures { number_fields result ≡ number_words (number_held x +ℤ number_held y) }
{
    BrundhalNumber::from(Wide::from(x).add(Wide::from(y)))
}

pub fn sub(x: BrundhalNumber, y: BrundhalNumber) -> BrundhalNumber
    ensures { number_fields result ≡ number_words (number_held x -ℤ number_held y) }
{
    BrundhalNumber::from(Wide::from(x).sub(Wide::from(y)))
}

pub fn mul(x: BrundhalNumber, y: BrundhalNumber) -> BrundhalNumber
    ensures { number_fields result ≡ number_words (number_held x *ℤ number_held y) }
{
    BrundhalNumber::from(Wide::from(x).mul(Wide::from(y)))
}

pub fn product(x: i64, y: i64) -> BrundhalNumber
    ensures { number_fields result ≡ number_words (x *ℤ y) }
{
    BrundhalNumber::from(Wide::product(x, y))
}

pub fn twice(x: BrundhalNumber) -> BrundhalNumber
    ensures { number_fields result ≡ number_words (pos 2 *ℤ number_held x) }
{
    BrundhalNumber::from(Wide::from(x).twice())
}

pub fn four_times(x: BrundhalNumber) -> BrundhalNumber
    ensures { number_fields result ≡ number_words (pos 4 *ℤ number_held x) }
{
    BrundhalNumber::from(Wide::from(x).four_times())
}

pub fn compare(x: BrundhalNumber, y: BrundhalNumber) -> i32
    ensures { result ≡ order_number (order_of (number_held x) (number_held y)) }
{
    order(Wide::from(x).compare(Wide::from(y)))
}

// The order against 0.
pub fn sign(x: BrundhalNumber) -> i32
    ensures { result ≡ order_number (order_of (number_held x) (pos 0)) }
{
    order(Wide::from(x).sign())
}

pub fn at_most(x: BrundhalNumber, y: BrundhalNumber) -> u32
    ensures { result ≡ answer_number (le_z (number_held x) (number_held y)) }
{
    u32::from(Wide::from(x).at_most(Wide::from(y)))
}
