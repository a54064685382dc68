// The numbers in which a cell's 27 coefficients are held: whole numbers of one word, and of two. An inner crate, for the crates that work on
// cells: what they say of a coefficient they say of its value, once for both.
#![tactic(auto)]

ghost use Rattle.std.specs.Prelude.{◌≡◌, ℕ, ℤ, pos, ◌-◌, ◌^◌, ◌≤◌, ◌+ℤ◌, int_le, nat_abs};

// A whole number of so many bits. (A trait of our own: of a type that has the library's `Add` and `Ord` nothing is known of values.)
pub trait Number: Copy {
    // The number that it is, and the largest magnitude that a sum of two may have.
    ghost value: { Self → ℤ };

    ghost most: { ℕ };

    fn zero() -> Self
        ensures { value result ≡ pos 0 };

    fn greatest() -> Self
        ensures { value result ≡ pos most };

    fn add(self, y: Self) -> Self
        requires { nat_abs (value self +ℤ value y) ≤ most }
        ensures { value result ≡ value self +ℤ value y };

    fn at_most(self, y: Self) -> bool
        ensures { result ≡ int_le (value self) (value y) };

    // The same number, in two words.
    fn whole(self) -> i128
        ensures { result ≡ value self };
}

impl Number for i64 {
    ghost value = { λ x. x };

    ghost most = { 2 ^ 63 - 1 };

    fn zero() -> i64 {
        0
    }

    fn greatest() -> i64 {
        i64::MAX
    }

    fn add(self, y: i64) -> i64 {
        self + y
    }

    fn at_most(self, y: i64) -> bool {
        self <= y
    }

    fn whole(self) -> i128 {
        i128::from(self)
    }
}

impl Number for i128 {
    ghost value = { λ x. x };

    ghost most = { 2 ^ 127 - 1 };

    fn zero() -> i128 {
        0
    }

    fn greatest() -> i128 {
        i128::MAX
    }

    fn add(self, y: i128) -> i128 {
        self + y
    }

    fn at_most(self, y: i128) -> bool {
        self <= y
    }

    fn whole(self) -> i128 {
        self
    }
}

// Two times a number.
pub fn twice<N: Number>(x: N) -> N
    requires { nat_abs (N.value x +ℤ N.value x) ≤ N.most }
    ensures { N.value result ≡ N.value x +ℤ N.value x }
{
    x.add(x)
}

// Whether a number is not above 0.
pub fn is_low<N: Number>(x: N) -> bool
    ensures { result ≡ int_le (N.value x) (pos 0) }
{
    x.at_most(N::zero())
}
