// The 27 Bézier coefficients of eight points whose coordinates go to 1,048,576, in numbers of 128 bits.
//
// An inner crate, beside `narrow_coefficients` for coordinates to 65,536. The volumes come in two digits of one word each. A row of the table is
// linear, so the rows are worked against the upper digits and against the lower ones, in one word, and their results are joined.
#![tactic(auto)]

ghost use Rattle.std.specs.Prelude.{◌≡◌, map, ℤ, pos, ◌+ℤ◌, ◌*ℤ◌};
ghost use Rattle.foundation.specs.Lists.{tabulate};
ghost use Rattle.definitions.specs.Limits.{base};
ghost use Rattle.foundation.specs.Polynomial.{integers};
ghost use Rattle.definitions.specs.Coefficients.{row, dot, coefficients};
ghost use Rattle.coefficient_rows.specs.Limits.{WithinLimits};
ghost use Rattle.element_vectors.specs.Range.{InRange};
ghost use Rattle.wide_coefficients.specs.Joined.{join_at};

// The 27 rows against one digit of each volume. Laid twice into its caller they took longer, so this stays a call.
#[inline(never)]
fn rows(v: &[i64; 20]) -> [i64; 27]
    requires { WithinLimits v.now }
    ensures { result ≡ tabulate (λ n. dot integers (row n) v.now) 0 27 }
{
    coefficient_rows::rows(v)
}

// The number of two digits.
fn join(high: i64, low: i64) -> i128
    ensures { result ≡ pos 2048 *ℤ high +ℤ low }
{
    2048 * i128::from(high) + i128::from(low)
}

// The 27 numbers whose digits are high and low. By number: three arrays are gone through side by side.
fn put_joined(high: &[i64; 27], low: &[i64; 27], out: &mut [i128; 27])
    ensures { out.new ≡ tabulate (join_at high.now low.now) 0 27 }
{
    for k in 0..27 {
        out[k] = join(high[k], low[k]);
    }
}

// The upper digits of twenty numbers, and the lower ones. (Of `digits.map(|d| d.0)` the result stays unknown to the proof.)
fn split(digits: &[(i64, i64); 20]) -> ([i64; 20], [i64; 20])
    ensures upper { result.0 ≡ map (λ (d : ℤ × ℤ). d.0) digits.now }
    ensures lower { result.1 ≡ map (λ (d : ℤ × ℤ). d.1) digits.now }
{
    let mut high = [0; 20];
    let mut low = [0; 20];
    for (k, d) in digits.iter().enumerate() {
        high[k] = d.0;
        low[k] = d.1;
    }
    (high, low)
}

// The 27 coefficients, times 8, in the order of their numbers. The eight points p are in place order, x, y, z of each. All of out is written.
pub fn coefficients(p: &[i32; 24], out: &mut [i128; 27])
    requires { InRange base.range p.now }
    ensures { out.new ≡ coefficients p.now }
{
    let (high, low) = split(&wide_volumes::digits(p));
    let uppers = rows(&high);
    let lowers = rows(&low);
    put_joined(&uppers, &lowers, out);
}
