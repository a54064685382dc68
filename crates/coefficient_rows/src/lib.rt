// The 27 rows of the table against twenty volumes, worked in numbers of one word. An inner crate, for the crates of coefficients: volumes in
// one word are taken as they are, longer ones by their digits, each digit for itself, since a row is linear.
#![tactic(auto)]

ghost use Rattle.std.specs.Prelude.{◌≡◌, ◌<◌, ◌≤◌};
ghost use Rattle.foundation.specs.Lists.{tabulate};
ghost use Rattle.foundation.specs.Polynomial.{integers};
ghost use Rattle.definitions.specs.Coefficients.{row, dot};
ghost use Rattle.coefficient_rows.specs.Limits.{WithinLimits};
ghost use Rattle.coefficient_rows.specs.Rows.{FirstRows};

use coefficient_table::sparse;

// Row n of the table against the twenty volumes: the sum of the terms of its non-zero places.
fn row(n: usize, v: &[i64; 20]) -> i64
    requires inside { n < 27 }
    requires within { WithinLimits v.now }
    ensures { result ≡ dot integers (row n) v.now }
{
    let mut sum = 0;
    for &(column, value) in sparse::row(n) {
        sum += value * v[column];
    }
    sum
}

// Rows first up to end against the volumes, each by its number into its place of out; the rows before them stand there. Where a caller writes out the ends, the
// compiler writes out the rows and, knowing their lists, their sums.
fn put_rows(first: usize, end: usize, v: &[i64; 20], out: &mut [i64; 27])
    requires ends { (first ≤ end) × (end ≤ 27) }
    requires within { WithinLimits v.now }
    requires before { FirstRows v.now first out.old }
    ensures { FirstRows v.now end out.new }
{
    for n in first..end {
        out[n] = row(n, v);
    }
}

// All 27 rows: the corners', the edges', the faces' and the centre's. Laid into its caller, no word of a volume or a row goes through a call.
#[inline(always)]
pub fn rows(v: &[i64; 20]) -> [i64; 27]
    requires { WithinLimits v.now }
    ensures { result ≡ tabulate (λ n. dot integers (row n) v.now) 0 27 }
{
    let mut out = [0; 27];
    put_rows(0, 8, v, &mut out);
    put_rows(8, 20, v, &mut out);
    put_rows(20, 26, v, &mut out);
    put_rows(26, 27, v, &mut out);
    out
}
