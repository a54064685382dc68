// The 27 Bézier coefficients of eight points whose coordinates go to 1,048,576, in numbers of 128 bits. An inner crate, for
// `audit_points`: a second way to what `narrow_coefficients` and `wide_coefficients` give. It has its own volumes, from `audit_volumes`, and works
// the rows from the table in full.
#![tactic(auto)]

ghost use Rattle.std.specs.Prelude.{◌≡◌, ◌*◌, ◌<◌, ◌≤◌, nat_abs, ◌+ℤ◌, ◌*ℤ◌};
ghost use Rattle.foundation.specs.Polynomial.{integers};
ghost use Rattle.foundation.specs.Words.{Within};
ghost use Rattle.definitions.specs.Limits.{base};
ghost use Rattle.definitions.specs.Coefficients.{row as row_of, dot, coefficients as coefficients_of};
ghost use Rattle.coefficient_table.specs.Table.{IsTable};
ghost use Rattle.element_vectors.specs.Range.{InRange};
ghost use Rattle.audit_volumes.specs.Limits.{volume_limit};
ghost use Rattle.audit_coefficients.specs.Rows.{entry_limit, sum_limit};

// A sum with an entry of the table times a volume. An entry that is 0 leaves it as it is.
fn with_entry(entry: i64, volume: i128, sum: i128) -> i128
    requires { (nat_abs entry ≤ entry_limit) × (nat_abs volume ≤ volume_limit) × (nat_abs sum ≤ sum_limit) }
    ensures { result ≡ entry *ℤ volume +ℤ sum }
{
    if entry == 0 {
        return sum;
    }
    i128::from(entry) * volume + sum
}

// Row n of the table against the twenty volumes: from the last entry to the first, as the definition nests its sum. By number, since one number
// finds the entry and the volume.
fn row(table: &[i64; 540], n: usize, v: &[i128; 20]) -> i128
    requires table { IsTable table.now }
    requires number { n < 27 }
    requires volumes { Within volume_limit v.now }
    ensures { result ≡ dot integers (row_of n) v.now }
{
    let mut sum = 0;
    for k in (0..20).rev() {
        sum = with_entry(table[20 * n + k], v[k], sum);
    }
    sum
}

// The 27 coefficients, times 8, in the order of their numbers, by which `row` finds its entries. The eight points p are in place order, x, y, z of each.
pub fn coefficients(p: &[i32; 24]) -> [i128; 27]
    requires { InRange base.range p.now }
    ensures { result ≡ coefficients_of p.now }
{
    let table = coefficient_table::reference::copy();
    let v = audit_volumes::volumes(p);
    let mut out = [0; 27];
    for n in 0..27 {
        out[n] = row(&table, n, &v);
    }
    out
}
