// The function that makes a child, of both widths of number, under names that the tests beside the second program can call. An inner crate: no
// library that is handed out has it, and its callers meet what each `requires` asks.
#![tactic(auto)]

ghost use Rattle.std.specs.Prelude.{◌≡◌, [], ◌∷◌, ◌<◌, map, set, pos};
ghost use Rattle.foundation.specs.Least.{least_of};
ghost use Rattle.definitions.specs.Eighths.{least_number, eighth_of};
ghost use Rattle.definitions.specs.TwoWords.{low_word, high_word};
ghost use Rattle.verdict_theory.specs.Clear.{child_control};
ghost use Rattle.search_theory.specs.Meaning.{Small};
ghost use Rattle.cell_least.specs.Meaning.{told as told_of};
ghost use Rattle.inner_exports.specs.Values.{number_at, values, largest, widest};

use cell_least::Least;
use cell_numbers::Number;
use wide_number::Wide;

// Number k of 27 in 54 words: its low word, and behind it its high word.
fn at(c: &[u64; 54], k: usize) -> i128
    requires { k < 27 }
    ensures { result ≡ number_at c.now k }
{
    i128::from(Wide {
        low: c[2 * k],
        high: c[2 * k + 1],
    })
}

// Number k of out becomes x.
fn put(x: i128, k: usize, out: &mut [u64; 54])
    requires { k < 27 }
    ensures { values out.new ≡ set (values out.old) k x }
{
    let words = Wide::from(x);
    out[2 * k] = words.low;
    out[2 * k + 1] = words.high;
}

// The 27 numbers. By number, here and below: `at` and `put` find the two words of a number by its place.
fn numbers(c: &[u64; 54]) -> [i128; 27]
    ensures { result ≡ values c.now }
{
    let mut out = [0i128; 27];
    for k in 0..27 {
        out[k] = at(c, k);
    }
    out
}

// All 27 numbers become those of c.
fn put_numbers(c: &[i128; 27], out: &mut [u64; 54])
    ensures { values out.new ≡ c.now }
{
    for k in 0..27 {
        put(c[k], k, out);
    }
}

// Child k, 0 to 7, of a cell with coefficients g, into out; the least of its coefficients, and the number of that.
fn eighth<N: Number>(g: &[N; 27], k: u32, out: &mut [N; 27]) -> Least<N>
    requires { Small N.most (map N.value g.now) 1 × (k < 8) }
    ensures { told_of N.value (map N.value out.new) result ≡ eighth_of (child_control (map N.value g.now) k) }
{
    let mut half = [N::zero(); 27];
    let mut quarter = [N::zero(); 27];
    cell_halves::halve(2, cell_corners::side(2, k), g, &mut half);
    cell_halves::halve(1, cell_corners::side(1, k), &half, &mut quarter);
    cell_children::eighth(k, &quarter, out)
}

// Child k, 0 to 7, of a cell with coefficients g, in numbers of one word: its coefficients into out; the least of them, and then its number, into told.
#[unsafe(no_mangle)]
pub extern "C" fn inner_narrow_eighth(
    g: &[i64; 27],
    k: u32,
    out: &mut [i64; 27],
    told: &mut [i64; 2],
)
    requires { Small largest g.now 1 × (k < 8) }
    ensures out_after { out.new ≡ child_control g.now k }
    ensures told_after { told.new ≡ least_of (child_control g.now k) ∷ pos (least_number (child_control g.now k)) ∷ [] }
{
    let r = eighth(g, k, out);
    *told = [r.value, r.number as i64];
}

// The same in numbers of two words; told has the low word of the least, its high word and its number.
#[unsafe(no_mangle)]
pub extern "C" fn inner_wide_eighth(g: &[u64; 54], k: u32, out: &mut [u64; 54], told: &mut [u64; 3])
    requires { Small widest (values g.now) 1 × (k < 8) }
    ensures out_after { values out.new ≡ child_control (values g.now) k }
    ensures told_after { told.new ≡ low_word (least_of (child_control (values g.now) k)) ∷ high_word (least_of (child_control (values g.now) k)) ∷ least_number (child_control (values g.now) k) ∷ [] }
{
    let mut child = [0i128; 27];
    let r = eighth(&numbers(g), k, &mut child);
    put_numbers(&child, out);
    let least = Wide::from(r.value);
    *told = [least.low, least.high, r.number as u64];
}
