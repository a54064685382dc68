// The record and both bounds of eight points within the limits `base`: with numbers of one word where these suffice, else with numbers of two. An inner
// crate, and the one place that decides between the two searches; its callers meet what each `requires` asks.
#![tactic(auto)]

ghost use Rattle.std.specs.Prelude.{◌≡◌, ◌≤◌};
ghost use Rattle.definitions.specs.Limits.{base};
ghost use Rattle.definitions.specs.Record.{record_of};
ghost use Rattle.search_theory.specs.Bounds.{bounds_at};
ghost use Rattle.element_vectors.specs.Range.{InRange};
ghost use Rattle.cell_points.specs.OneWord.{near_to, one_word_used};
ghost use Rattle.search_points.specs.Meaning.{extremes_of};

use cell_bounds::Extremes;
use limits::{MAX_ONE_WORD_COORDINATE, MIN_ONE_WORD_COORDINATE, ONE_WORD_DEPTH, RECORD_WORDS};

// Whether all 24 coordinates lie in the range of one word. Every one is looked at: without a branch for each the compiler tests four at a time.
fn all_near(p: &[i32; 24]) -> bool
    ensures { result ≡ near_to p.now 24 }
{
    let mut near = true;
    for x in p {
        near = near & ((MIN_ONE_WORD_COORDINATE <= *x) & (*x <= MAX_ONE_WORD_COORDINATE));
    }
    near
}

// Whether numbers of one word are used.
fn one_word(p: &[i32; 24], depth: u32) -> bool
    ensures { result ≡ one_word_used p.now depth }
{
    (depth <= ONE_WORD_DEPTH) & all_near(p)
}

// The record of eight points that are all in range.
pub fn record(p: &[i32; 24], depth: u32) -> [i64; RECORD_WORDS]
    requires in_range { InRange base.range p.now × (depth ≤ base.depth) }
    ensures { result ≡ record_of p.now depth }
{
    if one_word(p, depth) {
        return cell_points::record(p, depth, &mut [0i64; 27]);
    }
    cell_points::record(p, depth, &mut [0i128; 27])
}

// Both bounds of eight points that are all in range.
pub fn bounds(p: &[i32; 24], depth: u32) -> Extremes<i128>
    requires in_range { InRange base.range p.now × (depth ≤ base.depth) }
    ensures { extremes_of result ≡ bounds_at p.now depth }
{
    if one_word(p, depth) {
        let r = cell_points::bounds(p, depth, &mut [0i64; 27]);
        return Extremes {
            low: i128::from(r.low),
            high: i128::from(r.high),
        };
    }
    cell_points::bounds(p, depth, &mut [0i128; 27])
}
