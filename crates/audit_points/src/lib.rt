// The auditor's record and both bounds of eight points within the limits `base`. An inner crate, for `audit_records` and `auditor`, which meet what each
// `requires` asks.
#![tactic(auto)]

ghost use Rattle.std.specs.Prelude.{◌≡◌, List, ◌≤◌, ℤ};
ghost use Rattle.definitions.specs.Limits.{base};
ghost use Rattle.definitions.specs.Coefficients.{coefficients};
ghost use Rattle.definitions.specs.Record.{record_of};
ghost use Rattle.search_theory.specs.Meaning.{Small};
ghost use Rattle.search_theory.specs.Bounds.{bounds_at};
ghost use Rattle.element_vectors.specs.Range.{InRange};
ghost use Rattle.audit_cut.specs.Word.{largest};
ghost use Rattle.audit_notes.specs.Meaning.{extremes_of};

use audit_notes::{Extremes, Notes, Point};
use limits::RECORD_WORDS;

// The first corner of the whole element.
const ORIGIN: Point = Point { a: 0, b: 0, c: 0 };

// The record of the eight points with these coefficients: a walk of level 0, 1, .. while only low coefficients are found.
fn search(g: &[i128; 27], depth: u32) -> [i64; RECORD_WORDS]
    requires { Small largest g.now depth × (depth ≤ base.depth) }
    ensures { (xs : List ℤ) → g.now ≡ coefficients xs → result ≡ record_of xs depth }
{
    let mut opened = 0;
    for m in 0..depth {
        let n = audit_cycle::xi(g, ORIGIN, 3 * m, Notes::Nothing(opened));
        if !audit_notes::blocked(n) {
            return audit_notes::record(m, n);
        }
        opened = audit_notes::count(n);
    }
    let n = audit_cycle::xi(g, ORIGIN, 3 * depth, Notes::Nothing(opened));
    audit_notes::record(depth, n)
}

// The record of eight points that are all in range.
pub fn record(p: &[i32; 24], depth: u32) -> [i64; RECORD_WORDS]
    requires { InRange base.range p.now × (depth ≤ base.depth) }
    ensures { result ≡ record_of p.now depth }
{
    search(&audit_coefficients::coefficients(p), depth)
}

// Both bounds of eight points that are all in range, by a survey from the greatest number, which no coefficient passes.
pub fn bounds(p: &[i32; 24], depth: u32) -> Extremes
    requires { InRange base.range p.now × (depth ≤ base.depth) }
    ensures { extremes_of result ≡ bounds_at p.now depth }
{
    let g = audit_coefficients::coefficients(p);
    let top = Extremes {
        low: i128::MAX,
        high: i128::MAX,
    };
    let survey = audit_cycle::xi(&g, ORIGIN, 3 * depth, Notes::Survey(top));
    audit_notes::surveyed(survey)
}
