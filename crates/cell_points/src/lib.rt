// The record and both bounds of eight points, with numbers of one word and of two: one word suffices for coordinates to 4,096 and depth to 3, two for
// the limits `base`. An inner crate, for `search_points`, which meets what each `requires` asks. specs/OneWord.antt and specs/TwoWords.antt are the
// place where range, depth and words meet. That the points are in range is asked at each call and held by no type, since the range is another one for
// each width.
#![tactic(auto)]

ghost use Rattle.std.specs.Prelude.{◌≡◌, ◌≤◌, List, map, ℕ, ℤ};
ghost use Rattle.definitions.specs.Limits.{base};
ghost use Rattle.definitions.specs.Coefficients.{coefficients as coefficients_of};
ghost use Rattle.definitions.specs.Record.{record_of};
ghost use Rattle.search_theory.specs.Meaning.{Small};
ghost use Rattle.search_theory.specs.Bounds.{bounds_at};
ghost use Rattle.element_vectors.specs.Range.{InRange};
ghost use Rattle.cell_bounds.specs.Meaning.{extremes_of};
ghost use Rattle.std.proofs.Common.{lit≤};
ghost use Rattle.cell_points.specs.OneWord as one_word;
ghost use Rattle.cell_points.specs.TwoWords as two_words;

use cell_bounds::Extremes;
use cell_numbers::Number;
use limits::RECORD_WORDS;

// Numbers that hold the coefficients of eight points at every level: of points within a range, to a depth.
pub trait Coefficients: Number {
    ghost range: { ℕ };

    ghost depth: { ℕ };

    // The 27 coefficients of the eight points p.
    fn coefficients(p: &[i32; 24], out: &mut [Self; 27])
        requires { InRange range p.now }
        ensures { map Self.value out.new ≡ coefficients_of p.now };

    ghost shallow: { depth ≤ base.depth };

    ghost small: { (xs g : List ℤ) (d : ℕ) → InRange range xs → d ≤ depth → g ≡ coefficients_of xs → Small Self.most g d };
}

impl Coefficients for i64 {
    ghost range = { one_word.one_word_range };

    ghost depth = { one_word.one_word_depth };

    ghost shallow = { lit≤ tt };

    ghost small = { one_word.points_small };

    fn coefficients(p: &[i32; 24], out: &mut [i64; 27]) {
        narrow_coefficients::coefficients(p, out)
    }
}

impl Coefficients for i128 {
    ghost range = { base.range };

    ghost depth = { base.depth };

    ghost shallow = { lit≤ tt };

    ghost small = { two_words.points_small };

    fn coefficients(p: &[i32; 24], out: &mut [i128; 27]) {
        wide_coefficients::coefficients(p, out)
    }
}

// The record of eight points that are all in range. g is room for their coefficients, and is written whole; it is lent, since a
// generic function whose arguments have no such array does not prove that one of its own fits in memory.
pub fn record<N: Coefficients>(p: &[i32; 24], depth: u32, g: &mut [N; 27]) -> [i64; RECORD_WORDS]
    requires { InRange N.range p.now × (depth ≤ N.depth) }
    ensures { result ≡ record_of p.now depth }
{
    N::coefficients(p, g);
    cell_search::record(g, depth)
}

// Both bounds of eight points that are all in range, with the same room.
pub fn bounds<N: Coefficients>(p: &[i32; 24], depth: u32, g: &mut [N; 27]) -> Extremes<N>
    requires { InRange N.range p.now × (depth ≤ N.depth) }
    ensures { extremes_of N.value result ≡ bounds_at p.now depth }
{
    N::coefficients(p, g);
    cell_bounds::bounds(g, depth)
}
