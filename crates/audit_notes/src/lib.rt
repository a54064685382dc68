// What the auditor's walk notes of an element's cells, in numbers of 128 bits: a search what it found and how many cells it opened, a survey the
// least coefficient and the least corner. An inner crate, for `audit_cycle` and `audit_points`, which meet what each `requires` asks. It has its own
// findings and bounds, and shares none with the first inspector's search, since 02, No. 6, asks for a second inspector that stands apart.
#![tactic(auto)]

ghost use Rattle.std.specs.Prelude.{◌≡◌, ℕ, ◌+◌, ◌-◌, ◌^◌, ◌<◌, ◌≤◌};
ghost use Rattle.foundation.specs.Least.{lesser as lesser_of, least_from};
ghost use Rattle.definitions.specs.Record.{words as words_of};
ghost use Rattle.verdict_theory.specs.Search.{nothing, coefficient, open_cell};
ghost use Rattle.search_theory.specs.Meaning.{cell_of, lowest};
ghost use Rattle.audit_theory.specs.Walk.{sought, opened, stops as stops_at, noted as noted_at};
ghost use Rattle.audit_notes.specs.Meaning.{OnGrid, cell_at, numbered, finding_of, notes_of, extremes_of, finding_at, blocked_in, record_in, extremes_in};

use limits::RECORD_WORDS;
use wide_number::Wide;

// A cell's first corner, or a corner, by its grid numbers.
#[derive(Clone, Copy, Debug, PartialEq, Eq)]
pub struct Point {
    pub a: u32,
    pub b: u32,
    pub c: u32,
}

// What a search found: the point, the number and the value of a low corner or a low coefficient.
#[derive(Clone, Copy, Debug, PartialEq, Eq)]
pub struct Finding {
    pub point: Point,
    pub number: u32,
    pub value: i128,
}

// The least coefficient and the least corner.
#[derive(Clone, Copy, Debug, PartialEq, Eq)]
pub struct Extremes {
    pub low: i128,
    pub high: i128,
}

// Of a search how many cells were opened, and what was found: nothing, a low coefficient, or a low corner. Of a survey the least coefficient and the
// least corner. Both are one walk, `walk` of `audit_theory`, which has them in one type too.
#[derive(Clone, Copy, Debug, PartialEq, Eq)]
pub enum Notes {
    Nothing(u32),
    Coefficient(u32, Finding),
    Corner(u32, Finding),
    Survey(Extremes),
}

// The lowest number of a coefficient that is not above 0, if there is one: from the last to the first, each is looked at, by the number that is
// answered.
fn lowest_number(g: &[i128; 27]) -> Option<usize>
    ensures { result ≡ numbered (lowest g.now) }
{
    let mut number = None;
    for k in (0..27).rev() {
        if g[k] <= 0 {
            number = Some(k + 1);
        }
    }
    number
}

// The lesser of two numbers.
#[tactic(auto, using(crate::specs::Notes::min_lesser))]
fn lesser(x: i128, y: i128) -> i128
    ensures { result ≡ lesser_of x y }
{
    x.min(y)
}

// The least of v and these coefficients.
fn least_with(g: &[i128], v: i128) -> i128
    ensures { result ≡ least_from v g.now }
{
    let mut least = v;
    for x in g {
        least = lesser(least, *x);
    }
    least
}

// The coefficient of this number of the cell at p: a corner at its point, any other at the cell.
fn found_at(g: &[i128; 27], p: Point, number: usize) -> Finding
    requires { OnGrid p × (0 < number) × (number ≤ 27) }
    ensures { finding_of result ≡ finding_at (cell_at p g.now) (number - 1) }
{
    let k = number as u32 - 1;
    let point = if number <= 8 {
        Point {
            a: p.a + cell_corners::side(0, k),
            b: p.b + cell_corners::side(1, k),
            c: p.c + cell_corners::side(2, k),
        }
    } else {
        p
    };
    Finding {
        point,
        number: k + 1,
        value: g[number - 1],
    }
}

// The cell at p, of the last level, opened where nothing low was found before.
fn first_look(g: &[i128; 27], p: Point, opened: u32) -> Notes
    requires { OnGrid p × (opened + 1 < 2 ^ 32) }
    ensures { notes_of result ≡ sought (open_cell (cell_at p g.now) (record { count = opened; found = nothing })) }
{
    let Some(number) = lowest_number(g) else {
        return Notes::Nothing(opened + 1);
    };
    let f = found_at(g, p, number);
    if number <= 8 {
        Notes::Corner(opened + 1, f)
    } else {
        Notes::Coefficient(opened + 1, f)
    }
}

// The cell at p, of the last level, opened after a low coefficient, which stays unless a corner is low.
fn later_look(g: &[i128; 27], p: Point, opened: u32, before: Finding) -> Notes
    requires { OnGrid p × (opened + 1 < 2 ^ 32) }
    ensures { notes_of result ≡ sought (open_cell (cell_at p g.now) (record { count = opened; found = coefficient (finding_of before) })) }
{
    match lowest_number(g) {
        Some(number) if number <= 8 => Notes::Corner(opened + 1, found_at(g, p, number)),
        _ => Notes::Coefficient(opened + 1, before),
    }
}

// The cell at p, of the last level.
pub fn noted(g: &[i128; 27], p: Point, n: Notes) -> Notes
    requires { OnGrid p × (opened (notes_of n) + 1 < 2 ^ 32) }
    ensures { notes_of result ≡ noted_at (cell_at p g.now) (notes_of n) }
{
    match n {
        Notes::Nothing(opened) => first_look(g, p, opened),
        Notes::Coefficient(opened, f) => later_look(g, p, opened, f),
        Notes::Corner(opened, f) => Notes::Corner(opened, f),
        Notes::Survey(e) => Notes::Survey(Extremes {
            low: least_with(g, e.low),
            high: least_with(&g[..8], e.high),
        }),
    }
}

// Whether a cell is not cut: a search has found a low corner, or the cell has no low coefficient. A survey cuts every cell.
pub fn stops(g: &[i128; 27], n: Notes) -> bool
    ensures { (a b c : ℕ) → result ≡ stops_at (cell_of a b c g.now) (notes_of n) }
{
    match n {
        Notes::Nothing(_) => lowest_number(g).is_none(),
        Notes::Coefficient(..) => lowest_number(g).is_none(),
        Notes::Corner(..) => true,
        Notes::Survey(_) => false,
    }
}

// Whether a search found a low coefficient and no low corner.
pub fn blocked(n: Notes) -> bool
    ensures { result ≡ blocked_in (notes_of n) }
{
    matches!(n, Notes::Coefficient(..))
}

// How many cells a search opened; of a survey 0.
pub fn count(n: Notes) -> u32
    ensures { result ≡ opened (notes_of n) }
{
    match n {
        Notes::Nothing(opened) | Notes::Coefficient(opened, _) | Notes::Corner(opened, _) => opened,
        Notes::Survey(_) => 0,
    }
}

// The words of a record, a kind being the number that `words` of the definitions has.
fn words(kind: u32, level: u32, f: Finding, opened: u32) -> [i64; RECORD_WORDS]
    ensures { result ≡ words_of kind level f.point.a f.point.b f.point.c f.number f.value opened }
{
    let value = Wide::from(f.value);
    let low = wide_number::signed(value.low);
    let high = wide_number::signed(value.high);
    [
        i64::from(kind),
        i64::from(level),
        i64::from(f.point.a),
        i64::from(f.point.b),
        i64::from(f.point.c),
        i64::from(f.number),
        low,
        high,
        i64::from(opened),
    ]
}

// The record of a search of a level, where it is the last; of a survey nine zeros.
pub fn record(level: u32, n: Notes) -> [i64; RECORD_WORDS]
    ensures { result ≡ record_in level (notes_of n) }
{
    match n {
        Notes::Nothing(opened) => [0, i64::from(level), 0, 0, 0, 0, 0, 0, i64::from(opened)],
        Notes::Coefficient(opened, f) => words(2, level, f, opened),
        Notes::Corner(opened, f) => words(1, level, f, opened),
        Notes::Survey(_) => [0; RECORD_WORDS],
    }
}

// What a survey comes to; of a search zeros.
pub fn surveyed(n: Notes) -> Extremes
    ensures { extremes_of result ≡ extremes_in (notes_of n) }
{
    match n {
        Notes::Survey(e) => e,
        _ => Extremes { low: 0, high: 0 },
    }
}
