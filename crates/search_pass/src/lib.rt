// A pass of the search: what it found, where, and how many cells it opened. A contract sees it as the pass that the theorems speak of. An inner crate,
// for `search_opening` and `cell_search`.
#![tactic(auto)]

ghost use Rattle.std.specs.Prelude.{◌≡◌, ◌+◌, ◌*◌, ◌<◌};
ghost use Rattle.definitions.specs.Jacobian.{side as side_of};
ghost use Rattle.definitions.specs.TwoWords.{two_words as two_words_of};
ghost use Rattle.definitions.specs.Record.{words, verdict_words};
ghost use Rattle.verdict_theory.specs.Search.{ended as has_ended};
ghost use Rattle.verdict_theory.specs.Clear.{more};
ghost use Rattle.search_theory.specs.Meaning.{count_room, Grid};
ghost use Rattle.search_theory.specs.Visit.{is_blocked};
ghost use Rattle.search_theory.specs.Levels.{fresh, outcome};
ghost use Rattle.search_pass.specs.Meaning.{found_of, found_nothing};

use limits::RECORD_WORDS;
use std::marker::Model;
use wide_number::Wide;

// The grid numbers of a cell, or of a point.
#[derive(Clone, Copy, Debug, Default, PartialEq, Eq)]
pub struct Place {
    pub a: u32,
    pub b: u32,
    pub c: u32,
}

impl Place {
    // Of a cell's corner k, 0 to 7.
    pub fn corner(self, k: u32) -> Place
        requires { Grid self.a 0 × Grid self.b 0 × Grid self.c 0 }
        ensures { result ≡ record { a = self.a + side_of 0 k; b = self.b + side_of 1 k; c = self.c + side_of 2 k } }
    {
        Place {
            a: self.a + cell_corners::side(0, k),
            b: self.b + cell_corners::side(1, k),
            c: self.c + cell_corners::side(2, k),
        }
    }

    // Of a cell's child k, 0 to 7, a level below.
    pub fn child(self, k: u32) -> Place
        requires { Grid self.a 1 × Grid self.b 1 × Grid self.c 1 }
        ensures { result ≡ record { a = 2 * self.a + side_of 0 k; b = 2 * self.b + side_of 1 k; c = 2 * self.c + side_of 2 k } }
    {
        Place {
            a: 2 * self.a + cell_corners::side(0, k),
            b: 2 * self.b + cell_corners::side(1, k),
            c: 2 * self.c + cell_corners::side(2, k),
        }
    }
}

// A coefficient that is not above 0: where, its number and its value.
#[derive(Clone, Copy, Debug, Default, PartialEq, Eq)]
pub struct Finding {
    pub place: Place,
    pub number: u32,
    pub value: i128,
}

// What was found: nothing, a low coefficient, or a low corner.
#[derive(Clone, Copy, Debug, PartialEq, Eq)]
pub enum Found {
    Nothing,
    Coefficient(Finding),
    Corner(Finding),
}

// A value as a record has it: its low word, and its high word.
fn two_words(value: i128) -> [i64; 2]
    ensures { result ≡ two_words_of value }
{
    let words = Wide::from(value);
    [words.low.cast_signed(), words.high.cast_signed()]
}

impl Finding {
    // The record that names this finding, of a kind and a level, where so many cells were opened. A kind is the number that `words` of the definitions has.
    fn record(&self, kind: u32, level: u32, count: u64) -> [i64; RECORD_WORDS]
        requires { count < count_room }
        ensures { result ≡ words kind level self.now.place.a self.now.place.b self.now.place.c self.now.number self.now.value count }
    {
        let [low, high] = two_words(self.value);
        [
            i64::from(kind),
            i64::from(level),
            i64::from(self.place.a),
            i64::from(self.place.b),
            i64::from(self.place.c),
            i64::from(self.number),
            low,
            high,
            count as i64,
        ]
    }
}

#[derive(Drop)]
pub struct Pass {
    found: Found,
    count: u64,
}

impl Model for Pass {
    ghost use Rattle.std.specs.Prelude.{◌<◌};
    ghost use Rattle.verdict_theory.specs.Search.{Pass as Passed};
    ghost use Rattle.search_theory.specs.Meaning.{count_room};

    ghost Value = { Passed };

    ghost use Rattle.search_pass.specs.Meaning.{found_of};

    ghost view = { λ p. record { count = p.count; found = found_of p.found } };

    ghost invariant = { λ p. p.count < count_room };
}

impl Pass {
    // Before the first pass.
    pub fn new() -> Pass
        ensures { result ≡ fresh 0 }
    {
        Pass {
            found: Found::Nothing,
            count: 0,
        }
    }

    // Whether a low corner was found.
    pub fn ended(&self) -> bool
        ensures { result ≡ has_ended self.now.found }
    {
        matches!(self.found, Found::Corner(_))
    }

    // Whether a low coefficient was found and no low corner.
    pub fn blocked(&self) -> bool
        ensures { result ≡ is_blocked self.now.found }
    {
        matches!(self.found, Found::Coefficient(_))
    }

    // Whether nothing was found.
    pub fn found_nothing(&self) -> bool
        ensures { result ≡ found_nothing self.now.found }
    {
        matches!(self.found, Found::Nothing)
    }

    // So many cells more were opened.
    pub fn add_opened(&mut self, n: u32)
        requires { self.old.count + n < count_room }
        ensures { self.new ≡ more n self.old }
    {
        self.count += u64::from(n);
    }

    // A finding in place of what was found before, or nothing, to forget it.
    pub fn note(&mut self, found: Found)
        ensures { self.new ≡ record { count = self.old.count; found = found_of found } }
    {
        self.found = found;
    }

    // The record that the last pass, that of a level, comes to.
    pub fn settled(&self, level: u32) -> [i64; RECORD_WORDS]
        ensures { result ≡ verdict_words (outcome level self.now.found) self.now.count }
    {
        match self.found {
            Found::Nothing => Finding::default().record(0, level, self.count),
            Found::Corner(f) => f.record(1, level, self.count),
            Found::Coefficient(f) => f.record(2, level, self.count),
        }
    }
}
