// The recursive search of an element's cells, for both widths of number. An inner crate, for `search_points`: its callers see to it that the numbers
// stay small enough at every level that is asked for (`Small`).
#![tactic(auto)]

ghost use Rattle.std.specs.Prelude.{◌≡◌, false, List, map, ◌+◌, ◌-◌, ◌^◌, ◌<◌, ◌≤◌, ℤ};
ghost use Rattle.definitions.specs.Limits.{base};
ghost use Rattle.definitions.specs.Coefficients.{coefficients};
ghost use Rattle.definitions.specs.Record.{record_of};
ghost use Rattle.verdict_theory.specs.Search.{ended as has_ended, visit as visited};
ghost use Rattle.search_theory.specs.Meaning.{cell_of, lowest, count_room, Small, Room};
ghost use Rattle.search_theory.specs.Levels.{whole_of, fresh};
ghost use Rattle.cell_search.specs.Meaning.{Rest};

use cell_numbers::Number;
use limits::RECORD_WORDS;
use search_pass::{Found, Pass, Place};

// Whether the children of this cell from k on need not be made: after a low corner, and, where they are of the last level, after a low coefficient,
// if J is above 0 at all grid points of their level. Of the last level the rest are then opened here.
fn rest_known<N: Number>(g: &[N; 27], k: u32, left: u32, pass: &mut Pass) -> bool
    requires { Small N.most (map N.value g.now) 1 × (k ≤ 8) × (pass.old.count + (8 - k) < count_room) }
    ensures { Rest pass.old left (map N.value g.now) (8 - k) result pass.new }
{
    if pass.ended() {
        return true;
    }
    if left == 1 {
        if pass.blocked() {
            if !cell_grid::low(g) {
                pass.add_opened(8 - k);
                return true;
            }
        }
    }
    false
}

// The due cells `left` levels below this one, which has a low coefficient, in path order, after what was found before: of the last level it is opened
// itself, else it is cut into its eight children, and those that are known to have no low coefficient are passed over.
fn visit<N: Number>(g: &[N; 27], place: Place, left: u32, pass: &mut Pass)
    requires { Room N.most (map N.value g.now) place.a place.b place.c left × (pass.old.count + 8 ^ left < count_room) × (lowest (map N.value g.now) ≡ 0 → ⊥) }
    ensures { has_ended pass.old.found ≡ false → pass.new ≡ visited left (cell_of place.a place.b place.c (map N.value g.now)) pass.old }
{
    if left == 0 {
        if let Some(k) = cell_lowest::lowest(g) {
            search_opening::open_low(g[k].whole(), place, k, pass);
        }
        return;
    }
    if rest_known(g, 0, left, pass) {
        return;
    }
    let mut half = [N::zero(); 27];
    let mut quarter = [N::zero(); 27];
    let mut child = [N::zero(); 27];
    // Counted by hand: as many children are passed over as `clear` says.
    let mut k: u32 = 0;
    while k < 8 {
        if rest_known(g, k, left, pass) {
            return;
        }
        match cell_children::clear(g, k, &mut half, &mut quarter, &mut child) {
            None => {
                visit(&child, place.child(k), left - 1, pass);
                k += 1;
            }
            Some(over) => {
                search_opening::skip(over, left - 1, pass);
                k += over;
            }
        }
    }
}

// The pass of a level over the whole element, which has a low coefficient, after a pass of which the count of cells stays.
fn pass_at<N: Number>(g: &[N; 27], level: u32, pass: &mut Pass)
    requires { Small N.most (map N.value g.now) level × (level ≤ base.depth) × (pass.old.count + 8 ^ level < count_room) × (lowest (map N.value g.now) ≡ 0 → ⊥) }
    ensures { pass.new ≡ visited level (whole_of (map N.value g.now)) (fresh pass.old.count) }
{
    pass.note(Found::Nothing);
    visit(g, Place::default(), level, pass);
}

// The record of the eight points with these coefficients: where one is low, a pass of level 0, 1, .. while only low coefficients are found.
pub fn record<N: Number>(g: &[N; 27], depth: u32) -> [i64; RECORD_WORDS]
    requires { Small N.most (map N.value g.now) depth × (depth ≤ base.depth) }
    ensures { (xs : List ℤ) → map N.value g.now ≡ coefficients xs → result ≡ record_of xs depth }
{
    let mut pass = Pass::new();
    if cell_lowest::lowest(g).is_none() {
        search_opening::skip(1, 0, &mut pass);
        return pass.settled(0);
    }
    // The level is counted by hand: it is the last one's that stands in the record.
    let mut m = 0;
    pass_at(g, 0, &mut pass);
    while (m < depth) & pass.blocked() {
        m += 1;
        pass_at(g, m, &mut pass);
    }
    pass.settled(m)
}
