// The cells of the last level as a pass opens them: one with a low coefficient, or so many without. An inner crate, for `cell_search`.
#![tactic(auto)]

ghost use Rattle.std.specs.Prelude.{◌≡◌, false, List, suc, ◌+◌, ◌<◌, get_or, ℤ, pos};
ghost use Rattle.verdict_theory.specs.Search.{ended as has_ended, open_cell};
ghost use Rattle.verdict_theory.specs.Clear.{more, opened_clear};
ghost use Rattle.search_theory.specs.Meaning.{cell_of, lowest as lowest_of, count_room, Grid};

use search_pass::{Finding, Found, Pass, Place};

// A cell of the last level with a low coefficient, of which the lowest-numbered is coefficient k, counted from 0, with its value: one cell more, and a
// low corner, or a low coefficient where nothing low was found before.
pub fn open_low(value: i128, place: Place, k: usize, pass: &mut Pass)
    requires { Grid place.a 0 × Grid place.b 0 × Grid place.c 0 × (pass.old.count + 1 < count_room) × (k < 27) }
    ensures { (g : List ℤ) → suc k ≡ lowest_of g → value ≡ get_or g k (pos 0) → has_ended pass.old.found ≡ false → pass.new ≡ open_cell (cell_of place.a place.b place.c g) pass.old }
{
    pass.add_opened(1);
    let k = k as u32;
    let number = k + 1;
    if k < 8 {
        pass.note(Found::Corner(Finding {
            place: place.corner(k),
            number,
            value,
        }));
    } else if pass.found_nothing() {
        pass.note(Found::Coefficient(Finding {
            place,
            number,
            value,
        }));
    }
}

// So many cells without a low coefficient, with `left` levels below them: they are opened where they are of the last level.
pub fn skip(n: u32, left: u32, pass: &mut Pass)
    requires { pass.old.count + n < count_room }
    ensures { pass.new ≡ more (opened_clear n left) pass.old }
{
    if left == 0 {
        pass.add_opened(n);
    }
}
