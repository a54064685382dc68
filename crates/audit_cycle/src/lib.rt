// The auditor's walk over an element's cells, one cut at a time: first across ξ, each half across η, each quarter across ζ, then the next level, with the
// cuts left counted down. An inner crate, for `audit_points`, which meets what each `requires` asks. The halves of a cut are handed on together, so
// that ζ comes to the eight children in path order. Whole cells alone are noted: the cuts left are 0 only in ξ.
#![tactic(auto)]

ghost use Rattle.std.specs.Prelude.{◌≡◌, List, ◌+◌, ◌*◌, ◌/◌, ◌%◌, ◌^◌, ◌<◌, ℕ, ℤ};
ghost use Rattle.definitions.specs.Jacobian.{side as side_of};
ghost use Rattle.definitions.specs.Subdivision.{halve, children as children_of};
ghost use Rattle.expansion_theory.specs.Control.{Cuttable};
ghost use Rattle.search_theory.specs.Meaning.{Grid, Room};
ghost use Rattle.audit_theory.specs.Walk.{opened, walk, through};
ghost use Rattle.audit_theory.specs.Cuts.{Halves, Quarters, InHalves, InQuarters};
ghost use Rattle.audit_cut.specs.Word.{largest};
ghost use Rattle.audit_notes.specs.Meaning.{cell_at, notes_of};
ghost use Rattle.audit_cycle.specs.Children.{cells, Eighths};

use audit_cut::Direction;
use audit_notes::{Notes, Point};

// Both halves across ζ of each of the four quarters of a cell in the order of the corners that they touch: the eight children in path order.
fn eighths(quarters: &[[i128; 27]; 4], children: &mut [[i128; 27]; 8])
    requires { (k : ℕ) → k < 4 → Cuttable largest (cells quarters.now k) }
    ensures { Eighths quarters.now children.new }
{
    let (lower, upper) = children.split_at_mut(4);
    for (k, quarter) in quarters.iter().enumerate() {
        audit_cut::cut(Direction::Zeta, quarter, &mut lower[k], &mut upper[k]);
    }
}

// The first corner of child k, 0 to 7, of the cell at p.
fn child_point(p: Point, k: u32) -> Point
    requires { Grid p.a 1 × Grid p.b 1 × Grid p.c 1 }
    ensures { (result.a ≡ 2 * p.a + side_of 0 k) × (result.b ≡ 2 * p.b + side_of 1 k) × (result.c ≡ 2 * p.c + side_of 2 k) }
{
    Point {
        a: 2 * p.a + cell_corners::side(0, k),
        b: 2 * p.b + cell_corners::side(1, k),
        c: 2 * p.c + cell_corners::side(2, k),
    }
}

// The cell at p with `left` cuts left, a third of them for each direction: of the last level it is noted, else it is cut across ξ.
#[cycle(eta_xi_zeta)]
pub fn xi(g: &[i128; 27], p: Point, left: u32, n: Notes) -> Notes
    requires { Room largest g.now p.a p.b p.c (left / 3) × (left % 3 ≡ 0) × (opened (notes_of n) + 8 ^ (left / 3) < 2 ^ 32) }
    ensures { notes_of result ≡ walk (left / 3) (cell_at p g.now) (notes_of n) }
{
    if left == 0 {
        return audit_notes::noted(g, p, n);
    }
    if audit_notes::stops(g, n) {
        return n;
    }
    let mut lower = [0; 27];
    let mut upper = [0; 27];
    audit_cut::cut(Direction::Xi, g, &mut lower, &mut upper);
    eta(&lower, &upper, p, left - 1, n)
}

// Both halves of the cell, each cut across η.
#[cycle(eta_xi_zeta)]
fn eta(lower: &[i128; 27], upper: &[i128; 27], p: Point, left: u32, n: Notes) -> Notes
    requires { InHalves largest lower.now upper.now p.a p.b p.c (left / 3) × (left % 3 ≡ 2) × (opened (notes_of n) + 8 ^ (left / 3 + 1) < 2 ^ 32) }
    ensures { (g : List ℤ) → Halves g lower.now upper.now → notes_of result ≡ through (walk (left / 3)) (children_of (cell_at p g)) (notes_of n) }
{
    let mut quarters = [[0; 27]; 4];
    let (first, second) = quarters.split_at_mut(2);
    audit_cut::cut(Direction::Eta, lower, &mut first[0], &mut second[1]);
    audit_cut::cut(Direction::Eta, upper, &mut first[1], &mut second[0]);
    zeta(&quarters, p, left - 1, n)
}

// The four quarters of the cell in the order of the corners that they touch, each cut across ζ, and the eight children one after the other.
#[cycle(eta_xi_zeta)]
fn zeta(quarters: &[[i128; 27]; 4], p: Point, left: u32, n: Notes) -> Notes
    requires { InQuarters largest (cells quarters.now 0) (cells quarters.now 1) (cells quarters.now 2) (cells quarters.now 3) p.a p.b p.c (left / 3) × (left % 3 ≡ 1) × (opened (notes_of n) + 8 ^ (left / 3 + 1) < 2 ^ 32) }
    ensures { (g : List ℤ) → Quarters g (cells quarters.now 0) (cells quarters.now 1) (cells quarters.now 2) (cells quarters.now 3) → notes_of result ≡ through (walk (left / 3)) (children_of (cell_at p g)) (notes_of n) }
{
    let mut children = [[0; 27]; 8];
    eighths(quarters, &mut children);
    let mut notes = n;
    for (k, child) in children.iter().enumerate() {
        notes = xi(child, child_point(p, k as u32), left - 1, notes);
    }
    notes
}
