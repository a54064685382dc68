// A row of three numbers, cut by de Casteljau's rule and kept four times larger. An inner crate, for `cell_halves` and, its middle, for `cell_grid`.
#![tactic(auto)]

ghost use Rattle.std.specs.Prelude.{◌≡◌, [], ◌∷◌, ◌<◌, map};
ghost use Rattle.foundation.specs.Polynomial.{integers};
ghost use Rattle.foundation.specs.Words.{args, Within};
ghost use Rattle.definitions.specs.Subdivision.{cut_row};
ghost use Rattle.cell_numbers.specs.Values.{cut_most};
ghost use Rattle.cell_rows.specs.Cut.{entries};

use cell_numbers::{Number, twice};

// The lower half of the row p, q, r, four times larger: its three entries. That the row can be cut is asked at each call: its three numbers are read from
// arrays that are filled anew for every cell, and no type holds it.
fn start<N: Number>(p: N, q: N, r: N) -> N
    requires { Within (cut_most N.most) (N.value p ∷ N.value q ∷ N.value r ∷ []) }
    ensures { N.value result ≡ cut_row integers 0 (args (N.value p ∷ N.value q ∷ N.value r ∷ [])) 0 }
{
    twice(twice(p))
}

fn middle<N: Number>(p: N, q: N, r: N) -> N
    requires { Within (cut_most N.most) (N.value p ∷ N.value q ∷ N.value r ∷ []) }
    ensures { N.value result ≡ cut_row integers 0 (args (N.value p ∷ N.value q ∷ N.value r ∷ [])) 1 }
{
    twice(p.add(q))
}

pub fn end<N: Number>(p: N, q: N, r: N) -> N
    requires { Within (cut_most N.most) (N.value p ∷ N.value q ∷ N.value r ∷ []) }
    ensures { N.value result ≡ cut_row integers 0 (args (N.value p ∷ N.value q ∷ N.value r ∷ [])) 2 }
{
    p.add(twice(q)).add(r)
}

// All three of them.
fn lower<N: Number>(p: N, q: N, r: N) -> [N; 3]
    requires { Within (cut_most N.most) (N.value p ∷ N.value q ∷ N.value r ∷ []) }
    ensures { map N.value result ≡ entries 0 (N.value p ∷ N.value q ∷ N.value r ∷ []) }
{
    [start(p, q, r), middle(p, q, r), end(p, q, r)]
}

// The upper half is that of the row turned round, from its end to its start.
fn upper<N: Number>(p: N, q: N, r: N) -> [N; 3]
    requires { Within (cut_most N.most) (N.value p ∷ N.value q ∷ N.value r ∷ []) }
    ensures { map N.value result ≡ entries 1 (N.value p ∷ N.value q ∷ N.value r ∷ []) }
{
    [end(r, q, p), middle(r, q, p), start(r, q, p)]
}

// The half of the row on side H, 0 or 1.
pub fn cut<N: Number, const H: u32>(p: N, q: N, r: N) -> [N; 3]
    requires side { H < 2 }
    requires small { Within (cut_most N.most) (N.value p ∷ N.value q ∷ N.value r ∷ []) }
    ensures { map N.value result ≡ entries H (N.value p ∷ N.value q ∷ N.value r ∷ []) }
{
    if H == 0 {
        return lower(p, q, r);
    }
    upper(p, q, r)
}
