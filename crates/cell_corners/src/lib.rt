// How corners and children are numbered: which numbers they have, and on which side of a cell each one lies. The functions ask nothing of
// the caller, and answer as `is_corner` and `side` of the definitions say.
#![tactic(auto)]

ghost use Rattle.std.specs.Prelude.{◌≡◌, ◌≤◌};
ghost use Rattle.definitions.specs.Jacobian.{side as side_of};
ghost use Rattle.definitions.specs.Address.{is_corner};

// Whether n numbers a corner or a child: 1 to 8.
pub fn is_corner(n: u32) -> bool
    ensures { result ≡ is_corner n }
{
    (1 <= n) & (n <= 8)
}

// The side, 0 or 1, of corner k, 0 to 7, in direction 0, 1 or 2; a larger direction counts as 2, and a larger k has side 0.
pub fn side(d: u32, k: u32) -> u32
    ensures { (result ≡ side_of d k) × (result ≤ 1) }
{
    if 8 <= k {
        return 0;
    }
    if d == 0 {
        return (k + 1) / 2 % 2;
    }
    if d == 1 {
        return k / 2 % 2;
    }
    k / 4
}
