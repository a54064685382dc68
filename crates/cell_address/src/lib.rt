// Cell addresses and their moves.
// The reference cube is the cell of level 0, and a cell cut into eight gives cells one level finer (document 01 says "cube" for a cell
// of any level). The crate offers `Address` with the moves `child`, `corner` and `parent`. Each takes the address by value and hands back
// the moved one as `Ok`, or the same one as `Err` where the move can't be made. The moves ask nothing of the caller: any address and any number is
// answered, as `child_address`, `corner_address` and `parent_address` of the definitions say.
#![tactic(auto)]

ghost use Rattle.std.specs.Prelude.{◌≡◌, ◌^◌, ◌<◌, ◌≤◌};
ghost use Rattle.definitions.specs.Limits.{base};
ghost use Rattle.definitions.specs.Address.{is_cell, child_address, corner_address, parent_address};
ghost use Rattle.cell_address.specs.Meaning.{address_of, move_of, offset_by};

use limits::MAX_DEPTH;

// A level and the grid numbers of a point, in steps of 1/2^level: of a cell its lowest corner.
#[derive(Clone, Copy, Debug, PartialEq, Eq)]
pub struct Address {
    pub level: u32,
    pub a: u32,
    pub b: u32,
    pub c: u32,
}

// 2^level: how many cells of a level stand along an axis.
fn grid_size(level: u32) -> u32
    requires { level ≤ base.depth }
    ensures { result ≡ 2 ^ level }
{
    1 << level
}

impl Address {
    // Whether the address is a cell's: its level is at most the largest depth, and each grid number is below 2^level.
    fn is_cell(self) -> bool
        ensures { result ≡ is_cell base.depth (address_of self) }
    {
        if MAX_DEPTH < self.level {
            return false;
        }
        let size = grid_size(self.level);
        (self.a < size) & ((self.b < size) & (self.c < size))
    }

    // The address with the place of corner n, 0 or 1 on each axis, added to grid numbers that leave room for it.
    fn offset(self, n: u32) -> Address
        requires le_n { (1 ≤ n) × (n ≤ 8) }
        requires a_bound { (self.a < 2 ^ 31) × ((self.b < 2 ^ 31) × (self.c < 2 ^ 31)) }
        ensures { address_of result ≡ offset_by (address_of self) n }
    {
        let k = n - 1;
        Address {
            level: self.level,
            a: self.a + cell_corners::side(0, k),
            b: self.b + cell_corners::side(1, k),
            c: self.c + cell_corners::side(2, k),
        }
    }

    // Child n, 1 to 8, of a cell that is not of the finest level: one level finer, at twice the grid numbers plus its place.
    pub fn child(self, n: u32) -> Result<Address, Address>
        ensures { move_of result ≡ child_address base.depth (address_of self) n }
    {
        if self.is_cell() & ((self.level < MAX_DEPTH) & cell_corners::is_corner(n)) {
            let doubled = Address {
                level: self.level + 1,
                a: 2 * self.a,
                b: 2 * self.b,
                c: 2 * self.c,
            };
            Ok(doubled.offset(n))
        } else {
            Err(self)
        }
    }

    // Corner n, 1 to 8, of a cell: a grid point of the cell's level, whose numbers may reach 2^level.
    pub fn corner(self, n: u32) -> Result<Address, Address>
        ensures { move_of result ≡ corner_address base.depth (address_of self) n }
    {
        if self.is_cell() & cell_corners::is_corner(n) {
            Ok(self.offset(n))
        } else {
            Err(self)
        }
    }

    // The parent of a cell that is not the whole: one level coarser, at half the grid numbers, rounded down.
    pub fn parent(self) -> Result<Address, Address>
        ensures { move_of result ≡ parent_address base.depth (address_of self) }
    {
        if self.is_cell() & (1 <= self.level) {
            Ok(Address {
                level: self.level - 1,
                a: self.a / 2,
                b: self.b / 2,
                c: self.c / 2,
            })
        } else {
            Err(self)
        }
    }
}
