// The name that is in force at an element of a lot, by its groups. An inner crate: it names an element from any lists, and leaves it to its
// callers that the groups fit together. Every answer is an equation with `Naming` of the crate `lot_format`.
#![tactic(auto)]

ghost use Rattle.std.specs.Prelude.{◌≡◌, [], ◌+◌, ◌≤◌, length, take, drop};
ghost use Rattle.lot_format.specs.Naming.{name_in_force, place_in_force, name_of};
ghost use Rattle.lot_runs.specs.Meaning.{groups_held};
ghost use Rattle.lot_group_names.specs.Place.{place_of};

use lot_runs::Groups;

// A part of the names laid end to end.
#[derive(Clone, Copy, Debug, PartialEq, Eq)]
pub struct Part {
    pub start: usize,
    pub len: usize,
}

// The part that is the name in force at an element, and an empty one where no group is: an element in a group without a name bears the
// label too. There are as many groups as both lists have
// numbers, and a name ends where the names end.
pub fn part_in_force(groups: Groups, element: u32) -> Part
    ensures len_in_bounds { result.start + result.len ≤ length groups.entry.names.now }
    ensures names_value { take result.len (drop result.start groups.entry.names.now) ≡ name_in_force [] (groups_held groups.entry) element }
    ensures start_value { result.start ≡ place_in_force 0 0 (groups_held groups.entry) element }
{
    let mut part = Part { start: 0, len: 0 };
    let mut at = 0;
    for (&length, &before) in groups.lengths.iter().zip(groups.offsets) {
        let len = (length as usize).min(groups.names.len() - at);
        if before <= element {
            part = Part { start: at, len };
        }
        at += len;
    }
    part
}

// The name that an element bears, elements counted from 0: the part of the names that is in force there, or the label where that part is
// empty. The second clause says where the answer starts.
pub fn name_of<'a, 'l>(label: &'a [u8], groups: Groups<'a, 'l>, element: u32) -> &'a [u8]
    ensures result_value { result.now ≡ name_of label.now (groups_held groups.entry) element }
    ensures ref_ptr_value { result.ref_ptr ≡ place_of label.entry.ref_ptr groups.entry.names.ref_ptr (groups_held groups.entry) element }
{
    let part = part_in_force(groups, element);
    if part.len == 0 {
        return label;
    }
    let end = part.start + part.len;
    &groups.names[part.start..end]
}
