// Naming an element: the service `name_of`, and `refusal_of` for callers that want only whether there is a name. Nothing has to be checked first: each
// takes any lists and numbers, and states its whole answer as equations with `Naming` of the crate `lot_format` at the limits `lot_file`.
#![tactic(auto)]

ghost use Rattle.std.specs.Prelude.{◌≡◌, IfOk};
ghost use Rattle.lot_format.specs.Format.{lot_file};
ghost use Rattle.lot_format.specs.Naming.{unnamed_number};
ghost use Rattle.lot_runs.specs.Meaning.{groups_held};
ghost use Rattle.lot_group_names.specs.Place.{place_of};
ghost use Rattle.lot_naming.specs.Meaning.{unnamed_of, unnamed_held, naming_of, refusal_in, refusal_told, naming_told};

use lot_groups::GroupFault;
use lot_runs::Groups;

// Why an element has no name.
#[derive(Clone, Copy, Debug, PartialEq, Eq)]
pub enum Unnamed {
    GroupsApart,
    NameTooLong,
    BadByte,
    NoSuchElement,
}

// The refusal for a fault of the label or the groups.
impl From<GroupFault> for Unnamed {
    ghost from_gives = { λ f r. r ≡ unnamed_of f };

    fn from(f: GroupFault) -> Unnamed {
        match f {
            GroupFault::Apart => Unnamed::GroupsApart,
            GroupFault::NameTooLong => Unnamed::NameTooLong,
            GroupFault::BadByte => Unnamed::BadByte,
        }
    }
}

// The number of a refusal.
impl From<Unnamed> for u32 {
    ghost from_gives = { λ r n. n ≡ unnamed_number (unnamed_held r) };

    fn from(r: Unnamed) -> u32 {
        match r {
            Unnamed::GroupsApart => 24,
            Unnamed::NameTooLong => 23,
            Unnamed::BadByte => 25,
            Unnamed::NoSuchElement => 28,
        }
    }
}

// The first test that fails, where an element of so many has no name: the groups do not fit together, the label or a name is too long, a byte
// of them is wrong, there is no such element.
pub fn refusal_of(label: &[u8], groups: Groups, elements: u32, element: u32) -> Result<(), Unnamed>
    ensures { refusal_told result ≡ refusal_in (naming_of lot_file label.now groups.entry elements element) }
{
    lot_groups::check(label, groups, elements as usize)?;
    if elements <= element {
        return Err(Unnamed::NoSuchElement);
    }
    Ok(())
}

// The name that an element of so many bears, elements counted from 0: the part of the names that is in force there, or the label where that
// part is empty; or why it has none. The last clause says where the name starts.
pub fn name_of<'a, 'l>(
    label: &'a [u8],
    groups: Groups<'a, 'l>,
    elements: u32,
    element: u32,
) -> Result<&'a [u8], Unnamed>
    ensures result_value { naming_told result ≡ naming_of lot_file label.now groups.entry elements element }
    ensures ref_ptr_value { IfOk result (λ name. name.ref_ptr ≡ place_of label.entry.ref_ptr groups.entry.names.ref_ptr (groups_held groups.entry) element) }
{
    refusal_of(label, groups, elements, element)?;
    Ok(lot_group_names::name_of(label, groups, element))
}
