// The groups of a lot as they are handed in: their tests, which the writer and the namer share. An inner crate.
// Every answer is an equation with `Groups` of the crate `lot_format`.
#![tactic(auto)]

ghost use Rattle.std.specs.Prelude.{◌≡◌, eqb, length};
ghost use Rattle.foundation.specs.Lists.{sum};
ghost use Rattle.lot_format.specs.Format.{lot_file};
ghost use Rattle.lot_format.specs.Groups.{rising, fit_together, all_up_to, short_names, clean_names};
ghost use Rattle.lot_groups.specs.Meaning.{first_fault, fault_told};

use limits::MAX_NAME;
use lot_runs::Groups;

// What is wrong with a label and groups.
#[derive(Clone, Copy, Debug, PartialEq, Eq)]
pub enum GroupFault {
    Apart,
    NameTooLong,
    BadByte,
}

// Whether lengths add up to n.
fn add_up(lengths: &[u32], n: usize) -> bool
    ensures { result ≡ eqb (sum lengths.now) n }
{
    let mut left = n;
    for &length in lengths {
        let Some(rest) = left.checked_sub(length as usize) else {
            return false;
        };
        left = rest;
    }
    left == 0
}

// Whether counts don't fall and don't pass n.
fn rise(offsets: &[u32], n: usize) -> bool
    ensures { result ≡ rising 0 n offsets.now }
{
    let mut low = 0;
    for &offset in offsets {
        let before = offset as usize;
        if before < low || n < before {
            return false;
        }
        low = before;
    }
    true
}

// Whether no length passes n.
fn up_to(lengths: &[u32], n: usize) -> bool
    ensures { result ≡ all_up_to n lengths.now }
{
    lengths.iter().all(|length| *length as usize <= n)
}

// Whether groups fit together, where there are so many elements.
pub fn fit_together(groups: Groups, elements: usize) -> bool
    ensures { result ≡ fit_together groups.entry.lengths.now groups.entry.offsets.now (length groups.entry.names.now) elements }
{
    groups.lengths.len() == groups.offsets.len()
        && add_up(groups.lengths, groups.names.len())
        && rise(groups.offsets, elements)
}

// Whether the label and the names are short enough.
pub fn short_names(label: &[u8], groups: Groups) -> bool
    ensures { result ≡ short_names lot_file (length label.now) groups.entry.lengths.now }
{
    label.len() <= MAX_NAME && up_to(groups.lengths, MAX_NAME)
}

// Whether all bytes of the label and of the names may stand there.
pub fn clean_names(label: &[u8], groups: Groups) -> bool
    ensures { result ≡ clean_names label.now groups.entry.names.now }
{
    lot_entry_reader::name_bytes(label) && lot_entry_reader::name_bytes(groups.names)
}

// The first test that fails: the groups do not fit together, the label or a name is too long, a byte of them is wrong.
pub fn check(label: &[u8], groups: Groups, elements: usize) -> Result<(), GroupFault>
    ensures { fault_told result ≡ first_fault label.now groups.entry elements }
{
    if !fit_together(groups, elements) {
        return Err(GroupFault::Apart);
    }
    if !short_names(label, groups) {
        return Err(GroupFault::NameTooLong);
    }
    if !clean_names(label, groups) {
        return Err(GroupFault::BadByte);
    }
    Ok(())
}
