// A lot as runs of numbers, handed in or lent: what travels together where lots are read, written, named and printed. No code.
// What a value stands for in the definitions is in `specs/Meaning.antt`. The runs are slices side by side, as C hands them in: there is no heap for lists of lists.
#![tactic(auto)]

// The groups of a lot: their names end to end, the length of each, and the count of elements before each. A name that is handed back is a part of the
// names alone, so that the numbers may be lent for less long.
#[derive(Clone, Copy)]
pub struct Groups<'a, 'l> {
    pub names: &'a [u8],
    pub lengths: &'l [u32],
    pub offsets: &'l [u32],
}

// A lot that is handed in: its label, three coordinates a node, eight indices an element, and its groups.
#[derive(Clone, Copy)]
pub struct Lot<'a> {
    pub label: &'a [u8],
    pub nodes: &'a [i32],
    pub elements: &'a [u32],
    pub groups: Groups<'a, 'a>,
}

// Lent space for what a lot holds.
#[derive(Drop)]
pub struct Space<'a> {
    pub nodes: &'a mut [i32],
    pub elements: &'a mut [u32],
    pub names: &'a mut [u8],
    pub lengths: &'a mut [u32],
    pub offsets: &'a mut [u32],
}
