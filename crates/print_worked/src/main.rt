// Inspects the worked elements of the scope document, one that names a node three times and two as large as they can be, and prints their records at every depth, and
// their bounds where these are worked in no time: to depth 5, and of case F to depth 8.
#![tactic(auto)]

use limits::{MAX_DEPTH, RECORD_WORDS};
use std::fmt;
use wide_number::Wide;

// A worked element: its eight points, its indices, and the depth to which its bounds are printed.
#[derive(Clone, Copy)]
struct Case {
    name: &'static str,
    points: [i32; 24],
    indices: [u32; 8],
    bounds_to: u32,
}

const UNIT_CUBE: [i32; 24] = [
    0, 0, 0, 1, 0, 0, 1, 1, 0, 0, 1, 0, 0, 0, 1, 1, 0, 1, 1, 1, 1, 0, 1, 1,
];

// The indices of eight nodes in order.
const IN_ORDER: [u32; 8] = [0, 1, 2, 3, 4, 5, 6, 7];

const CASES: [Case; 13] = [
    Case {
        name: "A  unit cube",
        points: UNIT_CUBE,
        indices: IN_ORDER,
        bounds_to: 5,
    },
    Case {
        name: "B  all eight nodes at one point",
        points: [
            5, 5, 5, 5, 5, 5, 5, 5, 5, 5, 5, 5, 5, 5, 5, 5, 5, 5, 5, 5, 5, 5, 5, 5,
        ],
        indices: IN_ORDER,
        bounds_to: 5,
    },
    Case {
        name: "C  unit cube, nodes 1-4 exchanged with 5-8",
        points: [
            0, 0, 1, 1, 0, 1, 1, 1, 1, 0, 1, 1, 0, 0, 0, 1, 0, 0, 1, 1, 0, 0, 1, 0,
        ],
        indices: IN_ORDER,
        bounds_to: 5,
    },
    Case {
        name: "D  flat square, top turned by a quarter",
        points: [
            -1, -1, 0, 1, -1, 0, 1, 1, 0, -1, 1, 0, 1, -1, 1, 1, 1, 1, -1, 1, 1, -1, -1, 1,
        ],
        indices: IN_ORDER,
        bounds_to: 5,
    },
    Case {
        name: "E  flat square, top turned by a half",
        points: [
            -1, -1, 0, 1, -1, 0, 1, 1, 0, -1, 1, 0, 1, 1, 1, -1, 1, 1, -1, -1, 1, 1, -1, 1,
        ],
        indices: IN_ORDER,
        bounds_to: 5,
    },
    Case {
        name: "F  as E, the top twice as wide",
        points: [
            -1, -1, 0, 1, -1, 0, 1, 1, 0, -1, 1, 0, 2, 2, 1, -2, 2, 1, -2, -2, 1, 2, -2, 1,
        ],
        indices: IN_ORDER,
        bounds_to: 8,
    },
    Case {
        name: "G  cube of side 3 with node 1 at (1,1,1)",
        points: [
            1, 1, 1, 3, 0, 0, 3, 3, 0, 0, 3, 0, 0, 0, 3, 3, 0, 3, 3, 3, 3, 0, 3, 3,
        ],
        indices: IN_ORDER,
        bounds_to: 5,
    },
    Case {
        name: "H  unit cube with node 3's y at 1,048,577",
        points: [
            0, 0, 0, 1, 0, 0, 1, 1048577, 0, 0, 1, 0, 0, 0, 1, 1, 0, 1, 1, 1, 1, 0, 1, 1,
        ],
        indices: IN_ORDER,
        bounds_to: 5,
    },
    Case {
        name: "   cube from -1,048,576 to 1,048,576",
        points: [
            -1048576, -1048576, -1048576, 1048576, -1048576, -1048576, 1048576, 1048576, -1048576,
            -1048576, 1048576, -1048576, -1048576, -1048576, 1048576, 1048576, -1048576, 1048576,
            1048576, 1048576, 1048576, -1048576, 1048576, 1048576,
        ],
        indices: IN_ORDER,
        bounds_to: 5,
    },
    Case {
        name: "I  unit cube with its fourth index 8",
        points: UNIT_CUBE,
        indices: [0, 1, 2, 8, 4, 5, 6, 7],
        bounds_to: 5,
    },
    Case {
        name: "No. 5 of 02: unit cube with index 1 in places 2, 4 and 6; the bounds are of its eight nodes in order",
        points: UNIT_CUBE,
        indices: [0, 1, 2, 1, 4, 1, 6, 7],
        bounds_to: 5,
    },
    Case {
        name: "cube from -1,048,576 to 1,048,575, nodes 1-4 exchanged with 5-8",
        points: [
            -1048576, -1048576, 1048575, 1048575, -1048576, 1048575, 1048575, 1048575, 1048575,
            -1048576, 1048575, 1048575, -1048576, -1048576, -1048576, 1048575, -1048576, -1048576,
            1048575, 1048575, -1048576, -1048576, 1048575, -1048576,
        ],
        indices: IN_ORDER,
        bounds_to: 5,
    },
    Case {
        name: "F as large as it can be",
        points: [
            -524288, -524288, 0, 524288, -524288, 0, 524288, 524288, 0, -524288, 524288, 0,
            1048576, 1048576, 524288, -1048576, 1048576, 524288, -1048576, -1048576, 524288,
            1048576, -1048576, 524288,
        ],
        indices: IN_ORDER,
        bounds_to: 5,
    },
];

// A bound: as one number where one word holds it, else by both words.
#[derive(Clone, Copy)]
struct Bound(Wide);

impl fmt::Display for Bound {
    fn fmt<W: fmt::Write>(&self, f: &mut fmt::Formatter<W>) -> fmt::Result {
        let Some(number) = self.0.to_i64() else {
            let high = wide_number::signed(self.0.high);
            let low = self.0.low;
            return write!(f, "{high} * 2^64 + {low}");
        };
        write!(f, "{number}")
    }
}

// What word 0 of a record says, which is a number there.
fn verdict(kind: i64) -> &'static str {
    match kind {
        0 => "valid",
        1 => "invalid",
        2 => "undecided",
        _ => "refused",
    }
}

// What prints drops each answer: where a write fails, the others are tried all the same, and the program ends as if it had not.
fn print_bounds(rt: &impl Print, points: [i32; 24], depth: u32) {
    let _ = match inspector::bounds_of(points, depth) {
        Ok(b) => print!(rt; ", bounds {} and {}", Bound(b.low), Bound(b.high)),
        Err(refusal) => {
            let number = u32::from(refusal);
            print!(rt; ", bounds refused: {number}")
        }
    };
}

// A case at one depth: its record, and its bounds as far as they are printed.
fn print_line(rt: &impl Print, case: &Case, depth: u32) {
    let mut report = [0; RECORD_WORDS];
    // The record says all that is printed.
    let _ = inspector::inspect(&case.points, &case.indices, depth, &mut report);
    let _ = print!(rt; "   depth {depth}:");
    for w in report {
        let _ = print!(rt; " {w}");
    }
    let _ = print!(rt; "   {}", verdict(report[0]));
    if depth <= case.bounds_to {
        print_bounds(rt, case.points, depth);
    }
    let _ = println!(rt; "");
}

// A case at every depth.
fn print_case(rt: &impl Print, case: &Case) {
    let _ = println!(rt; "{}", case.name);
    for depth in 0..=MAX_DEPTH {
        print_line(rt, case, depth);
    }
}

fn main(rt: HostRuntime) {
    let _ = println!(rt;
        "Each record has nine words: kind (0 valid, 1 invalid, 2 undecided, 5 to 7 refused); level, or place of the fault;"
    );
    let _ = println!(rt;
        "three grid numbers of the point or cell, or the index, axis or second place at fault; corner or coefficient number; its value"
    );
    let _ = println!(rt;
        "times 8 * 64^level, low word and high word; cells opened. Both bounds are times 8 * 64^depth."
    );
    let _ = println!(rt; "");
    for case in &CASES {
        print_case(&rt, case);
    }
}
