// The table's rows without their zeros: for each row the list of its non-zero places with their numbers (document 02, No. 3), the 27 lists
// laid end to end.
ghost use Rattle.std.specs.Prelude.{◌≡◌, ◌<◌};
ghost use Rattle.coefficient_table.specs.Sparse.{sparse_row, AreSparseRuns};

// The 27 lists laid end to end, and where each starts and, last, where the 27th ends.
#[derive(Clone, Copy)]
pub struct SparseRows {
    pub starts: &'static [usize; 28],
    pub terms: &'static [(usize, i64); 112],
}

// Where each row's list starts and, last, where the 27th ends. (27 slices in one array would be held to the definition only by names that the compiler
// makes.)
const STARTS: [usize; 28] = [
    0, // 1: corner 1
    1, // 2: corner 2
    2, // 3: corner 3
    3, // 4: corner 4
    4, // 5: corner 5
    5, // 6: corner 6
    6, // 7: corner 7
    7, // 8: corner 8
    8, // 9: edge 1-2
    11, // 10: edge 2-3
    14, // 11: edge 3-4
    17, // 12: edge 1-4
    20, // 13: edge 1-5
    23, // 14: edge 2-6
    26, // 15: edge 3-7
    29, // 16: edge 4-8
    32, // 17: edge 5-6
    35, // 18: edge 6-7
    38, // 19: edge 7-8
    41, // 20: edge 5-8
    44, // 21: face 1234
    52, // 22: face 1256
    60, // 23: face 2367
    68, // 24: face 3478
    76, // 25: face 1458
    84, // 26: face 5678
    92, // 27: the centre
    112, // the end
];

// The places, from 0, each with the number that stands there. A row's number and name stand at its first one.
const TERMS: [(usize, i64); 112] = [
    (0, 8), // 1: corner 1
    (1, 8), // 2: corner 2
    (2, 8), // 3: corner 3
    (3, 8), // 4: corner 4
    (4, 8), // 5: corner 5
    (5, 8), // 6: corner 6
    (6, 8), // 7: corner 7
    (7, 8), // 8: corner 8
    (0, -4), // 9: edge 1-2
    (1, -4),
    (8, 4),
    (1, -4), // 10: edge 2-3
    (2, -4),
    (9, 4),
    (2, -4), // 11: edge 3-4
    (3, -4),
    (10, 4),
    (0, -4), // 12: edge 1-4
    (3, -4),
    (11, 4),
    (0, -4), // 13: edge 1-5
    (4, -4),
    (12, 4),
    (1, -4), // 14: edge 2-6
    (5, -4),
    (13, 4),
    (2, -4), // 15: edge 3-7
    (6, -4),
    (14, 4),
    (3, -4), // 16: edge 4-8
    (7, -4),
    (15, 4),
    (4, -4), // 17: edge 5-6
    (5, -4),
    (16, 4),
    (5, -4), // 18: edge 6-7
    (6, -4),
    (17, 4),
    (6, -4), // 19: edge 7-8
    (7, -4),
    (18, 4),
    (4, -4), // 20: edge 5-8
    (7, -4),
    (19, 4),
    (0, -6), // 21: face 1234
    (1, -6),
    (2, -6),
    (3, -6),
    (8, 2),
    (9, 2),
    (10, 2),
    (11, 2),
    (0, -6), // 22: face 1256
    (1, -6),
    (4, -6),
    (5, -6),
    (8, 2),
    (12, 2),
    (13, 2),
    (16, 2),
    (1, -6), // 23: face 2367
    (2, -6),
    (5, -6),
    (6, -6),
    (9, 2),
    (13, 2),
    (14, 2),
    (17, 2),
    (2, -6), // 24: face 3478
    (3, -6),
    (6, -6),
    (7, -6),
    (10, 2),
    (14, 2),
    (15, 2),
    (18, 2),
    (0, -6), // 25: face 1458
    (3, -6),
    (4, -6),
    (7, -6),
    (11, 2),
    (12, 2),
    (15, 2),
    (19, 2),
    (4, -6), // 26: face 5678
    (5, -6),
    (6, -6),
    (7, -6),
    (16, 2),
    (17, 2),
    (18, 2),
    (19, 2),
    (0, -5), // 27: the centre
    (1, -5),
    (2, -5),
    (3, -5),
    (4, -5),
    (5, -5),
    (6, -5),
    (7, -5),
    (8, 1),
    (9, 1),
    (10, 1),
    (11, 1),
    (12, 1),
    (13, 1),
    (14, 1),
    (15, 1),
    (16, 1),
    (17, 1),
    (18, 1),
    (19, 1),
];

// The 27 lists.
pub fn lists() -> SparseRows
    ensures { AreSparseRuns result.starts.now result.terms.now }
{
    SparseRows {
        starts: &STARTS,
        terms: &TERMS,
    }
}

// The list of row n, counted from 0.
pub fn row(n: usize) -> &'static [(usize, i64)]
    requires { n < 27 }
    ensures { result.now ≡ sparse_row n }
{
    let SparseRows { starts, terms } = lists();
    &terms[starts[n]..starts[n + 1]]
}
