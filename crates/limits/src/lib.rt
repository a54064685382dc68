// Inner: the limits of the definitions as constants of the code, each once. Those of `base`, `record_words` and `version` in `definitions`, of `lot_file` in
// `lot_format`, of `ample` in `lot_roundtrip_theory`, of `slip_limits` in `slip_format`, and `one_word_range` and `one_word_depth` in `cell_points`; a contract that cites the definition is what holds a constant to it.
#![tactic(auto)]

// The greatest depth, and so the finest level of an address.
pub const MAX_DEPTH: u32 = 8;

// A usable coordinate lies between these two.
pub const MAX_COORDINATE: i32 = 1048576;

pub const MIN_COORDINATE: i32 = -1048576;

pub const MAX_NODES: usize = 5000;

// The most elements of a mesh, and of a lot file.
pub const MAX_ELEMENTS: usize = 1000;

// The most bytes of a lot file, and of a label or a name.
pub const MAX_BYTES: usize = 65536;

pub const MAX_NAME: usize = 32;

// The words of a record.
pub const RECORD_WORDS: usize = 9;

// What numbers of one word are used for: the greatest depth, and coordinates between these two.
pub const ONE_WORD_DEPTH: u32 = 3;

pub const MAX_ONE_WORD_COORDINATE: i32 = 4096;

pub const MIN_ONE_WORD_COORDINATE: i32 = -4096;

// Lent space in which what any lot file holds has room: its coordinates, indices and bytes of names, and its groups.
pub const AMPLE_NODES: usize = 12288;

pub const AMPLE_ELEMENTS: usize = 8 * MAX_ELEMENTS;

pub const AMPLE_NAMES: usize = MAX_BYTES;

pub const AMPLE_GROUPS: usize = 16384;

// A slip: the depth of its inspection, the most elements that it prints, the words of their records, and the bytes in which it has room.
pub const SLIP_DEPTH: u32 = 3;

pub const SLIP_ELEMENTS: usize = 900;

pub const SLIP_WORDS: usize = RECORD_WORDS * SLIP_ELEMENTS;

pub const SLIP_BYTES: usize = 262144;

// The version of what a caller sees.
pub const VERSION: u32 = 2;
