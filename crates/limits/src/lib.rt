// How large everything may be. Each limit has its one name here, as a definition in specs/ and as a constant of the code; an
// array or a bound elsewhere is a product of these names.
#![tactic(auto)]

// A register: its rows and its columns.
pub const MOST_ROWS: usize = 1048576;

pub const MOST_COLUMNS: usize = 32;

// A column: its bits, and the slices of the widest.
pub const WIDEST: u8 = 32;

pub const MOST_SLICES: usize = 4;

// A file's end: a directory of so many bytes a column, and the trailer.
pub const ENTRY_BYTES: usize = 8;

pub const TRAILER_BYTES: usize = 16;

// A query: its tests, and what each decimal in its text stays below.
pub const MOST_TESTS: usize = 16;

pub const DECIMAL_LIMIT: u64 = 4294967296;

// Replies in numbers: a refusal's three, and then opening answers two, a call that writes one, reading two and three for each slot,
// scanning two and one for each.
pub const OPEN_NUMBERS: usize = 5;

pub const ANSWER_NUMBERS: usize = 4;

pub const READ_NUMBERS: usize = 5 + 3 * MOST_TESTS;

pub const SCAN_NUMBERS: usize = 5 + MOST_TESTS;

// A segment: its rows.
pub const LONGEST_SEGMENT: usize = 64;

// A scan: a standing for each test and row of a segment.
pub const STANDING_PLACES: usize = MOST_TESTS * LONGEST_SEGMENT;

// The writer: rows that it takes at a time, and codes of eight rows that it looks at at once.
pub const BLOCK_ROWS: usize = 256;

pub const LONGEST_PERIOD: usize = 8 * MOST_COLUMNS;

// The bits of a register's rows, in bytes.
pub const MOST_BITS: usize = MOST_ROWS / 8;

// Bytes that the program takes of a file, and of a query's text.
pub const MOST_FILE: usize = 65536;

pub const MOST_TEXT: usize = 4096;
