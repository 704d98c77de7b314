//! Every limit, with its unit and scope.
//!
//! Definitions and contracts cite these constants by name. Two laws at the end state their values
//! and the relations that the code needs.

ghost use Rattle.std.specs.Prelude.{◌≡◌, ◌<◌, ◌≤◌, ◌+◌, ◌*◌, ◌^◌};

// Rules: names, numbers and lists.

/// The most bytes of an id.
pub const LONGEST_ID: usize = 64;

/// The most bytes of a designator.
pub const LONGEST_DESIGNATOR: usize = 16;

/// The most pieces in a receipt, a scrap or a count.
pub const GREATEST_QUANTITY: u64 = 10_000_000;

/// The longest floor life on a level 6 label, in minutes: a year.
pub const GREATEST_LABEL: u64 = 525_600;

/// The last minute of the year 9999, counted from 1970-01-01T00:00Z.
pub const GREATEST_MINUTE: u64 = 4_223_371_679;

/// The most minutes that a command may be ahead of the desk minute: two weeks.
pub const FURTHEST_AHEAD: u64 = 20_160;

/// The most rows in a sheet or a count, and designators in a row or an install.
pub const LONGEST_LIST: usize = 5_000;

/// The most commands that a desk accepts.
pub const MOST_ENTRIES: u64 = 1_000_000_000;

/// The most boards in a kit.
pub const MOST_BOARDS: u64 = 100_000;

// Rules: input.

/// The most bytes of a line, a file and a request body. A line's ending (LF or CR LF) isn't
/// counted.
pub const LONGEST_INPUT: usize = 1_048_576;

/// The most digits of a quantity in an input file.
pub const MOST_DIGITS: usize = 8;

/// The most bytes of a request head, and of the unread input that is searched for one.
pub const HEAD_LIMIT: usize = 16_384;

/// The most header lines of a head, which is the room that `httparse` is given.
pub const MOST_HEADERS: usize = 64;

/// The most reads of one input: all lines of a run, or one connection.
pub const MOST_READS: u64 = 4_294_967_294;

/// The greatest port.
pub const MOST_PORT: u32 = 65_535;

/// The most connections in one run.
pub const MOST_CONNECTIONS: u32 = 1_000_000;

// Limits of this program.

/// The most bytes of one read of lines or a head, and of the buffer that holds them.
pub const BLOCK: usize = 65_536;

/// The most bytes joined for one write: a text with its line feed, or a response head with its
/// body.
pub const ONE_WRITE: usize = 4_096;

/// The page size of new files in bytes. A changed page goes whole to the log and later to the file.
/// Pages of 1,024 bytes save an eighth of the work of the kit's 4,096.
pub const PAGE_SIZE: usize = 1_024;

/// The value of each limit.
pub fn limits_have_their_numbers()
    ensures names { (LONGEST_ID ≡ 64) × (LONGEST_DESIGNATOR ≡ 16) }
    ensures pieces { (GREATEST_QUANTITY ≡ 10000000) × (MOST_DIGITS ≡ 8) }
    ensures minutes { (GREATEST_LABEL ≡ 525600) × (FURTHEST_AHEAD ≡ 20160)
        × (GREATEST_MINUTE ≡ 4223371679) }
    ensures lists { (LONGEST_LIST ≡ 5000) × (MOST_ENTRIES ≡ 1000000000) × (MOST_BOARDS ≡ 100000) }
    ensures inputs { (LONGEST_INPUT ≡ 1048576) × (MOST_READS ≡ 4294967294) × (HEAD_LIMIT ≡ 16384)
        × (MOST_HEADERS ≡ 64) × (MOST_PORT ≡ 65535) × (MOST_CONNECTIONS ≡ 1000000) }
    ensures blocks { (BLOCK ≡ 65536) × (ONE_WRITE ≡ 4096) × (PAGE_SIZE ≡ 1024) }
{}

/// The relations that the code needs: a head fits a block; one byte over the longest input, and a
/// count of rows, fit 32 bits; sums of pieces and of minutes fit 63 bits.
pub fn limits_fit_one_another()
    ensures heads { HEAD_LIMIT ≤ BLOCK }
    ensures inputs { LONGEST_INPUT + 2 < 2 ^ 32 }
    ensures pieces { GREATEST_QUANTITY * MOST_ENTRIES < 2 ^ 63 }
    ensures minutes { GREATEST_LABEL + GREATEST_MINUTE < 2 ^ 63 }
    ensures rows { LONGEST_LIST < 2 ^ 32 }
{}
