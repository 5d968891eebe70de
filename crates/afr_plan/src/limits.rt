//! The limits of a plan: the greatest value that each number, length or total may have.

use afr_base::{LONGEST_FILE, LONGEST_WRITE, MOST_CLIENTS, MOST_HEALERS};

/// The bricks of a volume that says no number.
pub const FEWEST_BRICKS: u8 = 3;

/// No volume of any shape has a brick from this number on.
pub const MOST_BRICKS: u8 = afr_base::MOST_BRICKS;

/// Opening files.
pub const FILES: u32 = 1000;

/// Turns, the turns of an order, the requests to a brick and the positions in a log.
pub const TURNS: u32 = 4_000_000;

pub const CLIENTS: u8 = MOST_CLIENTS as u8;

pub const HEALERS: u8 = MOST_HEALERS as u8;

/// The names of a path.
pub const PATH: u32 = 16;

/// The bytes of a name, a key or a value.
pub const WORD: usize = 255;

/// The bytes of a file, and each offset in one.
pub const FILE: u32 = LONGEST_FILE;

/// The bytes of one write or one read.
pub const PIECE: u32 = LONGEST_WRITE;

/// The commands of all clients together.
pub const COMMANDS: u32 = 16_384;

/// The commands `ls`.
pub const LISTINGS: u32 = 256;

/// The rounds of all healers, and as many faults, events and orders.
pub const SCHEDULE: u32 = 1024;

/// The ends of all writes together, in bytes.
pub const WRITTEN: usize = 268_435_456;

/// The lengths of all reads together, in bytes.
pub const READ: u32 = 67_108_864;
