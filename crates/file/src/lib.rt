// A file: its sizes, and its frame, rows 1 to 4.
#![tactic(auto)]

pub mod frame;

use file_trailer::TRAILER;

// The bytes of an operation's record, and of an edge's.
pub const OPERATION: usize = 12;

pub const EDGE: usize = 4;

// The shortest file is a trailer alone, and too short for a table.
pub const SHORTEST: usize = TRAILER;

// The longest file.
pub const LENGTH: usize = 2048;

// The last bytes of a file.
pub const MAGIC: [u8; 4] = *b"AMG1";
