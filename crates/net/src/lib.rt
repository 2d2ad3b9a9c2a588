// The computational graph, over the operation count and the rows of the edges.
#![tactic(auto)]

pub mod ends;
pub mod rows;
pub mod wiring;

// The fewest and the most operations and edges: arrays have room for the most.
pub const FEWEST_OPERATIONS: usize = 1;

pub const OPERATIONS: usize = 40;

pub const FEWEST_EDGES: usize = 2;

pub const EDGES: usize = 128;

// The shortest and the longest time of an operation.
pub const SHORTEST_TIME: u32 = 1;

pub const TIME: u32 = 1_000_000;

// The source, the operations and the sink.
pub const NODES: usize = OPERATIONS + 2;

pub const TRANSITIONS: usize = 3 * OPERATIONS + 2;

pub const PLACES: usize = 3 * OPERATIONS + 2 * EDGES;
