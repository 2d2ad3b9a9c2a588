// A graph as its tables have it, lent: whole, before the rules 5 to 9 are asked; a wiring with its marks; and what a call is lent of an accepted graph.
ghost use Rattle.net.specs.Limits.{Counted};
ghost use Rattle.net.specs.Good.{Marked};

use crate::wiring::Wiring;
use crate::{EDGES, OPERATIONS};

// The counts, within their limits, the time of each operation, and the four bytes of each edge, whatever they are.
#[derive(Clone, Copy)]
pub struct Rows<'a> {
    pub operations: usize,
    pub edges: usize,
    pub times: &'a [u32; OPERATIONS],
    pub from: &'a [u8; EDGES],
    pub to: &'a [u8; EDGES],
    pub mark: &'a [u8; EDGES],
    pub buffers: &'a [u8; EDGES],
    pub ghost counted: { Counted operations edges },
}

// A wiring, and the mark of each edge: 0 or 1.
#[derive(Clone, Copy)]
pub struct Plotted<'a> {
    pub wiring: Wiring<'a>,
    pub mark: &'a [u8; EDGES],
    pub ghost marked: { Marked wiring.operations wiring.edges mark.now },
}

// What is lent of an accepted graph: its wiring and marks, the time of each operation, and the fourth byte of each edge. That it is good is asked by a
// clause (`IsGood`): joins and circuits can have several proofs, and what a ghost field says has one.
#[derive(Clone, Copy)]
pub struct Accepted<'a> {
    pub plotted: Plotted<'a>,
    pub times: &'a [u32; OPERATIONS],
    pub buffers: &'a [u8; EDGES],
}
