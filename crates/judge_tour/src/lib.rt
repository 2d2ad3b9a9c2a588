// A hint for row 8: the edge by which a search from the source first reaches each node, in the order of the search. Only proved safe.
#![tactic(auto)]

ghost use Rattle.std.specs.Prelude.{◌<◌, ◌≤◌};
ghost use Rattle.net.specs.Limits.{most_nodes};

use net::wiring::Wiring;
use net::{EDGES, NODES};

// Both ends of every edge: end 2k is the one that edge k leaves, and 2k + 1 the one that it enters.
const ENDS: usize = 2 * EDGES;

// The ends in lists by node: the first at each node, and behind each end the next at the same node. An entry is an end's number plus one, 0 for none: one
// number is written and read at once, where an Option is written in two parts and read when both have come.
#[derive(Drop)]
struct Lists {
    head: [u16; NODES],
    next: [u16; ENDS],
}

// The end of an entry.
fn end(entry: u16) -> Option<u8> {
    u8::try_from(entry.checked_sub(1)?).ok()
}

impl Lists {
    // End q heads the list of node v.
    fn link(&mut self, v: usize, q: u8)
        requires { v < most_nodes }
    {
        self.next[usize::from(q)] = self.head[v];
        self.head[v] = u16::from(q) + 1;
    }

    // Both ends of every edge.
    fn link_edges(&mut self, g: &Wiring) {
        for k in 0..g.edges {
            self.link(usize::from(g.from[k]), (2 * k) as u8);
            self.link(usize::from(g.to[k]), (2 * k + 1) as u8);
        }
    }
}

// The node at the other end of the edge of end q.
fn across(q: u8, g: &Wiring) -> usize {
    let others = if q % 2 == 0 { g.to } else { g.from };
    usize::from(others[usize::from(q / 2)])
}

// The nodes met so far, in a queue, and the edge that led to each; the queue has room for every node.
#[derive(Drop)]
struct Search {
    met: [bool; NODES],
    queue: [u8; NODES],
    by: [u8; NODES],
    end: usize,
    ghost room: { end ≤ most_nodes },
}

impl Search {
    // The node that end q leads to joins the queue, with the edge, unless it was met before.
    fn meet(&mut self, q: u8, g: &Wiring) {
        let u = across(q, g);
        if u >= NODES || self.met[u] || self.end >= NODES {
            return;
        }
        self.met[u] = true;
        self.queue[self.end] = u as u8;
        self.by[self.end] = q / 2;
        self.end += 1;
    }

    // The ends at node v: a list has no more than there are.
    fn visit(&mut self, v: usize, g: &Wiring, lists: &Lists) {
        if v >= NODES {
            return;
        }
        let mut first = lists.head[v];
        for _ in 0..ENDS {
            let Some(q) = end(first) else {
                return;
            };
            self.meet(q, g);
            first = lists.next[usize::from(q)];
        }
    }

    // The nodes of the queue, which grows meanwhile.
    fn visit_all(&mut self, g: &Wiring, lists: &Lists) {
        for done in 0..NODES {
            if done >= self.end {
                return;
            }
            self.visit(usize::from(self.queue[done]), g, lists);
        }
    }
}

// The edges by which nodes are reached, the first of them at 1. Entries that are left over are 0.
pub fn tour(g: &Wiring) -> [u8; NODES] {
    let mut lists = Lists {
        head: [0; NODES],
        next: [0; ENDS],
    };
    lists.link_edges(g);
    let mut search = Search {
        met: [false; NODES],
        queue: [0; NODES],
        by: [0; NODES],
        end: 1,
    };
    search.met[0] = true;
    search.visit_all(g, &lists);
    search.by
}
