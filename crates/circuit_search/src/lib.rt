// The lowest place on a circuit of tight places, and the first such circuit: an ordered depth-first search that never takes a mark back.
#![tactic(auto)]

ghost use Rattle.circuit_tight.specs.helpers.Lists.{Headed, Threaded};
ghost use Rattle.circuit_tight.specs.helpers.Entries.{nexts, sources, targets};

use circuit_tight::{LOOSE, Lists};
use net::TRANSITIONS;

// Every tight place, listed: the lists, and how many transitions and places there are.
#[derive(Clone, Copy)]
pub struct Ways<'a> {
    pub transitions: usize,
    pub places: usize,
    pub lists: &'a Lists,
    pub ghost threaded: { Threaded transitions places (nexts lists.now.entries) (sources lists.now.entries) (targets lists.now.entries) },
    pub ghost headed: { Headed transitions places lists.now.head (sources lists.now.entries) (targets lists.now.entries) },
}

// What a move leads to: another transition, the goal, or nowhere.
#[derive(Clone, Copy)]
pub enum Move {
    At(usize),
    Reached,
    GivenUp,
}

impl Ways<'_> {
    ghost use Rattle.std.specs.Prelude.{◌<◌};
    ghost use Rattle.circuit_tight.specs.helpers.Lists.{Listed};
    ghost use Rattle.circuit_search.specs.helpers.Turns.{Lowest, Sought, Tried, Turned, Under};
    ghost use Rattle.circuit_search.specs.helpers.Said.{of_ways};

    // One move from x: the next place of its list is tried. (Past the last one, x is given up.)
    fn turn(
        &self,
        root: usize,
        goal: usize,
        x: usize,
        seen: &mut [bool; TRANSITIONS],
        via: &mut [u16; TRANSITIONS],
        cur: &mut [u16; TRANSITIONS],
    ) -> Move
        requires { of_ways Under self.now root goal seen.old via.old cur.old x }
        ensures { of_ways Turned self.now root goal cur.old seen.new via.new cur.new result }
    {
        let q = usize::from(cur[x]);
        if q == self.places {
            cur[x] = (self.places + 1) as u16;
            if x == root {
                return Move::GivenUp;
            }
            let p = usize::from(via[x]);
            return Move::At(usize::from(self.lists.entries[p].source));
        }
        cur[x] = self.lists.entries[q].next;
        let y = usize::from(self.lists.entries[q].target);
        if y == goal {
            via[y] = q as u16;
            return Move::Reached;
        }
        if seen[y] {
            return Move::At(x);
        }
        seen[y] = true;
        via[y] = q as u16;
        Move::At(y)
    }

    // The first way from where p leads to back to where it leaves, noted in via: whether there is one.
    fn search(&self, p: usize, via: &mut [u16; TRANSITIONS]) -> bool
        requires { (p < self.now.places) × Listed (targets self.now.lists.now.entries) p }
        ensures { of_ways Sought self.now p via.new result }
    {
        let goal = usize::from(self.lists.entries[p].source);
        let root = usize::from(self.lists.entries[p].target);
        let mut seen = [false; TRANSITIONS];
        let mut cur = self.lists.head;
        seen[root] = true;
        let mut x = root;
        loop {
            match self.turn(root, goal, x, &mut seen, via, &mut cur) {
                Move::At(y) => x = y,
                Move::Reached => return true,
                Move::GivenUp => return false,
            }
        }
    }

    // Whether place p is listed and has a way back: then via notes the first.
    fn returns_to(&self, p: usize, via: &mut [u16; TRANSITIONS]) -> bool
        requires { p < self.now.places }
        ensures { of_ways Tried self.now p via.new result }
    {
        if self.lists.entries[p].target == LOOSE {
            return false;
        }
        self.search(p, via)
    }

    // The lowest place with a way back, the first such way noted in via.
    pub fn first(&self, via: &mut [u16; TRANSITIONS]) -> Option<usize>
        ensures { of_ways Lowest self.now via.new result }
    {
        for p in 0..self.places {
            if self.returns_to(p, via) {
                return Some(p);
            }
        }
        None
    }
}
