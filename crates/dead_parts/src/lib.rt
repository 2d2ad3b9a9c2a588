// Levels by strong components, found by a depth-first search (Tarjan): transitions of one component share a level, and an empty place out of it leads higher.
#![tactic(auto)]

mod pile;

ghost use Rattle.std.specs.Prelude.{◌<◌};
ghost use Rattle.net.specs.Limits.{most_transitions};

use dead_lists::Lists;
use net::wiring::Wiring;
use net::{PLACES, TRANSITIONS};
use pile::Pile;

// The level of the first component, which leads to no other. Each later one gets the next lower: all stay above the numbers of the search.
const TOP: u8 = u8::MAX;

// A search from one transition takes a move for each place and for each transition at most.
const MOVES: usize = PLACES + TRANSITIONS;

// How far the search is.
#[derive(Drop)]
struct Search<'a> {
    // The empty places, and of each transition that was met the first that is not yet taken: its number plus one, 0 for none.
    lists: &'a Lists,
    left: [u16; TRANSITIONS],
    // Each transition met has a number, in the order of meeting; `last` was given last.
    number: [u8; TRANSITIONS],
    last: u8,
    // Until a transition is placed, its level is the lowest number that it is known to reach, and 0 before it is met: a level is weighed later as a plain number.
    // `lowest` is the level of the next component.
    level: [u8; TRANSITIONS],
    lowest: u8,
    // The way to where the search is, and the transitions met and not yet placed.
    path: Pile,
    pile: Pile,
}

// A place's number plus one, 0 for none.
fn entry(place: Option<u16>) -> u16 {
    place.map_or(0, |p| p.saturating_add(1))
}

impl Search<'_> {
    // t is numbered, with all its places left to take, and joins path and pile.
    fn enter(&mut self, t: usize)
        requires { t < most_transitions }
    {
        self.last = self.last.saturating_add(1);
        self.number[t] = self.last;
        self.level[t] = self.last;
        self.left[t] = entry(self.lists.first(t));
        self.path.push(t);
        self.pile.push(t);
    }

    // t reaches a transition of level x. One that is placed lowers nothing.
    fn lower(&mut self, t: usize, x: u8)
        requires { t < most_transitions }
    {
        self.level[t] = self.level[t].min(x);
    }

    // A place from t leads to u.
    fn meet(&mut self, t: usize, u: usize)
        requires { (t < most_transitions) × (u < most_transitions) }
    {
        if self.level[u] == 0 {
            self.enter(u);
        } else {
            self.lower(t, self.level[u]);
        }
    }

    // The pile down to t is a component. Its level is below those placed before, since it may lead to them.
    fn place(&mut self, t: usize) {
        while let Some(u) = self.pile.pop() {
            self.level[u] = self.lowest;
            if u == t {
                break;
            }
        }
        self.lowest = self.lowest.saturating_sub(1);
    }

    // Every place from t, the end of the path, has been met: t completes a component, or what it reaches, the transition before it on the path reaches too.
    fn leave(&mut self, t: usize)
        requires { t < most_transitions }
    {
        let _ = self.path.pop();
        if self.level[t] == self.number[t] {
            self.place(t);
        } else if let Some(s) = self.path.last() {
            self.lower(s, self.level[t]);
        }
    }

    // One move from t, the end of the path: along its next place, or back where there is none.
    fn advance(&mut self, t: usize)
        requires { t < most_transitions }
    {
        let Some(p) = self.left[t].checked_sub(1) else {
            self.leave(t);
            return;
        };
        self.left[t] = entry(self.lists.after(p));
        if let Some(u) = self.lists.goal(p) {
            self.meet(t, u);
        }
    }

    // The search from t, unless it has been met: moves until the path is empty.
    fn begin(&mut self, t: usize)
        requires { t < most_transitions }
    {
        if self.level[t] != 0 {
            return;
        }
        self.enter(t);
        for _ in 0..MOVES {
            let Some(u) = self.path.last() else {
                return;
            };
            self.advance(u);
        }
    }
}

// A level for each transition, by the lists of the empty places. An empty place leads to a higher one, or stays in its component.
pub fn part_levels(g: &Wiring, lists: &Lists) -> [u8; TRANSITIONS] {
    let mut search = Search {
        lists,
        left: [0; TRANSITIONS],
        number: [0; TRANSITIONS],
        last: 0,
        level: [0; TRANSITIONS],
        lowest: TOP,
        path: Pile::new(),
        pile: Pile::new(),
    };
    for t in 0..g.transitions() {
        search.begin(t);
    }
    search.level
}
