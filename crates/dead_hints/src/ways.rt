// The way to each transition: the empty place by which a search from one transition first reaches it.
ghost use Rattle.std.specs.Prelude.{◌<◌, ◌≤◌};
ghost use Rattle.net.specs.Limits.{most_transitions};

use dead_lists::Lists;
use net::TRANSITIONS;

// The search so far: the place by which each transition was first reached, as its number plus one (0 for none), and the transitions reached, in that order.
#[derive(Drop)]
struct Search<'a> {
    lists: &'a Lists,
    via: [u16; TRANSITIONS],
    queue: [u8; TRANSITIONS],
    end: usize,
    ghost within: { end ≤ most_transitions },
}

impl Search<'_> {
    // t joins the queue.
    fn push(&mut self, t: usize)
        requires { t < most_transitions }
    {
        let end = self.end;
        if end < TRANSITIONS {
            self.queue[end] = t as u8;
            self.end = end + 1;
        }
    }

    // Place p leads to t: the first to do so is noted, and t joins the queue.
    fn note(&mut self, p: u16, t: usize)
        requires { t < most_transitions }
    {
        if self.via[t] == 0 {
            self.via[t] = p.saturating_add(1);
            self.push(t);
        }
    }

    // The places from t.
    fn spread(&mut self, t: usize) {
        let mut next = self.lists.first(t);
        while let Some(p) = next {
            if let Some(u) = self.lists.goal(p) {
                self.note(p, u);
            }
            next = self.lists.after(p);
        }
    }

    // The places from each transition of the queue. Others join it on the way, so no range says where it ends.
    fn reach(&mut self) {
        let mut done = 0;
        while done < self.end {
            self.spread(usize::from(self.queue[done]));
            done += 1;
        }
    }
}

// The empty place by which each transition is first reached from t, t itself too: its number plus one, 0 where it is not.
pub fn ways(lists: &Lists, t: usize) -> [u16; TRANSITIONS]
    requires { t < most_transitions }
{
    let mut search = Search {
        lists,
        via: [0; TRANSITIONS],
        queue: [0; TRANSITIONS],
        end: 0,
    };
    search.push(t);
    search.reach();
    search.via
}
