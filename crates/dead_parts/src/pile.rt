// A pile of transitions: the last to come is the first to go.
ghost use Rattle.std.specs.Prelude.{ℕ, ◌<◌, ◌≤◌, slice_index, IfSome};
ghost use Rattle.net.specs.Limits.{most_transitions};

use net::TRANSITIONS;

#[derive(Drop)]
pub struct Pile {
    items: [u8; TRANSITIONS],
    height: usize,
    ghost within: { height ≤ most_transitions },
    ghost transitions: { (k : ℕ) → k < most_transitions → slice_index items k < most_transitions },
}

impl Pile {
    // No transition yet.
    pub fn new() -> Self {
        Pile {
            items: [0; TRANSITIONS],
            height: 0,
        }
    }

    // t joins. A full pile has no room for it.
    pub fn push(&mut self, t: usize)
        requires { t < most_transitions }
    {
        if self.height < TRANSITIONS {
            self.items[self.height] = t as u8;
            self.height += 1;
        }
    }

    // The last to come.
    pub fn last(&self) -> Option<usize>
        ensures { IfSome result (λ t. t < most_transitions) }
    {
        let top = self.height.checked_sub(1)?;
        Some(usize::from(self.items[top]))
    }

    // It goes.
    pub fn pop(&mut self) -> Option<usize>
        ensures { IfSome result (λ t. (t < most_transitions) × (self.new.height < self.old.height)) }
    {
        let top = self.height.checked_sub(1)?;
        self.height = top;
        Some(usize::from(self.items[top]))
    }
}
