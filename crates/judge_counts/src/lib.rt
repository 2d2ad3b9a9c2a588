// Row 3: how many operations and edges a graph may have, wherever its counts come from.
#![tactic(auto)]

ghost use Rattle.refusal.specs.helpers.Answers.{Says};
ghost use Rattle.net.specs.Limits.{Counted};

use net::{EDGES, FEWEST_EDGES, FEWEST_OPERATIONS, OPERATIONS};

// Whether n operations and e edges are within their limits.
pub fn counted(n: usize, e: usize) -> bool
    ensures { Says (Counted n e) result }
{
    (FEWEST_OPERATIONS..=OPERATIONS).contains(&n) && (FEWEST_EDGES..=EDGES).contains(&e)
}
