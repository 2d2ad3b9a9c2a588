// Row 8: the lowest node that is not joined to the source. Marks spread along the edges, pass after pass, until a pass marks nothing; a tour saves passes.
#![tactic(auto)]

ghost use Rattle.std.specs.Prelude.{◌<◌};
ghost use Rattle.net.specs.Rules.{row8};
ghost use Rattle.refusal.specs.helpers.Answers.{Finds};
ghost use Rattle.net.specs.helpers.Wirings.{wires_of};
ghost use Rattle.judge_joined.specs.helpers.Spreading.{Led, Marks, Passed, Reached, Spread};

use judge_tour::tour;
use net::NODES;
use net::wiring::Wiring;

// Where one end of edge k is marked, the other is marked too. The answer is whether a node has been marked, now or before.
fn spread(g: &Wiring, k: usize, seen: &mut [bool; NODES], changed: bool) -> bool
    requires reached { Reached g.now.edges g.now.from.now g.now.to.now seen.old }
    requires k_lt_e { k < g.now.edges }
    ensures { Spread g.now.edges g.now.from.now g.now.to.now k seen.old changed seen.new result }
{
    let a = usize::from(g.from[k]);
    let b = usize::from(g.to[k]);
    if seen[a] == seen[b] {
        return changed;
    }
    seen[a] = true;
    seen[b] = true;
    true
}

// Every edge once.
fn pass(g: &Wiring, seen: &mut [bool; NODES]) -> bool
    requires { Reached g.now.edges g.now.from.now g.now.to.now seen.old }
    ensures { Passed g.now.edges g.now.from.now g.now.to.now g.now.edges seen.old seen.new result }
{
    let mut changed = false;
    for k in 0..g.edges {
        changed = spread(g, k, seen, changed);
    }
    changed
}

// Edge k, if there is such an edge.
fn lead_by(g: &Wiring, k: usize, seen: &mut [bool; NODES])
    requires { Reached g.now.edges g.now.from.now g.now.to.now seen.old }
    ensures { Led g.now.edges g.now.from.now g.now.to.now seen.old seen.new }
{
    if k < g.edges {
        spread(g, k, seen, false);
    }
}

// The edges of a tour, in its order.
fn lead(g: &Wiring, by: &[u8; NODES], seen: &mut [bool; NODES])
    requires { Reached g.now.edges g.now.from.now g.now.to.now seen.old }
    ensures { Led g.now.edges g.now.from.now g.now.to.now seen.old seen.new }
{
    for k in &by[1..] {
        lead_by(g, usize::from(*k), seen);
    }
}

// The nodes that are joined to the source. Two passes are enough where edges stand in a good order. Where the second still marked a node, the marks
// spread along a tour, and passes follow until one marks nothing.
fn reach(g: &Wiring) -> [bool; NODES]
    ensures { Marks g.now.edges g.now.from.now g.now.to.now result }
{
    let mut seen = [false; NODES];
    seen[0] = true;
    if pass(g, &mut seen) && pass(g, &mut seen) {
        let by = tour(g);
        lead(g, &by, &mut seen);
        while pass(g, &mut seen) {}
    }
    seen
}

// The lowest node that is not joined to the source.
pub fn first_apart(g: &Wiring) -> Option<usize>
    ensures { Finds (row8 (wires_of g.now)) result }
{
    let seen = reach(g);
    seen[..g.operations + 2].iter().position(|met| !*met)
}
