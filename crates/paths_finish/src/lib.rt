// When each node is done, if nothing but data is waited for: longest paths, by raising the targets of the edges until nothing changes.
#![tactic(auto)]

ghost use Rattle.std.specs.Prelude.{◌≡◌, ◌<◌};
ghost use Rattle.marked.specs.Net.{at};
ghost use Rattle.net.specs.Plan.{time_at};
ghost use Rattle.paths_finish.specs.Modified.{node_time};
ghost use Rattle.net.specs.Limits.{most_nodes};
ghost use Rattle.paths_finish.specs.helpers.Finishing.{AllDone, Backed, EdgesSwept, Finished, Lifted, offered_by};
ghost use Rattle.net.specs.helpers.Tables.{accepted_over, IsGood};

use net::NODES;
use net::rows::Accepted;

// The time of node v: an operation's own, and none for the source and the sink.
fn node_time(g: &Accepted, v: usize) -> u32
    ensures { result ≡ node_time g.now.plotted.wiring.operations (time_at g.now.times.now) v }
{
    if 0 < v && v <= g.plotted.wiring.operations {
        g.times[v - 1]
    } else {
        0
    }
}

// Raises node v's entry to x where it is lower. The answer is whether an entry has changed, now or before.
fn lift(finish: &mut [u32; NODES], v: usize, x: u32, changed: bool) -> bool
    requires { v < most_nodes }
    ensures { Lifted finish.old v x changed finish.new result }
{
    if finish[v] < x {
        finish[v] = x;
        true
    } else {
        changed
    }
}

// Raises the target of edge k to what the edge offers: an unmarked edge waits for its origin, a marked one starts with its data.
fn raise(g: &Accepted, k: usize, finish: &mut [u32; NODES], changed: bool) -> bool
    requires backed { accepted_over Backed g.now finish.old }
    requires k_lt_e { k < g.now.plotted.wiring.edges }
    ensures { Lifted finish.old (at g.now.plotted.wiring.to.now k)
        (offered_by g.now finish.old k) changed finish.new result }
{
    let wiring = &g.plotted.wiring;
    let b = usize::from(wiring.to[k]);
    let own = node_time(g, b);
    let x = if g.plotted.mark[k] == 0 {
        finish[usize::from(wiring.from[k])] + own
    } else {
        own
    };
    lift(finish, b, x, changed)
}

// Every edge once.
fn sweep(g: &Accepted, finish: &mut [u32; NODES]) -> bool
    requires { accepted_over Backed g.now finish.old }
    ensures { accepted_over EdgesSwept g.now g.now.plotted.wiring.edges
        finish.old finish.new result }
{
    let mut changed = false;
    for k in 0..g.plotted.wiring.edges {
        changed = raise(g, k, finish, changed);
    }
    changed
}

// Sweeps until one changes nothing. No path comes to an operation twice, so this ends.
fn settle(g: &Accepted, finish: &mut [u32; NODES])
    requires { accepted_over Backed g.now finish.old }
    ensures { accepted_over AllDone g.now finish.new }
{
    while sweep(g, finish) {}
}

// When each node is done if nothing but data is waited for: the largest sum on a path from the source.
pub fn finishes(g: &Accepted) -> [u32; NODES]
    requires { IsGood g.now }
    ensures { accepted_over Finished g.now result }
{
    let mut finish = [0; NODES];
    settle(g, &mut finish);
    finish
}
