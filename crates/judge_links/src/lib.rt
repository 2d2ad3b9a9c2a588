// Row 7: the lowest node that lacks an edge out or an edge in. One pass over the edges, then one over the nodes.
#![tactic(auto)]

ghost use Rattle.std.specs.Prelude.{◌≤◌};
ghost use Rattle.net.specs.Limits.{most_edges};
ghost use Rattle.net.specs.Rules.{row7};
ghost use Rattle.refusal.specs.helpers.Answers.{Finds, Says};
ghost use Rattle.net.specs.Plan.{wires};
ghost use Rattle.judge_tour.specs.helpers.Ended.{Roomy};
ghost use Rattle.judge_links.specs.helpers.Ticks.{Bound, Ticks};
ghost use Rattle.net.specs.helpers.Wirings.{over, wires_of};

use net::wiring::Wiring;
use net::{EDGES, NODES};

// Marks each node that is an end of an edge: its from, or its to, whichever row is lent.
// The marks are bytes: with bools, look takes 8 percent longer on the largest file.
fn tick(e: usize, ends: &[u8; EDGES]) -> [u8; NODES]
    requires e_le_most_edges { e ≤ most_edges }
    requires roomy { Roomy e ends.now }
    ensures { Ticks e ends.now result }
{
    let mut seen = [0u8; NODES];
    for &end in &ends[..e] {
        seen[usize::from(end)] = 1;
    }
    seen
}

// The source needs an edge out only, the sink an edge in only, an operation both.
fn bound(n: usize, node: usize, out: u8, into: u8) -> bool
    ensures { Says (Bound n node out into) result }
{
    (node == 0 || into == 1) && (n < node || out == 1)
}

// The lowest node that lacks an edge out or in.
pub fn first_bare(g: &Wiring) -> Option<usize>
    ensures { Finds (row7 (wires_of g.now)) result }
{
    let out = tick(g.edges, g.from);
    let into = tick(g.edges, g.to);
    for node in 0..g.operations + 2 {
        if !bound(g.operations, node, out[node], into[node]) {
            return Some(node);
        }
    }
    None
}
