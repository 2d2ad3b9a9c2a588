// The wait of each transition from a marking.
ghost use Rattle.std.specs.Prelude.{ℕ, ◌≤◌, length};
ghost use Rattle.net.specs.Plan.{Joined};
ghost use Rattle.net.specs.Rules.{Node};
ghost use Rattle.net.specs.helpers.Wirings.{over, transitions_of, wires_of};
ghost use Rattle.report_graph.specs.helpers.Waited.{Waited};

use net::PLACES;
use net::wiring::Wiring;
use waiting_graph::sum::wait_sum;

pub fn every_wait(g: &Wiring, marking: &[u8; PLACES], waits: &mut [u32])
    requires joined { (v : ℕ) → Node (wires_of g.now) v → Joined (wires_of g.now) v }
    requires room { transitions_of g.now ≤ length waits.old }
    ensures { over Waited g.now marking.now waits.old waits.new }
{
    for t in 0..g.transitions() {
        waits[t] = wait_sum(g, marking, t);
    }
}
