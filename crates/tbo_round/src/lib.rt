// Back along the noted places: as far as there are transitions, and once round where they come round.
#![tactic(auto)]

ghost use Rattle.std.specs.Prelude.{◌≡◌, ◌<◌};
ghost use Rattle.marked.specs.Net.{at};
ghost use Rattle.net.specs.Graph.{net_of};
ghost use Rattle.net.specs.helpers.Wirings.{transitions_of, wires_of};
ghost use Rattle.tbo_round.specs.helpers.Chains.{Notes, Round, Turns, back};

use fraction::load::{Load, Rate};
use net::TRANSITIONS;
use net::wiring::Wiring;

// As many steps back from v as there are transitions, each to the source of the place noted there; where none is, it stays. Whoever is on a ring of
// notes by then stays on it.
pub fn follow(g: &Wiring, pred: &[u16; TRANSITIONS], v: usize) -> usize
    requires notes { Notes (net_of (wires_of g.now)) (at pred.now) }
    requires v_bound { v < transitions_of g.now }
    ensures { result ≡ back (net_of (wires_of g.now)) (at pred.now) (transitions_of g.now) v }
{
    let mut w = v;
    for _ in 0..g.transitions() {
        let q = usize::from(pred[w]);
        if q == 0 {
            return w;
        }
        w = g.source(q - 1);
    }
    w
}

// Once round from w: the time and the tokens of the noted places.
pub fn go_round(g: &Load, pred: &[u16; TRANSITIONS], w: usize) -> Rate
    requires turns { Turns (net_of (wires_of g.now.wiring)) (at pred.now) w }
    ensures { Round (net_of (wires_of g.now.wiring)) (at g.now.marking.now) (at g.now.times.now)
        (at pred.now) w result.time result.tokens }
{
    let mut x = w;
    let mut time = 0;
    let mut tokens = 0;
    for _ in 0..TRANSITIONS {
        let p = usize::from(pred[x]) - 1;
        x = g.wiring.source(p);
        time += u64::from(g.times[x]);
        tokens += u64::from(g.marking[p]);
        if x == w {
            return Rate { time, tokens };
        }
    }
    // It comes round before as many steps as there are transitions.
    unreachable!()
}
