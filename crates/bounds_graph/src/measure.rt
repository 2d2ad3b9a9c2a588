// The bounds of a graph that look has accepted, over its starting marking, where the circuit has room.
ghost use Rattle.std.specs.Prelude.{◌≤◌, length};
ghost use Rattle.net.specs.helpers.Tables.{IsGood, plan_of_accepted};
ghost use Rattle.net.specs.helpers.Wirings.{transitions_of};
ghost use Rattle.net_start.specs.helpers.Start.{HoldsStart};
ghost use Rattle.bounds_graph.specs.Measured.{BoundsOf};

use crate::reply::Measures;
use circuit::choose;
use fraction::load::Load;
use net::rows::Accepted;
use net::{PLACES, TRANSITIONS};
use net_start::times::transition_times;
use paths::path_sums;
use tbo::largest;

// The rate that `largest` finds is the time and the tokens of a closed walk: the certificate in d is for that rate, and only the reply is in lowest terms.
pub fn measure(g: &Accepted, marking: &[u8; PLACES], circuit: &mut [u16]) -> Measures
    requires good { IsGood g.now }
    requires holds_start { HoldsStart g.now.plotted.wiring.operations g.now.plotted.wiring.edges g.now.plotted.mark.now marking.now }
    requires n_in_bounds { transitions_of g.now.plotted.wiring ≤ length circuit.old }
    ensures { BoundsOf (plan_of_accepted g.now) circuit.old result circuit.new }
{
    let mut times = [0; TRANSITIONS];
    transition_times(g, &mut times);
    let load = Load {
        wiring: g.plotted.wiring,
        marking,
        times: &times,
    };
    let mut d = [0; TRANSITIONS];
    let most = largest(&load, &mut d);
    let length = choose(&load, most, &d, circuit);
    let sums = path_sums(g);
    let tbo = most.reduced();
    Measures {
        numerator: tbo.time,
        denominator: tbo.tokens,
        tbio: sums.tbio,
        tt: sums.tt,
        tce: sums.tce,
        length,
    }
}
