// The reply for a graph that look has accepted: row 14, then the bounds.
ghost use Rattle.net.specs.helpers.Tables.{IsGood, plan_of_accepted};
ghost use Rattle.bounds_graph.specs.helpers.Answered.{BoundsAnswered};

use crate::measure::measure;
use crate::reply::Measures;
use net::PLACES;
use net::rows::Accepted;
use net_start::start::start_marking;
use refusal::{Reason, Refusal, refuse};

pub fn answer(g: &Accepted, circuit: &mut [u16]) -> Result<Measures, Refusal>
    requires { IsGood g.now }
    ensures { BoundsAnswered (plan_of_accepted g.now) circuit.old result circuit.new }
{
    if circuit.len() < g.plotted.wiring.transitions() {
        return Err(refuse(Reason::RoomShort, 0));
    }
    let mut marking = [0; PLACES];
    start_marking(&g.plotted, &mut marking);
    Ok(measure(g, &marking, circuit))
}
