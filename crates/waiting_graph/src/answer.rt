// The reply for a graph that look has accepted: rows 10 to 12, then the wait.
ghost use Rattle.net.specs.helpers.Tables.{marked_over, plan_of_plotted};
ghost use Rattle.accepting_reached.specs.helpers.Wiring.{GoodWiring};
ghost use Rattle.waiting_graph.specs.helpers.Work.{GraphWaits};

use crate::sum::wait_sum;
use accepting::accepts::accepts;
use net::rows::Plotted;
use refusal::{Reason, Refusal, refuse};

#[tactic(auto, using(refusal::proofs::Asked::judged_given, crate::proofs::GraphAnswers::answers_row))]
pub fn answer(g: &Plotted, marking: &[u8], transition: u16) -> Result<u32, Refusal>
    requires { marked_over GoodWiring g.now }
    ensures { GraphWaits (plan_of_plotted g.now) marking.now transition result }
{
    accepts(g, marking)?;
    let t = usize::from(transition);
    if g.wiring.transitions() <= t {
        return Err(refuse(Reason::TransitionUnknown, 0));
    }
    Ok(wait_sum(&g.wiring, marking, t))
}
