// The three calls for a graph that look has accepted, over its rows: 10 and 11 first, then the work.
ghost use Rattle.net.specs.helpers.Tables.{marked_over, plan_of_plotted};
ghost use Rattle.accepting_reached.specs.helpers.Wiring.{GoodWiring};
ghost use Rattle.stepping_graph.specs.helpers.Work.{GraphRun, GraphStarted, GraphStepped};

use accepting::accepts::accepts;
use firing::step::step_rows;
use net::rows::Plotted;
use net_start::start::start_marking;
use refusal::{Reason, Verdict, refuse};
use running::repeat::{Ran, run_rows};

// What stood in the buffer is no fault: only its length is tested.
pub fn start_graph(g: &Plotted, marking: &mut [u8]) -> Verdict
    ensures { GraphStarted g.now.wiring.operations g.now.wiring.edges g.now.mark.now marking.old result marking.new }
{
    if marking.len() != g.wiring.places() {
        return Err(refuse(Reason::MarkingWrong, 0));
    }
    start_marking(g, marking);
    Ok(())
}

// The marking is accepted before the transition is tried.
#[tactic(auto, using(crate::proofs::Kept::refused_kept))]
pub fn step_graph(g: &Plotted, marking: &mut [u8], transition: u16) -> Verdict
    requires { marked_over GoodWiring g.now }
    ensures { GraphStepped (plan_of_plotted g.now) marking.old transition result marking.new }
{
    accepts(g, marking)?;
    step_rows(&g.wiring, marking, transition)
}

// The marking is accepted once, before the first entry.
pub fn run_graph(g: &Plotted, marking: &mut [u8], list: &[u16]) -> Ran
    requires { marked_over GoodWiring g.now }
    ensures { GraphRun (plan_of_plotted g.now) marking.old list.now result marking.new }
{
    if let Err(refusal) = accepts(g, marking) {
        return Ran {
            fired: 0,
            end: Err(refusal),
        };
    }
    run_rows(&g.wiring, marking, list)
}
