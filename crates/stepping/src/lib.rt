// `start`, `step` and `run`: the calls that write a marking, one byte a place.
#![tactic(auto)]

ghost use Rattle.stepping.specs.Replies.{RunReply, StartReply, StepReply};

use reader::look;
use refusal::Verdict;
use running::repeat::Ran;
use stepping_graph::graph::{run_graph, start_graph, step_graph};

// Fills the marking with the start of a file's graph, or gives the lowest of refusals 1 to 10 that applies and writes nothing.
pub fn start(file: &[u8], marking: &mut [u8]) -> Verdict
    ensures { StartReply file.now marking.old result marking.new }
{
    let g = look(file)?;
    start_graph(&g.lend().plotted, marking)
}

// Fires one transition, or gives the lowest of refusals 1 to 13 that applies and writes nothing.
pub fn step(file: &[u8], marking: &mut [u8], transition: u16) -> Verdict
    ensures { StepReply file.now marking.old transition result marking.new }
{
    let g = look(file)?;
    step_graph(&g.lend().plotted, marking, transition)
}

// Fires a list of transitions in order, up to the first refused. The file and the marking are tested once, before the first.
pub fn run(file: &[u8], marking: &mut [u8], list: &[u16]) -> Ran
    ensures { RunReply file.now marking.old list.now result marking.new }
{
    match look(file) {
        Ok(g) => run_graph(&g.lend().plotted, marking, list),
        Err(refusal) => Ran {
            fired: 0,
            end: Err(refusal),
        },
    }
}
