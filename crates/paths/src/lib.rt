// TBIO, TT and TCE of a graph given by rows: the longest paths of the modified graph of 000, Definition 12, and the sum of all times.
#![tactic(auto)]

ghost use Rattle.net.specs.helpers.Tables.{accepted_over, IsGood, plan_of_accepted};
ghost use Rattle.paths_finish.specs.Longest.{TCE};
ghost use Rattle.paths.specs.helpers.Answers.{SumsOf};
ghost use Rattle.paths.specs.helpers.Latest.{Latest};

use net::NODES;
use net::rows::Accepted;
use paths_finish::finishes;

// A path's sum is at most 40,000,000, and would be at most 120,000,000 with three times an operation: u32 has the room.
#[derive(Clone, Copy)]
pub struct Sums {
    pub tbio: u32,
    pub tt: u32,
    pub tce: u32,
}

// The last sink to be reached: the data sink, or the fresh sink behind the origin of a marked edge.
fn latest(g: &Accepted, finish: &[u32; NODES]) -> u32
    ensures { Latest g.now.plotted.wiring.operations g.now.plotted.wiring.from.now g.now.plotted.mark.now finish.now
        g.now.plotted.wiring.edges result }
{
    let wiring = &g.plotted.wiring;
    let mut most = finish[wiring.operations + 1];
    for k in 0..wiring.edges {
        if g.plotted.mark[k] != 0 {
            most = most.max(finish[usize::from(wiring.from[k])]);
        }
    }
    most
}

// The sum of all operation times.
fn all_times(g: &Accepted) -> u32
    requires { IsGood g.now }
    ensures { TCE (plan_of_accepted g.now) result }
{
    let times = g.times;
    times[..g.plotted.wiring.operations].iter().sum()
}

// TBIO is when the data sink is reached, TT when the last sink is, and TCE the sum of all times.
pub fn path_sums(g: &Accepted) -> Sums
    requires { IsGood g.now }
    ensures { accepted_over SumsOf g.now result }
{
    let finish = finishes(g);
    Sums {
        tbio: finish[g.plotted.wiring.operations + 1],
        tt: latest(g, &finish),
        tce: all_times(g),
    }
}
