// A run: entries are taken one at a time, up to the first refused.
ghost use Rattle.net.specs.helpers.Wirings.{over, wires_of};
ghost use Rattle.net.specs.Graph.{net_of};
ghost use Rattle.firing.specs.helpers.Few.{Few};
ghost use Rattle.running.specs.Run.{Runs};

use net::wiring::Wiring;
use refusal::Verdict;
use running_entry::{RunRecord, entry};

// How many entries fired, and how the run ended.
#[derive(Clone, Copy)]
pub struct Ran {
    pub fired: usize,
    pub end: Verdict,
}

// A run only repeats `entry`.
pub fn run_rows(g: &Wiring, marking: &mut [u8], list: &[u16]) -> Ran
    requires { over Few g.now marking.old }
    ensures { Runs (net_of (wires_of g.now)) marking.old list.now result.fired result.end marking.new }
{
    let mut rec = RunRecord {
        places: g.places(),
        next: 0,
        fired: 0,
    };
    for _ in list {
        if let Err(refusal) = entry(g, &mut rec, marking, list) {
            return Ran {
                fired: rec.fired,
                end: Err(refusal),
            };
        }
    }
    Ran {
        fired: list.len(),
        end: Ok(()),
    }
}
