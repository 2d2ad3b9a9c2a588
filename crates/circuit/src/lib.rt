// The circuit that attains TBO: of those that do, written lowest place first, the first in dictionary order.
#![tactic(auto)]

mod write;

ghost use Rattle.std.specs.Prelude.{◌≤◌, length};
ghost use Rattle.marked.specs.Net.{at};
ghost use Rattle.net.specs.Graph.{net_of};
ghost use Rattle.net.specs.helpers.Wirings.{transitions_of, wires_of};
ghost use Rattle.fraction.specs.helpers.Loads.{loaded_of};
ghost use Rattle.tbo.specs.helpers.LargestBy.{LargestBy};
ghost use Rattle.circuit.specs.Chosen.{Handed};

use circuit_search::Ways;
use circuit_tight::{Certificate, Entry, LOOSE, Lists};
use fraction::load::{Load, Rate};
use net::{PLACES, TRANSITIONS};

// Writes the chosen circuit into ring, in travel order. The answer is how many places it has.
// It goes along the places that are tight in the certificate d, for these are the places of the circuits that attain the rate: some place leads back.
pub fn choose(g: &Load, rate: Rate, d: &[u64; TRANSITIONS], ring: &mut [u16]) -> usize
    requires largest_by { LargestBy (loaded_of g.now) rate.time rate.tokens d.now }
    requires n_in_bounds { transitions_of g.now.wiring ≤ length ring.old }
    ensures { Handed (net_of (wires_of g.now.wiring)) (at g.now.marking.now) (at g.now.times.now) rate.time rate.tokens
        ring.old result ring.new }
{
    let places = g.wiring.places();
    let mut lists = Lists {
        head: [places as u16; TRANSITIONS],
        entries: [Entry {
            next: 0,
            source: 0,
            target: LOOSE,
        }; PLACES],
    };
    lists.list_tight(&Certificate {
        load: *g,
        rate,
        potentials: d,
    });
    let ways = Ways {
        transitions: g.wiring.transitions(),
        places,
        lists: &lists,
    };
    let mut via = [0; TRANSITIONS];
    let p = ways.first(&mut via).unwrap();
    write::hand_out(&ways, &via, p, ring)
}
