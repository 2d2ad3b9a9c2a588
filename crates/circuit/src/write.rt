// The circuit in travel order: the notes of the search lead back from its end.
ghost use Rattle.std.specs.Prelude.{◌≢◌, ◌<◌, ◌≤◌, length};
ghost use Rattle.marked.specs.Net.{at};
ghost use Rattle.circuit_tight.specs.helpers.Lists.{Listed, drawn};
ghost use Rattle.circuit_tight.specs.helpers.Entries.{sources, targets};
ghost use Rattle.circuit_search.specs.helpers.Ways.{FirstNoted};
ghost use Rattle.circuit_search.specs.helpers.Said.{of_ways};
ghost use Rattle.circuit.specs.helpers.Writing.{WayCounted, Written};

use circuit_search::Ways;
use net::TRANSITIONS;

// How many places the circuit has: those that lead back from goal to root, and the one before them. The notes say how far back it goes, and no range does.
fn count_back(w: &Ways, via: &[u16; TRANSITIONS], root: usize, goal: usize) -> usize
    requires root_lt_nt { (root < w.now.transitions) × (root ≢ goal) }
    requires first_noted { FirstNoted (drawn w.now.transitions w.now.places (sources w.now.lists.now.entries) (targets w.now.lists.now.entries)) (Listed (targets w.now.lists.now.entries)) root goal (at via.now) }
    ensures { of_ways WayCounted w.now root goal via.now result }
{
    let mut x = goal;
    let mut k = 1;
    while x != root {
        let q = usize::from(via[x]);
        x = usize::from(w.lists.entries[q].source);
        k += 1;
    }
    k
}

// Writes the circuit that starts with p and that via notes, from its last place back: so k counts down. The answer is how many places it has.
pub fn hand_out(w: &Ways, via: &[u16; TRANSITIONS], p: usize, ring: &mut [u16]) -> usize
    requires listed { (p < w.now.places) × Listed (targets w.now.lists.now.entries) p }
    requires room { w.now.transitions ≤ length ring.old }
    requires first_noted { FirstNoted (drawn w.now.transitions w.now.places (sources w.now.lists.now.entries) (targets w.now.lists.now.entries)) (Listed (targets w.now.lists.now.entries)) (at (targets w.now.lists.now.entries) p) (at (sources w.now.lists.now.entries) p) (at via.now) }
    ensures { of_ways Written w.now p ring.old result ring.new }
{
    let goal = usize::from(w.lists.entries[p].source);
    let root = usize::from(w.lists.entries[p].target);
    let len = count_back(w, via, root, goal);
    let mut x = goal;
    let mut k = len;
    while x != root {
        let q = via[x];
        k -= 1;
        ring[k] = q;
        x = usize::from(w.lists.entries[usize::from(q)].source);
    }
    ring[0] = p as u16;
    len
}
