// One entry of a run: the run record and the marking are lent, and stand after the entry as its answer says.
#![tactic(auto)]

ghost use Rattle.std.specs.Prelude.{◌≡◌, ◌<◌, ◌≤◌, length};
ghost use Rattle.net.specs.helpers.Wirings.{over, places_of};
ghost use Rattle.firing.specs.helpers.Few.{Few};
ghost use Rattle.running_entry.specs.Entry.{EntryTaken};

use firing::step::step_rows;
use net::wiring::Wiring;
use refusal::Verdict;

// The marking's place count, the next list position and the number of firings so far.
#[derive(Clone, Copy)]
pub struct RunRecord {
    pub places: usize,
    pub next: usize,
    pub fired: usize,
}

// One entry: a firing moves the list position and the count, a refusal keeps both.
pub fn entry(g: &Wiring, rec: &mut RunRecord, marking: &mut [u8], list: &[u16]) -> Verdict
    requires more { rec.old.next < length list.now }
    requires counted { rec.old.fired ≤ rec.old.next }
    requires places { rec.old.places ≡ places_of g.now }
    requires few { over Few g.now marking.old }
    ensures { EntryTaken g.now.operations g.now.from.now g.now.to.now rec.old marking.old list.now result
        rec.new marking.new }
{
    step_rows(g, marking, list[rec.next])?;
    rec.next += 1;
    rec.fired += 1;
    Ok(())
}
