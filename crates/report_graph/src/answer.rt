// The report of a graph that look has accepted, where it has room: its waits, its bounds and the text.
ghost use Rattle.std.specs.Prelude.{◌≤◌, length};
ghost use Rattle.net.specs.helpers.Tables.{IsGood, plan_of_accepted};
ghost use Rattle.report_text.specs.Room.{report_bytes};
ghost use Rattle.report_graph.specs.helpers.Reported.{Reported};

use crate::waits::every_wait;
use bounds_graph::measure::measure;
use net::rows::Accepted;
use net::{PLACES, TRANSITIONS};
use net_start::start::start_marking;
use report_lines::write_report;

// The answer is the text's length.
pub fn answer(g: &Accepted, buffer: &mut [u8]) -> usize
    requires good { IsGood g.now }
    requires report_bytes_in_bounds { report_bytes ≤ length buffer.old }
    ensures { Reported (plan_of_accepted g.now) buffer.old result buffer.new }
{
    let mut marking = [0u8; PLACES];
    start_marking(&g.plotted, &mut marking);
    let mut waits = [0u32; TRANSITIONS];
    every_wait(&g.plotted.wiring, &marking, &mut waits);
    let mut ring = [0u16; TRANSITIONS];
    let found = measure(g, &marking, &mut ring);
    let circuit = &ring[..found.length];
    write_report(buffer, &g.plotted.wiring, found, circuit, &waits)
}
