// The lines of a report, from its numbers: the text of an accepted file, line by line, and that of a refused one, in a lent buffer.
#![tactic(auto, unfolding(report_text::specs::Text::wait_lines))]

mod waits;

ghost use Rattle.std.specs.Prelude.{◌≤◌, length};
ghost use Rattle.marked.specs.Net.{at};
ghost use Rattle.refusal.specs.Numbers.{number_of};
ghost use Rattle.pen_put.specs.Lines.{Put};
ghost use Rattle.report_text.specs.Text.{report_text, refused_line};
ghost use Rattle.report_text.specs.helpers.Limits.{Writable};

use bounds_graph::reply::Measures;
use net::wiring::Wiring;
use pen::Writer;
use refusal::{Refusal, number};
use report_head::head_lines;
use waits::wait_lines;

// The whole report, from the buffer's first byte; says how long it is.
pub fn write_report(
    buf: &mut [u8],
    g: &Wiring,
    found: Measures,
    ring: &[u16],
    waits: &[u32],
) -> usize
    requires { Writable buf.old g.now.operations g.now.edges
        found.numerator found.denominator ring.now waits.now }
    ensures { Put buf.old 0 (report_text g.now.operations g.now.edges
        found.numerator found.denominator found.tbio found.tt found.tce
        ring.now (at waits.now)) buf.new result }
{
    let mut w = Writer { buf, at: 0 };
    head_lines(&mut w, g, &found, ring);
    wait_lines(&mut w, g, waits);
    w.at
}

// The report of a refused file, as `refused 9 at 3`; says how long it is.
pub fn write_refused(buf: &mut [u8], refusal: Refusal) -> usize
    requires { 4096 ≤ length buf.old }
    ensures { Put buf.old 0 (refused_line (number_of refusal.reason) refusal.place) buf.new result }
{
    let mut w = Writer { buf, at: 0 };
    let reason = u64::from(number(refusal.reason));
    w.pair_line(b"refused ", reason, b" at ", u64::from(refusal.place));
    w.at
}
