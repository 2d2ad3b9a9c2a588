// `report`: the text of a file's report, in a lent buffer.
#![tactic(auto)]

ghost use Rattle.report.specs.Reply.{ReportReply};

use reader::look;
use refusal::{Reason, refuse};
use report_graph::answer::answer;
use report_graph::reply::RefusedReport;
use report_lines::write_refused;
use report_text::roomy;

// No report is longer than this.
pub const ROOM: usize = report_text::ROOM;

// Writes the report of a file, or the one line of its refusal by 1 to 9, and says how long it is.
// A buffer without room is refused by 14 before the file is looked at, with nothing written.
pub fn report(file: &[u8], buffer: &mut [u8]) -> Result<usize, RefusedReport>
    ensures { ReportReply file.now buffer.old result buffer.new }
{
    if !roomy(buffer.len()) {
        return Err(RefusedReport {
            refusal: refuse(Reason::RoomShort, 0),
            length: 0,
        });
    }
    match look(file) {
        Ok(g) => Ok(answer(&g.lend(), buffer)),
        Err(refusal) => Err(RefusedReport {
            refusal,
            length: write_refused(buffer, refusal),
        }),
    }
}
