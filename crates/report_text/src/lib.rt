// The report's words, its text and its room: definitions and laws, and the test of row 14.
#![tactic(auto)]

ghost use Rattle.std.specs.Prelude.{◌≤◌};
ghost use Rattle.refusal.specs.helpers.Answers.{Says};
ghost use Rattle.report_text.specs.Room.{report_bytes};

// No report is longer than this.
pub const ROOM: usize = 4096;

// Whether a buffer of so many bytes has room for any report.
pub fn roomy(bytes: usize) -> bool
    ensures { Says (report_bytes ≤ bytes) result }
{
    ROOM <= bytes
}
