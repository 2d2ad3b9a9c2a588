// What `report` replies: how many bytes it has written, or why it refuses.
ghost use Rattle.std.specs.Prelude.{◌≡◌};
ghost use Rattle.report_graph.specs.Length.{length_of};

use refusal::Refusal;

// A refusal, and the length of the line that tells it: 0 where there is no room for one.
#[derive(Clone, Copy)]
pub struct RefusedReport {
    pub refusal: Refusal,
    pub length: usize,
}

// How many bytes a reply has written, whatever it says.
pub fn length(reply: Result<usize, RefusedReport>) -> usize
    ensures { result ≡ length_of reply }
{
    match reply {
        Ok(length) => length,
        Err(refused) => refused.length,
    }
}
