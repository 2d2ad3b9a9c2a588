// `wait`: how many firings a transition can be kept waiting for.
#![tactic(auto)]

ghost use Rattle.waiting.specs.Reply.{WaitReply};

use reader::look;
use refusal::Refusal;
use waiting_graph::answer::answer;

// The wait of a transition from a marking of a file's graph, or the lowest of refusals 1 to 12 that applies. Nothing is written.
#[tactic(auto, using(crate::proofs::Answers::unread_reply))]
pub fn wait(file: &[u8], marking: &[u8], transition: u16) -> Result<u32, Refusal>
    ensures { WaitReply file.now marking.now transition result }
{
    let g = look(file)?;
    answer(&g.lend().plotted, marking, transition)
}
