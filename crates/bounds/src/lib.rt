// `bounds`: TBO with its circuit, TBIO, TT and TCE of a file's graph.
#![tactic(auto)]

ghost use Rattle.bounds.specs.Reply.{BoundsReply};

use bounds_graph::answer::answer;
use bounds_graph::reply::Measures;
use reader::look;
use refusal::Refusal;

// The bounds of a file's graph, with the circuit that attains TBO in the first entries of the buffer; or the first of refusals 1 to 9 and 14 that
// applies, with nothing written.
pub fn bounds(file: &[u8], circuit: &mut [u16]) -> Result<Measures, Refusal>
    ensures { BoundsReply file.now circuit.old result circuit.new }
{
    let g = look(file)?;
    answer(&g.lend(), circuit)
}
