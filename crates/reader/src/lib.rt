// The file reader: the one place where the bytes of a file become a graph.
#![tactic(auto)]

pub mod graph;
mod read;

ghost use Rattle.reader.specs.Reply.{LookReply};

use graph::Graph;
use refusal::Refusal;

// Looks at a file: accepted with its graph, or refused with the number and the place.
pub fn look(file: &[u8]) -> Result<Graph, Refusal>
    ensures { LookReply file.now result }
{
    Graph::from_file(file)
}
