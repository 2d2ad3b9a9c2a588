// A graph as the reader hands it out, its limits, how it is made from the bytes of a file, and how it is lent.
ghost use Rattle.std.specs.Prelude.{◌≡◌};
ghost use Rattle.net.specs.Good.{Good};
ghost use Rattle.net.specs.helpers.Tables.{IsGood, plan_of_accepted};
ghost use Rattle.reader.specs.Reply.{LookReply, shown};

use crate::read::read;
use file::frame::framed;
use file_trailer::numbers;
use judge::judge;
use net::rows::{Accepted, Plotted, Rows};
use net::wiring::Wiring;
use reader_tables::Tables;
use refusal::Refusal;

// A graph as its file has it; unused entries are 0.
#[derive(Clone, Copy)]
pub struct Graph {
    pub operations: usize,
    pub edges: usize,
    pub times: [u32; Graph::OPERATIONS],
    pub from: [u8; Graph::EDGES],
    pub to: [u8; Graph::EDGES],
    pub mark: [u8; Graph::EDGES],
    pub buffers: [u8; Graph::EDGES],
}

impl Graph {
    // The fewest and the most operations, and edges.
    pub const FEWEST_OPERATIONS: usize = net::FEWEST_OPERATIONS;

    pub const OPERATIONS: usize = net::OPERATIONS;

    pub const FEWEST_EDGES: usize = net::FEWEST_EDGES;

    pub const EDGES: usize = net::EDGES;

    // The shortest and the longest time of an operation.
    pub const SHORTEST_TIME: u32 = net::SHORTEST_TIME;

    pub const TIME: u32 = net::TIME;

    // The shortest file, and the longest.
    pub const SHORTEST: usize = file::SHORTEST;

    pub const LENGTH: usize = file::LENGTH;

    // The graph of a file, where the rows 1 to 9 of the refusal table are kept.
    pub fn from_file(file: &[u8]) -> Result<Graph, Refusal>
        ensures { LookReply file.now result }
    {
        framed(file)?;
        let g = read(&Tables {
            file,
            trailer: numbers(file),
        });
        judge(&Rows {
            operations: g.operations,
            edges: g.edges,
            times: &g.times,
            from: &g.from,
            to: &g.to,
            mark: &g.mark,
            buffers: &g.buffers,
        })?;
        Ok(g)
    }

    // The graph lent to a call, once it is accepted.
    pub fn lend(&self) -> Accepted<'_>
        requires { Good self.now.operations self.now.edges self.now.times self.now.from self.now.to self.now.mark self.now.buffers }
        ensures plan { plan_of_accepted result ≡ shown self.now }
        ensures good { IsGood result }
    {
        let wiring = Wiring {
            operations: self.operations,
            edges: self.edges,
            from: &self.from,
            to: &self.to,
        };
        let plotted = Plotted {
            wiring,
            mark: &self.mark,
        };
        Accepted {
            plotted,
            times: &self.times,
            buffers: &self.buffers,
        }
    }
}
