// The graph of a file whose frame is right.
ghost use Rattle.file_trailer.specs.File.{edges_of, operations_of, plan_of};
ghost use Rattle.reader.specs.Reply.{Shows};

use crate::graph::Graph;
use reader_tables::Tables;

// What the two tables hold.
pub fn read(tables: &Tables) -> Graph
    ensures { Shows (plan_of tables.now.file.now) (operations_of tables.now.file.now) (edges_of tables.now.file.now) result }
{
    let mut from = [0; Graph::EDGES];
    let mut to = [0; Graph::EDGES];
    let mut mark = [0; Graph::EDGES];
    let mut buffers = [0; Graph::EDGES];
    tables.fill_edges(&mut from, &mut to, &mut mark, &mut buffers);
    Graph {
        operations: tables.trailer.operations,
        edges: tables.trailer.edges,
        times: tables.times(),
        from,
        to,
        mark,
        buffers,
    }
}
