// The edge table: each byte of the edges as an array.
ghost use Rattle.std.specs.Prelude.{◌≡◌, ◌<◌};
ghost use Rattle.file_trailer.specs.File.{edges_of, edge_byte};
ghost use Rattle.reader_tables.specs.helpers.Tabled.{Tabled};

use crate::Tables;
use file::EDGE;
use net::EDGES;

impl Tables<'_> {
    // Byte k of edge e.
    #[tactic(auto, unfolding(file_trailer::specs::File::edge_byte))]
    pub fn edge_byte(&self, e: usize, k: usize) -> u8
        requires e_bound { e < edges_of self.now.file.now }
        requires k_bound { k < 4 }
        ensures { result ≡ edge_byte self.now.file.now e k }
    {
        self.file[self.trailer.edgetable + EDGE * e + k]
    }

    // The edge table into four arrays of zeros, in one pass.
    pub fn fill_edges(
        &self,
        from: &mut [u8; EDGES],
        to: &mut [u8; EDGES],
        mark: &mut [u8; EDGES],
        buffers: &mut [u8; EDGES],
    )
        requires { Tabled self.now.file.now 0 from.old to.old mark.old buffers.old }
        ensures { Tabled self.now.file.now (edges_of self.now.file.now) from.new to.new mark.new buffers.new }
    {
        for e in 0..self.trailer.edges {
            from[e] = self.edge_byte(e, 0);
            to[e] = self.edge_byte(e, 1);
            mark[e] = self.edge_byte(e, 2);
            buffers[e] = self.edge_byte(e, 3);
        }
    }
}
