// The operation table: the times as an array.
ghost use Rattle.std.specs.Prelude.{◌≡◌, ◌+◌};
ghost use Rattle.net.specs.Limits.{Within, most_operations};
ghost use Rattle.file_trailer.specs.File.{operation_time, operations_of};
ghost use Rattle.reader_tables.specs.Filled.{Filled};

use crate::Tables;
use file::OPERATION;
use little::quad;
use net::OPERATIONS;

impl Tables<'_> {
    // The time of operation i.
    #[tactic(auto, unfolding(file_trailer::specs::File::operation_time))]
    pub fn time(&self, i: usize) -> u32
        requires { Within 1 (operations_of self.now.file.now) i }
        ensures { result ≡ operation_time self.now.file.now i }
    {
        quad(self.file, self.trailer.optable + OPERATION * (i - 1))
    }

    // The times of the operations, as an array.
    pub fn times(&self) -> [u32; OPERATIONS]
        ensures { Filled (operations_of self.now.file.now) most_operations (λ i. operation_time self.now.file.now (i + 1)) result }
    {
        let mut xs = [0; OPERATIONS];
        for i in 0..self.trailer.operations {
            xs[i] = self.time(i + 1);
        }
        xs
    }
}
