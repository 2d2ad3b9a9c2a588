// The two tables of a file that has its frame: what they hold, as arrays.
#![tactic(auto)]

pub mod edges;
pub mod operations;

ghost use Rattle.reader_tables.specs.helpers.Readable.{Readable};

use file_trailer::Trailer;

// A file that has its frame, and the numbers of its trailer: where its tables stand.
#[derive(Clone, Copy)]
pub struct Tables<'a> {
    pub file: &'a [u8],
    pub trailer: Trailer,
    pub ghost readable: { Readable file.now trailer },
}
