// The trailer that a file ends with, and its five numbers.
#![tactic(auto)]

ghost use Rattle.std.specs.Prelude.{length};
ghost use Rattle.file_trailer.specs.Limits.{FileLength};
ghost use Rattle.file_trailer.specs.helpers.Trailer.{TrailerOf};

use little::word;

// The trailer's bytes.
pub const TRAILER: usize = 16;

// The numbers of a file's trailer.
#[derive(Clone, Copy)]
pub struct Trailer {
    pub optable: usize,
    pub operations: usize,
    pub edgetable: usize,
    pub edges: usize,
    pub back: usize,
}

// The trailer's five numbers.
pub fn numbers(file: &[u8]) -> Trailer
    requires { FileLength (length file.now) }
    ensures { TrailerOf file.now result }
{
    let at = file.len() - TRAILER;
    Trailer {
        optable: usize::from(word(file, at)),
        operations: usize::from(word(file, at + 2)),
        edgetable: usize::from(word(file, at + 4)),
        edges: usize::from(word(file, at + 6)),
        back: usize::from(word(file, at + 8)),
    }
}
