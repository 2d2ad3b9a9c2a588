// Rows 1 to 4: the length, the signature, the counts and where the tables stand.
ghost use Rattle.std.specs.Prelude.{◌≡◌};
ghost use Rattle.refusal.specs.Asking.{Judged};
ghost use Rattle.refusal.specs.helpers.Answers.{Says};
ghost use Rattle.file.specs.Frame.{CountsKept, EndsWithMagic, Laid, Signed, Sized, frame_rows};

use crate::{EDGE, LENGTH, MAGIC, OPERATION, SHORTEST};
use file_trailer::{TRAILER, numbers};
use refusal::{Reason, Verdict, refuse};

// Row 1: the length is within its limits.
fn sized(file: &[u8]) -> bool
    ensures { Says (Sized file.now) result }
{
    (SHORTEST..=LENGTH).contains(&file.len())
}

// AMG1 stands at the very end.
fn ends(file: &[u8]) -> bool
    requires { Sized file.now }
    ensures { Says (EndsWithMagic file.now) result }
{
    file.ends_with(&MAGIC)
}

// Row 2: layout 1, a zero byte, and AMG1.
fn signed(file: &[u8]) -> bool
    requires { Sized file.now }
    ensures { Says (Signed file.now) result }
{
    let at = file.len() - TRAILER;
    file[at + 10] == 1 && file[at + 11] == 0 && ends(file)
}

// Row 3: N and E are within their limits.
fn counted(file: &[u8]) -> bool
    requires { Sized file.now }
    ensures { Says (CountsKept file.now) result }
{
    let t = numbers(file);
    judge_counts::counted(t.operations, t.edges)
}

// Row 4. The tables are never empty, so the one that comes first stands at 0 and the other right behind it.
fn laid(file: &[u8]) -> bool
    requires sized { Sized file.now }
    requires counts_kept { CountsKept file.now }
    ensures { Says (Laid file.now) result }
{
    let t = numbers(file);
    let before = file.len() - TRAILER;
    let operations = OPERATION * t.operations;
    let edges = EDGE * t.edges;
    t.back == before
        && operations + edges == before
        && (t.optable == 0 && t.edgetable == operations || t.edgetable == 0 && t.optable == edges)
}

// The first of rows 1 to 4 that is broken, or accepted.
pub fn framed(file: &[u8]) -> Verdict
    ensures { Judged (frame_rows file.now) result }
{
    if !sized(file) {
        return Err(refuse(Reason::LengthWrong, 0));
    }
    if !signed(file) {
        return Err(refuse(Reason::TrailerWrong, 0));
    }
    if !counted(file) {
        return Err(refuse(Reason::CountsWrong, 0));
    }
    if !laid(file) {
        return Err(refuse(Reason::TablesWrong, 0));
    }
    Ok(())
}
