// Reading a lent buffer full: for programs whose input has a most.
#![tactic(auto)]

ghost use Rattle.std.specs.Prelude.{◌<◌, ◌≤◌, List, ℕ, length, take, IfOk, OnErr};
ghost use Rattle.std.specs.Io.KnownBytes.{Consumes, IsAtEnd};
ghost use Rattle.input.specs.Begins.{Begins};

use std::io;
use std::io::Read;

// Reads until the buffer is full or the input ends, and tells how many bytes there are. What lies beyond the buffer is left unread.
// A read that fails leaves the rest of the input, behind what was read before it.
pub fn fill<R: Read>(input: &mut R, buffer: &mut [u8]) -> io::Result<usize>
    ensures within { IfOk result (λ n. n ≤ length buffer.new) }
    ensures bytes { IfOk result (λ n. Consumes (R.remaining input.old) (R.remaining input.new) (take n buffer.new)) }
    ensures whole { IfOk result (λ n. n < length buffer.new → IsAtEnd (R.remaining input.new)) }
    ensures err { OnErr result ((bs : List ℕ) × Consumes (R.remaining input.old) (R.remaining input.new) bs) }
    ensures first { IfOk result (λ n. Begins (R.remaining input.old) (length buffer.new) (take n buffer.new)) }
{
    // A read may give fewer bytes than there is room for, so the end grows by what each gave.
    let mut done = 0;
    while done < buffer.len() {
        let n = input.read(&mut buffer[done..])?;
        if n == 0 {
            return Ok(done);
        }
        done += n;
    }
    Ok(done)
}
