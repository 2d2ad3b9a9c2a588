// The calls, for tests and for trying one by hand: records on standard input, a line for each on standard output (docs/CALLS.md).
#![tactic(auto)]

use std::io;

fn main(rt: HostRuntime) -> io::Result<()> {
    records::play(&mut rt.stdin(), &mut rt.stdout())
}
