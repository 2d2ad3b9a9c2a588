// The same as calls_main over other records: markings that are started, stepped, run and waited for, bounds, and reports. A test with stored output.
#![tactic(auto)]

use std::io;

fn main(rt: HostRuntime) -> io::Result<()> {
    records::play(&mut rt.stdin(), &mut rt.stdout())
}
