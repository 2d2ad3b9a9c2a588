// Prints the limits of a graph and of its file: the lowest number that is allowed, and the highest.
#![tactic(auto)]

ghost use Rattle.std.specs.Prelude.{OnOk};
ghost use Rattle.std.specs.Io.KnownBytes.{Appends};
ghost use Rattle.limits_main.specs.Limits.{limit_line, limits};

use reader::graph::Graph;
use std::io;
use std::io::Write;

fn line<W: Write>(out: &mut W, name: &[u8], lowest: u64, highest: u64) -> io::Result<()>
    ensures { OnOk result (Appends (W.contents out.old) (W.contents out.new) (limit_line name.now lowest highest)) }
{
    out.write_all(name)?;
    writeln!(out, " {lowest} {highest}")
}

// Every limit. All are cast: a usize has no From to u64, and of a constant given to From the proof did not close.
fn show<W: Write>(out: &mut W) -> io::Result<()>
    ensures { OnOk result (Appends (W.contents out.old) (W.contents out.new) limits) }
{
    line(
        out,
        b"operations",
        Graph::FEWEST_OPERATIONS as u64,
        Graph::OPERATIONS as u64,
    )?;
    line(
        out,
        b"edges",
        Graph::FEWEST_EDGES as u64,
        Graph::EDGES as u64,
    )?;
    line(
        out,
        b"time",
        Graph::SHORTEST_TIME as u64,
        Graph::TIME as u64,
    )?;
    line(out, b"length", Graph::SHORTEST as u64, Graph::LENGTH as u64)
}

fn main(rt: HostRuntime) -> io::Result<()> {
    show(&mut rt.stdout())
}
