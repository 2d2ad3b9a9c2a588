// Reads a file from standard input and prints its report.
#![tactic(auto)]

ghost use Rattle.std.specs.Prelude.{OnOk};
ghost use Rattle.report_main.specs.Printed.{Printed, PrintedOf};

use input::fill;
use reader::graph::Graph;
use std::io;
use std::io::{Read, Write};

// Room for the longest file and one byte more: a file that fills it is too long, and is refused for that.
const INPUT: usize = Graph::LENGTH + 1;

// Prints the report of a file.
fn print<W: Write>(out: &mut W, file: &[u8]) -> io::Result<()>
    ensures { OnOk result (Printed file.now (W.contents out.old) (W.contents out.new)) }
{
    let mut text = [0u8; report::ROOM];
    let reply = report::report(file, &mut text);
    let length = report_graph::reply::length(reply);
    out.write_all(&text[..length])
}

// Prints the report of the file that the input is.
fn show<R: Read, W: Write>(input: &mut R, out: &mut W) -> io::Result<()>
    ensures { OnOk result (PrintedOf (R.remaining input.old) (W.contents out.old) (W.contents out.new)) }
{
    let mut file = [0u8; INPUT];
    let n = fill(input, &mut file)?;
    print(out, &file[..n])
}

fn main(rt: HostRuntime) -> io::Result<()> {
    show(&mut rt.stdin(), &mut rt.stdout())
}
