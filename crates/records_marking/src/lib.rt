// The calls on a graph and its marking, each with its line: the name, the refusal's number and place, the values, and the lent memory afterwards.
#![tactic(auto)]

ghost use Rattle.std.specs.Prelude.{◌≤◌, OnOk};
ghost use Rattle.std.specs.Io.KnownBytes.{Appends};
ghost use Rattle.net.specs.Limits.{most_edges, most_operations};
ghost use Rattle.records_marking.specs.Lines.{LookLine, RunLeaves, RunLine, StartLeaves, StartLine, StepLeaves, StepLine, WaitLine, graph_text, rows_text, times_text, wait_values_text};

use reader::graph::Graph;
use records_print::{head, memory, number, word};
use refusal::Refusal;
use std::io;
use std::io::Write;

fn times<W: Write>(output: &mut W, g: &Graph) -> io::Result<()>
    requires { g.now.operations ≤ most_operations }
    ensures { OnOk result (Appends (W.contents output.old) (W.contents output.new) (times_text g.now.times g.now.operations)) }
{
    for x in &g.times[..g.operations] {
        number(output, u64::from(*x))?;
    }
    Ok(())
}

// The columns of the edges are three arrays, as the C interface takes them.
fn rows<W: Write>(output: &mut W, g: &Graph) -> io::Result<()>
    requires { g.now.edges ≤ most_edges }
    ensures { OnOk result (Appends (W.contents output.old) (W.contents output.new)
        (rows_text g.now.from g.now.to g.now.mark g.now.edges)) }
{
    for e in 0..g.edges {
        number(output, u64::from(g.from[e]))?;
        number(output, u64::from(g.to[e]))?;
        number(output, u64::from(g.mark[e]))?;
    }
    Ok(())
}

// Nothing is lent to look but the file, so its memory is empty.
fn look_graph<W: Write>(output: &mut W, g: &Graph) -> io::Result<()>
    requires { (g.now.operations ≤ most_operations) × (g.now.edges ≤ most_edges) }
    ensures { OnOk result (Appends (W.contents output.old) (W.contents output.new) (graph_text g.now)) }
{
    head(output, b"look", None)?;
    number(output, g.operations as u64)?;
    number(output, g.edges as u64)?;
    times(output, g)?;
    rows(output, g)?;
    word(output, b" memory\n")
}

pub fn look_line<W: Write>(output: &mut W, file: &[u8]) -> io::Result<()>
    ensures { OnOk result (LookLine file.now (W.contents output.old) (W.contents output.new)) }
{
    match reader::look(file) {
        Ok(g) => look_graph(output, &g),
        Err(refusal) => {
            head(output, b"look", Some(refusal))?;
            word(output, b" memory\n")
        }
    }
}

pub fn start_line<W: Write>(output: &mut W, file: &[u8], marking: &mut [u8]) -> io::Result<()>
    ensures line { OnOk result (StartLine file.now marking.old marking.new (W.contents output.old) (W.contents output.new)) }
    ensures left { StartLeaves file.now marking.old marking.new }
{
    let reply = stepping::start(file, marking);
    head(output, b"start", reply.err())?;
    memory(output, marking)
}

pub fn step_line<W: Write>(
    output: &mut W,
    file: &[u8],
    marking: &mut [u8],
    transition: u16,
) -> io::Result<()>
    ensures line { OnOk result (StepLine file.now marking.old transition marking.new (W.contents output.old) (W.contents output.new)) }
    ensures left { StepLeaves file.now marking.old transition marking.new }
{
    let reply = stepping::step(file, marking, transition);
    head(output, b"step", reply.err())?;
    memory(output, marking)
}

pub fn run_line<W: Write>(
    output: &mut W,
    file: &[u8],
    marking: &mut [u8],
    list: &[u16],
) -> io::Result<()>
    ensures line { OnOk result (RunLine file.now marking.old list.now marking.new (W.contents output.old) (W.contents output.new)) }
    ensures left { RunLeaves file.now marking.old list.now marking.new }
{
    let reply = stepping::run(file, marking, list);
    head(output, b"run", reply.end.err())?;
    number(output, reply.fired as u64)?;
    memory(output, marking)
}

// A wait, or the refusal and 0.
fn wait_values<W: Write>(output: &mut W, reply: Result<u32, Refusal>) -> io::Result<()>
    ensures { OnOk result (Appends (W.contents output.old) (W.contents output.new) (wait_values_text reply)) }
{
    match reply {
        Ok(firings) => {
            head(output, b"wait", None)?;
            number(output, u64::from(firings))
        }
        Err(refusal) => {
            head(output, b"wait", Some(refusal))?;
            number(output, 0)
        }
    }
}

pub fn wait_line<W: Write>(
    output: &mut W,
    file: &[u8],
    marking: &[u8],
    transition: u16,
) -> io::Result<()>
    ensures { OnOk result (WaitLine file.now marking.now transition (W.contents output.old) (W.contents output.new)) }
{
    let reply = waiting::wait(file, marking, transition);
    wait_values(output, reply)?;
    memory(output, marking)
}
