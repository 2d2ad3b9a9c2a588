// The call that a letter names, and the lines of bounds and report: name, the refusal's number and place, values, the lent memory afterwards.
ghost use Rattle.std.specs.Prelude.{◌≡◌, ◌≤◌, List, ℕ, length, IfOk, OnOk};
ghost use Rattle.std.specs.Io.KnownBytes.{Appends};
ghost use Rattle.records.specs.Called.{BoundsLine, Called, ReportLine, bounds_values_text, first_of, report_buffer, report_values_text, room_of};
ghost use Rattle.records.specs.Left.{BoundsLeaves, Leaves, ReportLeaves};

use bounds_graph::reply::Measures;
use records_marking::{look_line, run_line, start_line, step_line, wait_line};
use records_print::{head, memory, number, word};
use refusal::Refusal;
use report_graph::reply::RefusedReport;
use std::io;
use std::io::Write;

fn bounds_values<W: Write>(output: &mut W, reply: Result<Measures, Refusal>) -> io::Result<()>
    ensures { OnOk result (Appends (W.contents output.old) (W.contents output.new) (bounds_values_text reply)) }
{
    match reply {
        Ok(found) => {
            head(output, b"bounds", None)?;
            number(output, found.numerator)?;
            number(output, found.denominator)?;
            number(output, u64::from(found.tbio))?;
            number(output, u64::from(found.tt))?;
            number(output, u64::from(found.tce))?;
            number(output, found.length as u64)
        }
        Err(refusal) => {
            head(output, b"bounds", Some(refusal))?;
            word(output, b" 0 0 0 0 0 0")
        }
    }
}

fn bounds_line<W: Write>(output: &mut W, file: &[u8], list: &mut [u16]) -> io::Result<()>
    ensures line { OnOk result (BoundsLine file.now list.old list.new (W.contents output.old) (W.contents output.new)) }
    ensures left { BoundsLeaves file.now list.old list.new }
{
    let reply = bounds::bounds(file, list);
    bounds_values(output, reply)?;
    memory(output, list)
}

// How long the report's buffer is.
fn room(asked: usize) -> usize
    ensures bound { result ≤ 4096 }
    ensures value { result ≡ room_of asked }
{
    if asked == 0 {
        report::ROOM
    } else {
        asked.min(report::ROOM)
    }
}

fn report_values<W: Write>(output: &mut W, reply: Result<usize, RefusedReport>) -> io::Result<()>
    ensures { OnOk result (Appends (W.contents output.old) (W.contents output.new) (report_values_text reply)) }
{
    match reply {
        Ok(length) => {
            head(output, b"report", None)?;
            number(output, length as u64)
        }
        Err(refused) => {
            head(output, b"report", Some(refused.refusal))?;
            number(output, refused.length as u64)
        }
    }
}

fn report_in<W: Write>(output: &mut W, file: &[u8], buffer: &mut [u8]) -> io::Result<()>
    ensures line { OnOk result (ReportLine file.now buffer.old buffer.new (W.contents output.old) (W.contents output.new)) }
    ensures left { ReportLeaves file.now buffer.old buffer.new }
{
    let reply = report::report(file, buffer);
    report_values(output, reply)?;
    memory(output, buffer)
}

fn report_line<W: Write>(output: &mut W, file: &[u8], asked: usize) -> io::Result<()>
    ensures { OnOk result ((left : List ℕ) × ReportLine file.now (report_buffer asked) left (W.contents output.old) (W.contents output.new)) }
{
    let mut buffer = [170u8; report::ROOM];
    let n = room(asked);
    report_in(output, file, &mut buffer[..n])
}

// The transition asked for: the list's first entry, or one that no graph has.
fn first(list: &[u16]) -> u16
    ensures { result ≡ first_of list.now }
{
    list.first().copied().unwrap_or(u16::MAX)
}

// The call that the letter names; false where it names none.
pub fn call<W: Write>(
    output: &mut W,
    letter: u8,
    file: &[u8],
    list: &mut [u16],
    marking: &mut [u8],
) -> io::Result<bool>
    ensures line { IfOk result (λ named. Called letter file.now list.old list.new marking.old marking.new
        (W.contents output.old) (W.contents output.new) named) }
    ensures left { Leaves letter file.now list.old list.new marking.old marking.new }
{
    // Each letter calls with what its call takes, so no table of functions fits.
    match letter {
        b'L' => look_line(output, file)?,
        b'S' => start_line(output, file, marking)?,
        b'T' => step_line(output, file, marking, first(list))?,
        b'R' => run_line(output, file, marking, list)?,
        b'W' => wait_line(output, file, marking, first(list))?,
        b'B' => bounds_line(output, file, list)?,
        b'P' => report_line(output, file, marking.len())?,
        _ => return Ok(false),
    }
    Ok(true)
}
