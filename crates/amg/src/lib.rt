// The calls for C and for Rust, declared in include/amg.h; crate amg_c gives them the names that C links. Each makes one call of the crates below, and its word tells that call's reply.
#![tactic(auto)]

ghost use Rattle.amg.specs.Calls.{BoundsCall, LookCall, ReportCall, RunCall, StartCall, StepCall, WaitCall};
ghost use Rattle.amg.specs.Tables.{tables};

use amg_word::numbers::bounds_values;
use amg_word::word::pack;
use net::{EDGES, OPERATIONS};

// Where the file is accepted, counts holds N and E, and the other arrays the times and the rows: C lends each by itself.
pub fn amg_look(
    file: &[u8],
    counts: &mut [u32; 2],
    times: &mut [u32; OPERATIONS],
    from: &mut [u8; EDGES],
    to: &mut [u8; EDGES],
    mark: &mut [u8; EDGES],
) -> u64
    ensures { LookCall file.now
        (tables counts.old times.old from.old to.old mark.old) result
        (tables counts.new times.new from.new to.new mark.new) }
{
    let g = match reader::look(file) {
        Ok(g) => g,
        Err(refusal) => return pack(Some(refusal), 0),
    };
    *counts = [g.operations as u32, g.edges as u32];
    times.copy_from_slice(&g.times);
    from.copy_from_slice(&g.from);
    to.copy_from_slice(&g.to);
    mark.copy_from_slice(&g.mark);
    pack(None, 0)
}

pub fn amg_start(file: &[u8], marking: &mut [u8]) -> u64
    ensures { StartCall file.now marking.old result marking.new }
{
    pack(stepping::start(file, marking).err(), 0)
}

pub fn amg_step(file: &[u8], marking: &mut [u8], transition: u16) -> u64
    ensures { StepCall file.now marking.old transition result marking.new }
{
    pack(stepping::step(file, marking, transition).err(), 0)
}

// The word's count is the firings.
pub fn amg_run(file: &[u8], marking: &mut [u8], list: &[u16]) -> u64
    ensures { RunCall file.now marking.old list.now result marking.new }
{
    let ran = stepping::run(file, marking, list);
    pack(ran.end.err(), ran.fired as u64)
}

// The word's count is the wait.
pub fn amg_wait(file: &[u8], marking: &[u8], transition: u16) -> u64
    ensures { WaitCall file.now marking.now transition result }
{
    match waiting::wait(file, marking, transition) {
        Ok(firings) => pack(None, u64::from(firings)),
        Err(refusal) => pack(Some(refusal), 0),
    }
}

// The word's count is the circuit's length; values are numerator, denominator, TBIO, TT and TCE.
pub fn amg_bounds(file: &[u8], circuit: &mut [u16], values: &mut [u64; 5]) -> u64
    ensures { BoundsCall file.now circuit.old values.old result circuit.new values.new }
{
    match bounds::bounds(file, circuit) {
        Ok(found) => {
            let five = bounds_values(&found);
            *values = five;
            pack(None, found.length as u64)
        }
        Err(refusal) => pack(Some(refusal), 0),
    }
}

// The word's count is the text's length, that of a refusal's one line too.
pub fn amg_report(file: &[u8], buffer: &mut [u8]) -> u64
    ensures { ReportCall file.now buffer.old result buffer.new }
{
    match report::report(file, buffer) {
        Ok(length) => pack(None, length as u64),
        Err(refused) => pack(Some(refused.refusal), refused.length as u64),
    }
}
