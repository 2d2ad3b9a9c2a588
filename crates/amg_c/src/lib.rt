// The calls under the names that C links (include/amg.h): each is the call of crate amg, and promises the same.
#![tactic(auto)]

ghost use Rattle.amg.specs.Calls.{BoundsCall, LookCall, ReportCall, RunCall, StartCall, StepCall, WaitCall};
ghost use Rattle.amg.specs.Tables.{tables};

use net::{EDGES, OPERATIONS};

#[unsafe(no_mangle)]
pub extern "C" fn amg_look(
    file: &[u8],
    counts: &mut [u32; 2],
    times: &mut [u32; OPERATIONS],
    from: &mut [u8; EDGES],
    to: &mut [u8; EDGES],
    mark: &mut [u8; EDGES],
) -> u64
    ensures { LookCall file.now
        (tables counts.old times.old from.old to.old mark.old) result
        (tables counts.new times.new from.new to.new mark.new) }
{
    amg::amg_look(file, counts, times, from, to, mark)
}

#[unsafe(no_mangle)]
pub extern "C" fn amg_start(file: &[u8], marking: &mut [u8]) -> u64
    ensures { StartCall file.now marking.old result marking.new }
{
    amg::amg_start(file, marking)
}

#[unsafe(no_mangle)]
pub extern "C" fn amg_step(file: &[u8], marking: &mut [u8], transition: u16) -> u64
    ensures { StepCall file.now marking.old transition result marking.new }
{
    amg::amg_step(file, marking, transition)
}

#[unsafe(no_mangle)]
pub extern "C" fn amg_run(file: &[u8], marking: &mut [u8], list: &[u16]) -> u64
    ensures { RunCall file.now marking.old list.now result marking.new }
{
    amg::amg_run(file, marking, list)
}

#[unsafe(no_mangle)]
pub extern "C" fn amg_wait(file: &[u8], marking: &[u8], transition: u16) -> u64
    ensures { WaitCall file.now marking.now transition result }
{
    amg::amg_wait(file, marking, transition)
}

#[unsafe(no_mangle)]
pub extern "C" fn amg_bounds(file: &[u8], circuit: &mut [u16], values: &mut [u64; 5]) -> u64
    ensures { BoundsCall file.now circuit.old values.old result circuit.new values.new }
{
    amg::amg_bounds(file, circuit, values)
}

#[unsafe(no_mangle)]
pub extern "C" fn amg_report(file: &[u8], buffer: &mut [u8]) -> u64
    ensures { ReportCall file.now buffer.old result buffer.new }
{
    amg::amg_report(file, buffer)
}
