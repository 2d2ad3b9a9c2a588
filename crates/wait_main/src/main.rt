// For each file on standard input (two bytes of length, then the file): the wait of every transition, from the start and from two markings that are reached.
// Each is tried by firing: the lowest other transition that is enabled fires for as long as there is one, and then the transition asked for is enabled.
#![tactic(auto)]

use input::fill;
use keeping::{advance, keeps};
use net::PLACES;
use net::rows::Plotted;
use net::wiring::Wiring;
use net_start::start::start_marking;
use reader::look;
use std::io;
use std::io::Write;
use waiting::wait;

// The input goes no further.
const INPUT: usize = 65536;

// One transition: its wait, and whether it is kept just so long.
fn line<W: Write>(
    out: &mut W,
    file: &[u8],
    g: &Wiring,
    m: &[u8; PLACES],
    t: u16,
) -> io::Result<()> {
    let mut c = *m;
    let marking = &mut c[..g.places()];
    if let Ok(w) = wait(file, marking, t) {
        write!(out, "wait {t} {w}")?;
        if keeps(g, marking, t, w) {
            return out.write_all(b" kept\n");
        }
    }
    out.write_all(b" wrong\n")
}

// Every transition, from the marking that so many firings lead to.
fn after<W: Write>(
    out: &mut W,
    file: &[u8],
    g: &Wiring,
    m: &[u8; PLACES],
    times: u32,
) -> io::Result<()> {
    let mut c = *m;
    advance(g, &mut c[..g.places()], times);
    writeln!(out, "after firings {times}")?;
    for t in 0..g.transitions() as u16 {
        line(out, file, g, &c, t)?;
    }
    Ok(())
}

// The start, and two markings further on.
fn show<W: Write>(out: &mut W, file: &[u8], g: &Plotted) -> io::Result<()> {
    let mut m = [0; PLACES];
    start_marking(g, &mut m);
    after(out, file, &g.wiring, &m, 0)?;
    after(out, file, &g.wiring, &m, 5)?;
    after(out, file, &g.wiring, &m, 13)
}

fn show_file<W: Write>(out: &mut W, file: &[u8]) -> io::Result<()> {
    let Ok(g) = look(file) else {
        return out.write_all(b"refused\n");
    };
    writeln!(out, "ops {} edges {}", g.operations, g.edges)?;
    show(out, file, &g.lend().plotted)
}

// Every file, up to one that is cut short.
fn each<W: Write>(out: &mut W, mut rest: &[u8]) -> io::Result<()> {
    while let Some((length, behind)) = rest.split_first_chunk::<2>() {
        let length = usize::from(u16::from_le_bytes(*length));
        let Some((file, next)) = behind.split_at_checked(length) else {
            return Ok(());
        };
        show_file(out, file)?;
        rest = next;
    }
    Ok(())
}

fn main(rt: HostRuntime) -> io::Result<()> {
    let mut files = [0u8; INPUT];
    let n = fill(&mut rt.stdin(), &mut files)?;
    each(&mut rt.stdout(), &files[..n])
}
