// Prints the dead transition, if there is one, and the distances from every transition, for the worked graphs P1 to P6 at the start.
#![tactic(auto)]

ghost use Rattle.std.specs.Prelude.{◌<◌, ◌≤◌, length};
ghost use Rattle.net.specs.Good.{Marked, Wired};
ghost use Rattle.net_main.specs.Columns.{Column};

use dead::first_dead;
use distances::distances;
use net::rows::Plotted;
use net::wiring::Wiring;
use net::{EDGES, PLACES, TRANSITIONS};
use net_start::start::start_marking;
use std::io;
use std::io::Write;

// A graph, in columns.
#[derive(Drop)]
struct Table {
    operations: usize,
    edges: usize,
    from: [u8; EDGES],
    to: [u8; EDGES],
    mark: [u8; EDGES],
    ghost wired: { Wired operations edges from to },
    ghost marked: { Marked operations edges mark },
}

impl Table {
    fn lend(&self) -> Plotted<'_> {
        let wiring = Wiring {
            operations: self.operations,
            edges: self.edges,
            from: &self.from,
            to: &self.to,
        };
        Plotted {
            wiring,
            mark: &self.mark,
        }
    }
}

// One column of an edge table with three numbers an edge, each held between least and most.
fn column(edges: &[[u8; 3]], c: usize, least: u8, most: u8) -> [u8; EDGES]
    requires { (length edges.now ≤ 5) × (c < 3) × (least ≤ most) }
    ensures { Column least most result }
{
    let mut out = [least; EDGES];
    for (k, edge) in edges.iter().enumerate() {
        out[k] = edge[c].clamp(least, most);
    }
    out
}

// The graph of n operations and these edges, each node and mark held within its limits.
fn held(n: usize, edges: &[[u8; 3]]) -> Table
    requires { (1 ≤ n) × (n ≤ 40) × (length edges.now ≤ 5) }
{
    let from = column(edges, 0, 0, n as u8);
    let to = column(edges, 1, 1, n as u8 + 1);
    let mark = column(edges, 2, 0, 1);
    Table {
        operations: n,
        edges: edges.len(),
        from,
        to,
        mark,
    }
}

// The distances, in one line.
fn line<W: Write>(out: &mut W, d: &[u16]) -> io::Result<()> {
    for x in d {
        write!(out, " {x}")?;
    }
    out.write_all(b"\n")
}

// The lowest transition on a token-free circuit.
fn show_dead<W: Write>(out: &mut W, g: &Wiring, marking: &[u8; PLACES]) -> io::Result<()> {
    match first_dead(g, marking) {
        Some(t) => writeln!(out, "dead {t}"),
        None => out.write_all(b"dead none\n"),
    }
}

// The distances from every transition.
fn show_all<W: Write>(out: &mut W, g: &Wiring, marking: &[u8; PLACES]) -> io::Result<()> {
    let mut d = [0; TRANSITIONS];
    for t in 0..g.transitions() {
        distances(g, marking, t, &mut d);
        write!(out, "from {t}")?;
        line(out, &d[..g.transitions()])?;
    }
    Ok(())
}

// One graph at the start: its number, its operations, and its edges as from, to and mark.
fn show<W: Write>(out: &mut W, number: u64, n: usize, edges: &[[u8; 3]]) -> io::Result<()>
    requires { (1 ≤ n) × (n ≤ 40) × (length edges.now ≤ 5) }
{
    writeln!(out, "P{number}")?;
    let table = held(n, edges);
    let g = table.lend();
    let mut marking = [0; PLACES];
    start_marking(&g, &mut marking);
    show_dead(out, &g.wiring, &marking)?;
    show_all(out, &g.wiring, &marking)
}

fn main(rt: HostRuntime) -> io::Result<()> {
    let out = &mut rt.stdout();
    show(out, 1, 1, &[[0, 1, 0], [1, 2, 0]])?;
    show(out, 2, 2, &[[0, 1, 0], [1, 2, 0], [2, 1, 1], [2, 3, 0]])?;
    show(
        out,
        3,
        3,
        &[[0, 1, 0], [1, 2, 0], [2, 3, 1], [3, 1, 1], [3, 4, 0]],
    )?;
    show(out, 4, 2, &[[0, 1, 0], [1, 2, 0], [1, 2, 1], [2, 3, 0]])?;
    show(out, 5, 1, &[[0, 1, 0], [1, 1, 1], [1, 2, 0]])?;
    show(out, 6, 1, &[[0, 1, 0], [1, 1, 0], [1, 2, 0]])
}
