// Levels by a sweep over the edges, in the order of the table: one settles most graphs, and on a small one it is quicker than any list.
ghost use Rattle.std.specs.Prelude.{◌<◌, ◌≤◌, length};
ghost use Rattle.net.specs.Limits.{most_transitions};
ghost use Rattle.net.specs.helpers.Wirings.{places_of};

use net::TRANSITIONS;
use net::wiring::Wiring;

// One place, from s to t: while it is empty, t stands above s.
fn raise(s: usize, t: usize, tokens: u8, level: &mut [u8; TRANSITIONS])
    requires { (s < most_transitions) × (t < most_transitions) }
{
    if tokens == 0 && level[t] <= level[s] && level[s] < u8::MAX {
        level[t] = level[s] + 1;
    }
}

// The two places of edge k. In the operation that it enters, the process stands above the read and the write above that: at the start nothing is processed.
fn raise_edge(g: &Wiring, k: usize, marking: &[u8], level: &mut [u8; TRANSITIONS])
    requires long { places_of g.now ≤ length marking.now }
    requires k_lt_e { k < g.now.edges }
{
    let p = 3 * g.operations + 2 * k;
    let a = g.writer(k);
    let b = g.reader(k);
    raise(a, b, marking[p], level);
    raise(b, a, marking[p + 1], level);
    if b < 3 * g.operations {
        raise(b, b + 1, 0, level);
        raise(b + 1, b + 2, 0, level);
    }
}

// Every edge once.
pub fn sweep(g: &Wiring, marking: &[u8], level: &mut [u8; TRANSITIONS])
    requires { places_of g.now ≤ length marking.now }
{
    for k in 0..g.edges {
        raise_edge(g, k, marking, level);
    }
}
