// TBO: the largest time per token of a circuit of the computational graph, with a certificate that no circuit has more.
#![tactic(auto)]

pub mod improve;

ghost use Rattle.std.specs.Prelude.{◌≡◌, ◌+◌, ◌*◌, ◌<◌, ◌≤◌};
ghost use Rattle.marked.specs.Net.{at};
ghost use Rattle.marked.specs.Circuits.{Live};
ghost use Rattle.net.specs.Limits.{most_operations};
ghost use Rattle.net.specs.Graph.{net_of};
ghost use Rattle.net.specs.helpers.Wirings.{wires_of};
ghost use Rattle.fraction.specs.helpers.Loads.{loaded_of};
ghost use Rattle.tbo_round.specs.helpers.Chains.{Tour};
ghost use Rattle.tbo.specs.helpers.LargestBy.{LargestBy};

use fraction::load::{Load, Rate};
use improve::improve;
use net::{PLACES, TRANSITIONS};
use tbo_order::{ITEMS, order};

// What the ring of the operation in row i takes: the sum of its three transition times.
fn ring_time(times: &[u32; TRANSITIONS], i: usize) -> u64
    requires { i < most_operations }
    ensures { result ≡ at times.now (3 * i + 1) + at times.now (3 * i + 2) + at times.now (3 * i + 3) }
{
    let p = 3 * i;
    u64::from(times[p + 1]) + u64::from(times[p + 2]) + u64::from(times[p + 3])
}

// Its tokens: the sum of those of its three places.
fn ring_tokens(marking: &[u8; PLACES], i: usize) -> u64
    requires { i < most_operations }
    ensures { result ≡ at marking.now (3 * i) + at marking.now (3 * i + 1) + at marking.now (3 * i + 2) }
{
    let p = 3 * i;
    u64::from(marking[p]) + u64::from(marking[p + 1]) + u64::from(marking[p + 2])
}

// The ring of the operation in row i.
fn ring(g: &Load, i: usize) -> Rate
    requires { i < g.now.wiring.operations }
    ensures { Tour (net_of (wires_of g.now.wiring)) (at g.now.marking.now) (at g.now.times.now)
        result.time result.tokens }
{
    let time = ring_time(g.times, i);
    let tokens = ring_tokens(g.marking, i);
    Rate { time, tokens }
}

// A row of an operation, and no more is promised of it. (It is one whose ring takes longest, which leaves little to improve.)
fn slowest(n: usize, times: &[u32; TRANSITIONS]) -> usize
    requires { (1 ≤ n) × (n ≤ most_operations) }
    ensures { result < n }
{
    let mut best = 0;
    let mut most = ring_time(times, 0);
    for i in 1..n {
        let x = ring_time(times, i);
        if most < x {
            best = i;
            most = x;
        }
    }
    best
}

// The largest time per token of a circuit, not yet in lowest terms, with its certificate in d.
// It starts from the ring of an operation and takes a better closed walk as long as there is one.
pub fn largest(g: &Load, d: &mut [u64; TRANSITIONS]) -> Rate
    requires live { Live (net_of (wires_of g.now.wiring)) (at g.now.marking.now) }
    ensures { LargestBy (loaded_of g.now) result.time result.tokens d.new }
{
    let mut ord = [0u8; ITEMS];
    order(&g.wiring, g.marking, &mut ord);
    let mut best = ring(g, slowest(g.wiring.operations, g.times));
    loop {
        d.fill(0);
        let Some(better) = improve(g, best, &ord, d) else {
            return best;
        };
        best = better;
    }
}
