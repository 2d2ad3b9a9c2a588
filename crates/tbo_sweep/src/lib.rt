// One sweep: every place once. Where a place leads higher than its transition stands, the transition is raised and the place noted.
#![tactic(auto)]

ghost use Rattle.std.specs.Prelude.{◌+◌, ◌*◌, ◌<◌};
ghost use Rattle.marked.specs.Net.{at};
ghost use Rattle.net.specs.helpers.Wirings.{places_of};
ghost use Rattle.fraction.specs.helpers.Loaded.{Leads, highest};
ghost use Rattle.fraction.specs.helpers.Loads.{loaded_of};
ghost use Rattle.tbo_order.specs.helpers.Items.{Item, Ordered};
ghost use Rattle.tbo_sweep.specs.helpers.Places.{Between, Every, Of};
ghost use Rattle.tbo_sweep.specs.helpers.Raises.{RaisedAfter, Room, SweptAfter, SweptArrays};

use fraction::load::{Load, Rate};
use net::{EDGES, TRANSITIONS};
use tbo_order::ITEMS;

// The heights d and the notes pred are two arrays, here and below: d is lent from outside, and in a struct every function would have to promise that it
// hands back the same one. A note is the place's number plus one, 0 for none: an Option of it takes twice the room.
// The raise of t from s over the place p, which leads there. The answer, here and below, is the transition that rose last by then, if one did; `last`
// before.
fn raise(
    g: &Load,
    rate: Rate,
    d: &mut [u64; TRANSITIONS],
    pred: &mut [u16; TRANSITIONS],
    s: usize,
    t: usize,
    p: usize,
    last: Option<usize>,
) -> Option<usize>
    requires place { Leads (loaded_of g.now) p s t }
    requires room { Room (3 * highest) d.old pred.old }
    ensures { RaisedAfter s t p (rate.tokens * at g.now.times.now s) (rate.time * at g.now.marking.now p)
        d.old pred.old last d.new pred.new result }
{
    let up = d[s] + rate.gain(g.times[s]);
    let cost = rate.cost(g.marking[p]);
    if d[t] + cost < up {
        d[t] = up - cost;
        pred[t] = (p + 1) as u16;
        return Some(t);
    }
    last
}

// The three places of the operation in row i.
fn raise_op(
    g: &Load,
    rate: Rate,
    d: &mut [u64; TRANSITIONS],
    pred: &mut [u16; TRANSITIONS],
    i: usize,
    last: Option<usize>,
) -> Option<usize>
    requires row { i < g.now.wiring.operations }
    requires room { Room (2 * highest) d.old pred.old }
    ensures { SweptAfter (loaded_of g.now) rate.time rate.tokens (Between (3 * i) (3 * i + 3)) 3
        d.old pred.old last d.new pred.new result }
{
    let p = 3 * i;
    let x = raise(g, rate, d, pred, p + 1, p + 2, p, last);
    let y = raise(g, rate, d, pred, p + 2, p + 3, p + 1, x);
    raise(g, rate, d, pred, p + 3, p + 1, p + 2, y)
}

// The two places of edge k.
fn raise_edge(
    g: &Load,
    rate: Rate,
    d: &mut [u64; TRANSITIONS],
    pred: &mut [u16; TRANSITIONS],
    k: usize,
    last: Option<usize>,
) -> Option<usize>
    requires edge { k < g.now.wiring.edges }
    requires room { Room (2 * highest) d.old pred.old }
    ensures { SweptAfter (loaded_of g.now) rate.time rate.tokens
        (Between (3 * g.now.wiring.operations + 2 * k) (3 * g.now.wiring.operations + 2 * k + 2)) 2
        d.old pred.old last d.new pred.new result }
{
    let p = 3 * g.wiring.operations + 2 * k;
    let u = g.wiring.writer(k);
    let v = g.wiring.reader(k);
    let x = raise(g, rate, d, pred, u, v, p, last);
    raise(g, rate, d, pred, v, u, p + 1, x)
}

// The places of the item x.
fn raise_item(
    g: &Load,
    rate: Rate,
    d: &mut [u64; TRANSITIONS],
    pred: &mut [u16; TRANSITIONS],
    x: usize,
    last: Option<usize>,
) -> Option<usize>
    requires item { Item g.now.wiring.operations g.now.wiring.edges x }
    requires room { Room (2 * highest) d.old pred.old }
    ensures { SweptAfter (loaded_of g.now) rate.time rate.tokens (Of g.now.wiring.operations x) 3
        d.old pred.old last d.new pred.new result }
{
    if x >= EDGES {
        return raise_op(g, rate, d, pred, x - EDGES, last);
    }
    raise_edge(g, rate, d, pred, x, last)
}

// Every place once, item by item in the order of ord.
pub fn sweep(
    g: &Load,
    rate: Rate,
    ord: &[u8; ITEMS],
    d: &mut [u64; TRANSITIONS],
    pred: &mut [u16; TRANSITIONS],
) -> Option<usize>
    requires ordered { Ordered g.now.wiring.operations g.now.wiring.edges ord.now }
    requires room { Room highest d.old pred.old }
    ensures { SweptArrays (loaded_of g.now) rate.time rate.tokens (Every (places_of g.now.wiring))
        (3 * (g.now.wiring.operations + g.now.wiring.edges)) d.old pred.old d.new pred.new result }
{
    let mut last = None;
    for &x in &ord[..g.wiring.operations + g.wiring.edges] {
        last = raise_item(g, rate, d, pred, usize::from(x), last);
    }
    last
}
