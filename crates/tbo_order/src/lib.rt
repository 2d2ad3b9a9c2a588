// The order in which a sweep takes operations and edges: along the places without a token, so that one sweep carries a rise along a whole way of them.
// Any order is right, and only the number of sweeps depends on it: so what is proved of it is that no item is missing.
#![tactic(auto)]

ghost use Rattle.std.specs.Prelude.{◌≡◌, true, ◌+◌, ◌<◌, ◌≤◌, length};
ghost use Rattle.net.specs.Limits.{most_edges, most_operations, most_transitions};
ghost use Rattle.tbo_order.specs.helpers.Items.{Enlisted, Item, ItemAt, Ordered, Sorting, most_items};
ghost use Rattle.tbo_order.specs.helpers.Orders.{PassDone, Took};

use net::wiring::Wiring;
use net::{EDGES, OPERATIONS, PLACES, TRANSITIONS};

// Room for every item. An item is one byte, an edge's number or EDGES and an operation's row: with an enum of two bytes `largest` takes longer.
pub const ITEMS: usize = OPERATIONS + EDGES;

// The item of number i: the edges first, then the operations.
fn item(n: usize, e: usize, i: usize) -> u8
    requires { (n ≤ most_operations) × (e ≤ most_edges) × (i < n + e) }
    ensures { ItemAt e i result }
{
    if i < e {
        i as u8
    } else {
        (i - e + EDGES) as u8
    }
}

// Where the item's places without a token come from, or where they lead (`onward`): an operation's from its read to its next, an edge's from a write to
// a read where its full place has none, else back.
fn end(g: &Wiring, marking: &[u8; PLACES], x: usize, onward: bool) -> usize
    requires { Item g.now.operations g.now.edges x }
    ensures { result < most_transitions }
{
    if x >= EDGES {
        let p = 3 * (x - EDGES);
        if onward {
            return p + 3;
        }
        return p + 1;
    }
    let ahead = marking[3 * g.operations + 2 * x] == 0;
    if ahead == onward {
        return g.reader(x);
    }
    g.writer(x)
}

// How many items lead to each transition, with all items in left.
fn enlist(g: &Wiring, marking: &[u8; PLACES], wait: &mut [u8; TRANSITIONS], left: &mut [u8; ITEMS])
    requires left_len { length left.old ≡ most_items }
    ensures { Enlisted g.now.operations g.now.edges (g.now.operations + g.now.edges) left.new }
{
    for i in 0..g.operations + g.edges {
        let x = item(g.operations, g.edges, i);
        left[i] = x;
        let t = end(g, marking, usize::from(x), true);
        wait[t] = wait[t].saturating_add(1);
    }
}

// Whether an item may be taken: when nothing that leads to where it begins is left, or when it must.
fn ready(force: bool, waits: u8) -> bool
    ensures { force ≡ true → result ≡ true }
{
    force || waits == 0
}

// How many items are kept for the next pass, and how many are in order.
#[derive(Clone, Copy)]
pub struct Taken {
    pub kept: usize,
    pub put: usize,
}

// The item at i of left goes to the end of the order, or is kept. (The counts and arrays are no fields of one struct: a pass has the counts in registers,
// and takes longer otherwise.)
fn take(
    g: &Wiring,
    marking: &[u8; PLACES],
    force: bool,
    i: usize,
    l: usize,
    m: usize,
    c: usize,
    wait: &mut [u8; TRANSITIONS],
    left: &mut [u8; ITEMS],
    ord: &mut [u8; ITEMS],
) -> Taken
    requires i_lt_l { i < l }
    requires sorting { Sorting g.now.operations g.now.edges left.old ord.old i l m c }
    ensures { Took g.now.operations g.now.edges left.new ord.new force i l m result.kept result.put }
{
    let x = left[i];
    let k = usize::from(x);
    if ready(force, wait[end(g, marking, k, false)]) {
        let t = end(g, marking, k, true);
        wait[t] = wait[t].saturating_sub(1);
        ord[c] = x;
        return Taken {
            kept: m,
            put: c + 1,
        };
    }
    left[m] = x;
    Taken {
        kept: m + 1,
        put: c,
    }
}

// One pass over the l items that are left.
fn pass(
    g: &Wiring,
    marking: &[u8; PLACES],
    force: bool,
    l: usize,
    c: usize,
    wait: &mut [u8; TRANSITIONS],
    left: &mut [u8; ITEMS],
    ord: &mut [u8; ITEMS],
) -> Taken
    requires sorting { Sorting g.now.operations g.now.edges left.old ord.old 0 l 0 c }
    ensures { PassDone g.now.operations g.now.edges left.new ord.new force l result.kept result.put }
{
    let mut m = 0;
    let mut p = c;
    for i in 0..l {
        let s = take(g, marking, force, i, l, m, p, wait, left, ord);
        m = s.kept;
        p = s.put;
    }
    Taken { kept: m, put: p }
}

// Passes until one takes nothing; what is left then, where a circuit has no token, follows as it stands.
pub fn order(g: &Wiring, marking: &[u8; PLACES], ord: &mut [u8; ITEMS])
    requires ord_len { length ord.old ≡ most_items }
    ensures { Ordered g.now.operations g.now.edges ord.new }
{
    let mut wait = [0u8; TRANSITIONS];
    let mut left = [0u8; ITEMS];
    enlist(g, marking, &mut wait, &mut left);
    let mut l = g.operations + g.edges;
    let mut c = 0;
    loop {
        let s = pass(g, marking, false, l, c, &mut wait, &mut left, ord);
        c = s.put;
        if s.kept == l {
            pass(g, marking, true, l, c, &mut wait, &mut left, ord);
            return;
        }
        l = s.kept;
    }
}
