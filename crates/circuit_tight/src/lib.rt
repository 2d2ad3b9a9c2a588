// The tight places, listed once: for each transition those that leave it, in rising order.
#![tactic(auto)]

ghost use Rattle.std.specs.Prelude.{ℕ, ◌≤◌};
ghost use Rattle.marked.specs.Net.{at};
ghost use Rattle.fraction.specs.helpers.Loaded.{highest};
ghost use Rattle.circuit_tight.specs.helpers.Lists.{Whole};
ghost use Rattle.circuit_tight.specs.helpers.Entries.{nexts, sources, targets};

use fraction::load::{Load, Rate};
use net::{PLACES, TRANSITIONS};

// The target of a place that is not listed: no transition has this number.
pub const LOOSE: u8 = TRANSITIONS as u8;

// A rate over a load, and a potential for each transition that leaves room for every sum.
#[derive(Clone, Copy)]
pub struct Certificate<'a> {
    pub load: Load<'a>,
    pub rate: Rate,
    pub potentials: &'a [u64; TRANSITIONS],
    pub ghost low: { (v : ℕ) → at potentials.now v ≤ highest },
}

impl Certificate<'_> {
    ghost use Rattle.std.specs.Prelude.{◌↔◌, IsTrue};
    ghost use Rattle.net.specs.Graph.{RunsFrom, net_of};
    ghost use Rattle.net.specs.helpers.Wirings.{wires_of};
    ghost use Rattle.circuit_tight.specs.helpers.Certificates.{IsTight};

    // Whether the place p, from s to t, is tight: what is gained on it is all that it costs.
    fn is_tight(&self, s: usize, t: usize, p: usize) -> bool
        requires { RunsFrom (net_of (wires_of self.now.load.wiring)) p s t }
        ensures { IsTrue result ↔ IsTight self.now p }
    {
        let up = self.rate.gain(self.load.times[s]);
        let cost = self.rate.cost(self.load.marking[p]);
        self.potentials[s] + up == self.potentials[t] + cost
    }
}

// A place as it is listed: the next one that leaves the same transition, and both its ends.
#[derive(Clone, Copy)]
pub struct Entry {
    pub next: u16,
    pub source: u8,
    pub target: u8,
}

// For each transition the first listed place that leaves it, and an entry for each place.
// The number of places stands for none, as LOOSE does: options would widen every entry, and the lists stand on the stack of a call.
#[derive(Drop)]
pub struct Lists {
    pub head: [u16; TRANSITIONS],
    pub entries: [Entry; PLACES],
    pub ghost whole: { Whole head (nexts entries) (sources entries) (targets entries) },
}

impl Lists {
    ghost use Rattle.std.specs.Prelude.{◌+◌, ◌*◌, ◌<◌};
    ghost use Rattle.net.specs.Graph.{RunsFrom, net_of};
    ghost use Rattle.net.specs.helpers.Wirings.{places_of, wires_of};
    ghost use Rattle.circuit_tight.specs.helpers.Certificates.{Longer};

    // The place p from s to t: where it is tight it becomes the first of the places that leave s.
    fn list_place(&mut self, c: &Certificate, s: usize, t: usize, p: usize)
        requires { RunsFrom (net_of (wires_of c.now.load.wiring)) p s t }
        ensures { Longer c.now (p + 1) p self.old self.new }
    {
        if !c.is_tight(s, t, p) {
            return;
        }
        self.entries[p] = Entry {
            next: self.head[s],
            source: s as u8,
            target: t as u8,
        };
        self.head[s] = p as u16;
    }

    // The three places of the operation in row i, the last first.
    fn list_op(&mut self, c: &Certificate, i: usize)
        requires { i < c.now.load.wiring.operations }
        ensures { Longer c.now (3 * i + 3) (3 * i) self.old self.new }
    {
        let p = 3 * i;
        self.list_place(c, p + 3, p + 1, p + 2);
        self.list_place(c, p + 2, p + 3, p + 1);
        self.list_place(c, p + 1, p + 2, p)
    }

    // The two places of edge k, the last first.
    fn list_edge(&mut self, c: &Certificate, k: usize)
        requires { k < c.now.load.wiring.edges }
        ensures { Longer c.now (3 * c.now.load.wiring.operations + 2 * k + 2) (3 * c.now.load.wiring.operations + 2 * k)
            self.old self.new }
    {
        let g = &c.load.wiring;
        let p = 3 * g.operations + 2 * k;
        let u = g.writer(k);
        let v = g.reader(k);
        self.list_place(c, v, u, p + 1);
        self.list_place(c, u, v, p)
    }

    // The places of the operations, the last first.
    fn list_ops(&mut self, c: &Certificate)
        ensures { Longer c.now (3 * c.now.load.wiring.operations) 0 self.old self.new }
    {
        for i in (0..c.load.wiring.operations).rev() {
            self.list_op(c, i);
        }
    }

    // The places of the edges, the last first.
    fn list_edges(&mut self, c: &Certificate)
        ensures { Longer c.now (places_of c.now.load.wiring) (3 * c.now.load.wiring.operations) self.old self.new }
    {
        for k in (0..c.load.wiring.edges).rev() {
            self.list_edge(c, k);
        }
    }

    // Every tight place.
    pub fn list_tight(&mut self, c: &Certificate)
        ensures { Longer c.now (places_of c.now.load.wiring) 0 self.old self.new }
    {
        self.list_edges(c);
        self.list_ops(c)
    }
}
