// The lines before the waits: one function a line, each written behind the last.
#![tactic(auto, using(pen::proofs::Wrote::writing), unfolding(report_text::specs::Text::ring_places, report_text::specs::Text::ops_line, report_text::specs::Text::bound_lines, report_text::specs::Text::circuit_line, report_text::specs::Text::head_text))]

ghost use Rattle.pen.specs.Wrote.{HasRoomFor, Wrote};
ghost use Rattle.report_text.specs.Text.{ops_line, bound_lines, ring_places, circuit_line, head_text};

use bounds_graph::reply::Measures;
use net::wiring::Wiring;
use pen::Writer;

// The four counts, as `ops 1 edges 2 transitions 5 places 7`.
fn ops_line(w: &mut Writer, g: &Wiring)
    requires { HasRoomFor w.old (ops_line g.now.operations g.now.edges) }
    ensures { Wrote w.old (ops_line g.now.operations g.now.edges) w.new }
{
    w.item(b"ops ", g.operations as u64);
    w.item(b" edges ", g.edges as u64);
    w.pair_line(
        b" transitions ",
        g.transitions() as u64,
        b" places ",
        g.places() as u64,
    );
}

// The bounds, as `TBO 15/2`, `TBIO 5`, `TT 10`, `TCE 15`.
fn bound_lines(w: &mut Writer, found: &Measures)
    requires { HasRoomFor w.old
        (bound_lines found.now.numerator found.now.denominator found.now.tbio found.now.tt found.now.tce) }
    ensures { Wrote w.old
        (bound_lines found.now.numerator found.now.denominator found.now.tbio found.now.tt found.now.tce) w.new }
{
    w.pair_line(b"TBO ", found.numerator, b"/", found.denominator);
    w.item_line(b"TBIO ", u64::from(found.tbio));
    w.item_line(b"TT ", u64::from(found.tt));
    w.item_line(b"TCE ", u64::from(found.tce));
}

// All places of the circuit, each behind a blank.
fn ring_places(w: &mut Writer, ring: &[u16])
    requires { HasRoomFor w.old (ring_places ring.now) }
    ensures { Wrote w.old (ring_places ring.now) w.new }
{
    for place in ring {
        w.item(b" ", u64::from(*place));
    }
}

// The circuit, as `circuit 0 1 2`.
fn circuit_line(w: &mut Writer, ring: &[u16])
    requires { HasRoomFor w.old (circuit_line ring.now) }
    ensures { Wrote w.old (circuit_line ring.now) w.new }
{
    w.word(b"circuit");
    ring_places(w, ring);
    w.newline();
}

// All lines before the waits.
pub fn head_lines(w: &mut Writer, g: &Wiring, found: &Measures, ring: &[u16])
    requires { HasRoomFor w.old (head_text g.now.operations g.now.edges
        found.now.numerator found.now.denominator found.now.tbio found.now.tt found.now.tce ring.now) }
    ensures { Wrote w.old (head_text g.now.operations g.now.edges
        found.now.numerator found.now.denominator found.now.tbio found.now.tt found.now.tce ring.now) w.new }
{
    ops_line(w, g);
    bound_lines(w, found);
    circuit_line(w, ring);
}
