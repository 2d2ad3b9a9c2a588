// Shows the pen at work: lines from the smallest number to the largest, put together as a report's are.
#![tactic(auto, using(pen::proofs::Wrote::writing), unfolding(crate::specs::Page::number_row, crate::specs::Page::page))]

ghost use Rattle.std.specs.Prelude.{OnOk};
ghost use Rattle.std.specs.Io.KnownBytes.{Appends};
ghost use Rattle.pen.specs.Wrote.{HasRoomFor, Wrote};
ghost use Rattle.pen_main.specs.Page.{number_row, page, shown};

use pen::Writer;
use std::io;
use std::io::Write;

// Each number behind a blank: a loop over the pen.
fn put_row(w: &mut Writer, ns: &[u64])
    requires { HasRoomFor w.old (number_row ns.now) }
    ensures { Wrote w.old (number_row ns.now) w.new }
{
    for n in ns {
        w.item(b" ", *n);
    }
}

// The lines, one behind the other.
fn put_page(w: &mut Writer, ns: &[u64])
    requires { HasRoomFor w.old (page ns.now) }
    ensures { Wrote w.old (page ns.now) w.new }
{
    w.item_line(b"TCE ", 0);
    w.pair_line(b"TBO ", u64::MAX, b"/", 10);
    w.word(b"circuit");
    put_row(w, ns);
    w.newline();
}

// Writes the page in one piece.
fn show<W: Write>(out: &mut W) -> io::Result<()>
    ensures { OnOk result (Appends (W.contents out.old) (W.contents out.new) (page shown)) }
{
    let mut buf = [0u8; 128];
    let mut w = Writer {
        buf: &mut buf,
        at: 0,
    };
    put_page(&mut w, &[0, 9, 10, u64::MAX]);
    let end = w.at;
    out.write_all(&w.buf[..end])
}

fn main(rt: HostRuntime) -> io::Result<()> {
    show(&mut rt.stdout())
}
