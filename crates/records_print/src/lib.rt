// What a line is made of: words, numbers behind a blank, and the lent memory, which ends it.
#![tactic(auto)]

ghost use Rattle.std.specs.Prelude.{ℕ, ◌≡◌, ◌++◌, ◌≤◌, map, take, IfOk, OnErr, OnOk};
ghost use Rattle.std.specs.Io.KnownBytes.{Appends};
ghost use Rattle.records_print.specs.Page.{Gathered, Roomy};
ghost use Rattle.records_print.specs.Text.{head_text, memory_text, number_text};

use refusal::Refusal;
use std::io;
use std::io::Write;

const PAGE: usize = 4096;

// More bytes than a number takes with its blank.
const MOST: usize = 32;

// Numbers of the memory are gathered here, so that a long one takes few writes. What is not yet written stands in the first bytes.
#[derive(Drop)]
struct Page {
    bytes: [u8; PAGE],
    fill: usize,
    ghost within: { fill ≤ 4096 },
}

pub fn word<W: Write>(output: &mut W, w: &[u8]) -> io::Result<()>
    ensures { OnOk result (Appends (W.contents output.old) (W.contents output.new) w.now) }
{
    output.write_all(w)
}

// In one write.
pub fn number<W: Write>(output: &mut W, x: u64) -> io::Result<()>
    ensures { OnOk result (Appends (W.contents output.old) (W.contents output.new) (number_text x)) }
{
    let mut text = [0u8; MOST];
    let end = pen::put_item(&mut text, 0, b" ", x);
    word(output, &text[..end])
}

// A call's name, and its refusal's number and place, 0 0 where it is done.
pub fn head<W: Write>(output: &mut W, name: &[u8], refusal: Option<Refusal>) -> io::Result<()>
    ensures { OnOk result (Appends (W.contents output.old) (W.contents output.new) (head_text name.now refusal)) }
{
    word(output, name)?;
    number(
        output,
        refusal.map_or(0, |r| u64::from(refusal::number(r.reason))),
    )?;
    number(output, refusal.map_or(0, |r| u64::from(r.place)))
}

// A number of the lent memory: a byte of a marking or a buffer, or an entry of a list.
pub trait Entry: Copy {
    ghost value: { Self → ℕ };

    fn long(self) -> u64
        ensures { result ≡ value self };
}

impl Entry for u8 {
    ghost value = { λ x. x };

    fn long(self) -> u64 {
        u64::from(self)
    }
}

impl Entry for u16 {
    ghost value = { λ x. x };

    fn long(self) -> u64 {
        u64::from(self)
    }
}

fn out<W: Write>(output: &mut W, page: &Page) -> io::Result<()>
    ensures { OnOk result (Appends (W.contents output.old) (W.contents output.new) (take page.now.fill page.now.bytes)) }
{
    word(output, &page.bytes[..page.fill])
}

// A page with no room for a number is written out and begun again.
fn turn<W: Write>(output: &mut W, page: &mut Page) -> io::Result<()>
    ensures room { OnOk result (Roomy page.new.fill) }
    ensures text { OnOk result
        (Gathered (W.contents output.old) (W.contents output.new) page.new.bytes page.new.fill (take page.old.fill page.old.bytes)) }
    ensures err { OnErr result (page.new ≡ page.old) }
{
    if PAGE - page.fill < MOST {
        out(output, page)?;
        page.fill = 0;
    }
    Ok(())
}

// One number of the memory.
fn put<W: Write>(output: &mut W, page: &mut Page, x: u64) -> io::Result<()>
    ensures text { OnOk result
        (Gathered (W.contents output.old) (W.contents output.new) page.new.bytes page.new.fill
        (take page.old.fill page.old.bytes ++ number_text x)) }
    ensures err { OnErr result (page.new ≡ page.old) }
{
    turn(output, page)?;
    page.fill = pen::put_item(&mut page.bytes, page.fill, b" ", x);
    Ok(())
}

// The lent memory, which ends the line.
pub fn memory<W: Write, T: Entry>(output: &mut W, entries: &[T]) -> io::Result<()>
    ensures { OnOk result (Appends (W.contents output.old) (W.contents output.new) (memory_text (map T.value entries.now))) }
{
    word(output, b" memory")?;
    let mut page = Page {
        bytes: [0; PAGE],
        fill: 0,
    };
    for x in entries {
        put(output, &mut page, x.long())?;
    }
    out(output, &page)?;
    word(output, b"\n")
}
