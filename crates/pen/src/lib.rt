// The pen: a writer that holds the lent report buffer and its fill, and the lines that it writes.
#![tactic(auto, using(crate::proofs::Wrote::writing), unfolding(pen_put::specs::Lines::item, pen_put::specs::Lines::item_line, pen_put::specs::Lines::pair_line))]

ghost use Rattle.pen_put.specs.Digits.{digits};
ghost use Rattle.pen_put.specs.Lines.{HasRoom, Put, item, item_line, line_end, pair_line};
ghost use Rattle.pen.specs.Wrote.{HasRoomFor, Wrote};

use pen_put::{put_newline, put_number, put_word};

// The buffer on loan, and where its next byte goes.
#[derive(Drop)]
pub struct Writer<'a> {
    pub buf: &'a mut [u8],
    pub at: usize,
}

impl Writer<'_> {
    // Writes a word.
    pub fn word(&mut self, s: &[u8])
        requires { HasRoomFor self.old s.now }
        ensures { Wrote self.old s.now self.new }
    {
        self.at = put_word(self.buf, self.at, s);
    }

    // Writes a number's decimal digits.
    pub fn number(&mut self, n: u64)
        requires { HasRoomFor self.old (digits n) }
        ensures { Wrote self.old (digits n) self.new }
    {
        self.at = put_number(self.buf, self.at, n);
    }

    // Ends the line.
    pub fn newline(&mut self)
        requires { HasRoomFor self.old line_end }
        ensures { Wrote self.old line_end self.new }
    {
        self.at = put_newline(self.buf, self.at);
    }

    // Writes a word and a number: what every line is made of.
    pub fn item(&mut self, name: &[u8], n: u64)
        requires { HasRoomFor self.old (item name.now n) }
        ensures { Wrote self.old (item name.now n) self.new }
    {
        self.word(name);
        self.number(n);
    }

    // Writes a line of a word and a number, as `TCE 5`.
    pub fn item_line(&mut self, name: &[u8], n: u64)
        requires { HasRoomFor self.old (item_line name.now n) }
        ensures { Wrote self.old (item_line name.now n) self.new }
    {
        self.item(name, n);
        self.newline();
    }

    // Writes a line of a word, a number, a word and a number, as `TBO 15/2`.
    pub fn pair_line(&mut self, name: &[u8], m: u64, bar: &[u8], n: u64)
        requires { HasRoomFor self.old (pair_line name.now m bar.now n) }
        ensures { Wrote self.old (pair_line name.now m bar.now n) self.new }
    {
        self.item(name, m);
        self.item_line(bar, n);
    }
}

// A word and a number, for a buffer whose fill its owner keeps; says where the next byte goes.
pub fn put_item(buf: &mut [u8], at: usize, name: &[u8], n: u64) -> usize
    requires { HasRoom buf.old at (item name.now n) }
    ensures { Put buf.old at (item name.now n) buf.new result }
{
    let mut w = Writer { buf, at };
    w.item(name, n);
    w.at
}
