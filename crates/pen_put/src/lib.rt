// Plain functions that put a word, a number or a line end into a lent buffer, from a place on: what the writer's methods stand on.
#![tactic(auto, using(crate::proofs::PutLaws::putting), unfolding(crate::specs::Lines::line_end))]

ghost use Rattle.pen_put.specs.Digits.{digits};
ghost use Rattle.pen_put.specs.Lines.{HasRoom, Put, line_end};

// Copies a word into the buffer from `at` on, and says where the next byte goes.
pub fn put_word(buf: &mut [u8], at: usize, s: &[u8]) -> usize
    requires { HasRoom buf.old at s.now }
    ensures { Put buf.old at s.now buf.new result }
{
    let end = at + s.len();
    buf[at..end].copy_from_slice(s);
    end
}

// Writes the decimal digits of n: those of its tenth, then the last. (`write!` would answer a Result, and here nothing can fail.)
pub fn put_number(buf: &mut [u8], at: usize, n: u64) -> usize
    requires { HasRoom buf.old at (digits n) }
    ensures { Put buf.old at (digits n) buf.new result }
{
    if n < 10 {
        buf[at] = b'0' + n as u8;
        return at + 1;
    }
    let p = put_number(buf, at, n / 10);
    buf[p] = b'0' + (n % 10) as u8;
    p + 1
}

// Ends the line.
pub fn put_newline(buf: &mut [u8], at: usize) -> usize
    requires { HasRoom buf.old at line_end }
    ensures { Put buf.old at line_end buf.new result }
{
    buf[at] = b'\n';
    at + 1
}
