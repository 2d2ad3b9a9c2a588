// A fraction in lowest terms, by Euclid's algorithm.
ghost use Rattle.std.specs.Prelude.{◌≤◌};
ghost use Rattle.fraction.specs.helpers.Terms.{InLowest};
ghost use Rattle.fraction.specs.helpers.Divides.{Divisor};

use crate::load::Rate;

// The greatest number that divides both.
fn divisor(a: u64, b: u64) -> u64
    requires { 1 ≤ b }
    ensures { Divisor a b result }
{
    let mut x = a;
    let mut y = b;
    while y != 0 {
        let r = x % y;
        x = y;
        y = r;
    }
    x
}

impl Rate {
    // The same fraction in lowest terms.
    pub fn reduced(self) -> Rate
        requires { 1 ≤ self.tokens }
        ensures { InLowest self.time self.tokens result.time result.tokens }
    {
        let g = divisor(self.time, self.tokens);
        Rate {
            time: self.time / g,
            tokens: self.tokens / g,
        }
    }
}
