// The computational graph with its tokens and times, lent, and a fraction of time per token.
ghost use Rattle.fraction.specs.helpers.Loaded.{Pair, Weighted};

use net::wiring::Wiring;
use net::{PLACES, TRANSITIONS};

// A wiring, the tokens of each place and the time of each transition: not too many, and not too long.
#[derive(Clone, Copy)]
pub struct Load<'a> {
    pub wiring: Wiring<'a>,
    pub marking: &'a [u8; PLACES],
    pub times: &'a [u32; TRANSITIONS],
    pub ghost weighted: { Weighted wiring.operations wiring.edges wiring.from.now wiring.to.now marking.now times.now },
}

// So much time for so many tokens, within limits that leave room for every sum.
#[derive(Clone, Copy)]
pub struct Rate {
    pub time: u64,
    pub tokens: u64,
    pub ghost pair: { Pair time tokens },
}

impl Rate {
    ghost use Rattle.std.specs.Prelude.{◌≡◌, ◌*◌, ◌≤◌};
    ghost use Rattle.net.specs.Limits.{longest_time};
    ghost use Rattle.fraction.specs.helpers.Loaded.{most_cost, most_time, most_tokens};

    // What a time gains: the rate's tokens for each unit of it.
    pub fn gain(self, time: u32) -> u64
        requires { time ≤ longest_time }
        ensures { (result ≡ self.tokens * time) × (result ≤ most_time) }
    {
        self.tokens * u64::from(time)
    }

    // What tokens cost: the rate's time for each.
    pub fn cost(self, tokens: u8) -> u64
        requires { tokens ≤ most_tokens }
        ensures { (result ≡ self.time * tokens) × (result ≤ most_cost) }
    {
        self.time * u64::from(tokens)
    }
}
