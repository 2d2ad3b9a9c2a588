// The five numbers that bounds hands out beside its word.
ghost use Rattle.std.specs.Prelude.{◌≡◌};
ghost use Rattle.amg_word.specs.Numbers.{bounds_values};

use bounds_graph::reply::Measures;

pub fn bounds_values(found: &Measures) -> [u64; 5]
    ensures { result ≡ bounds_values found.now }
{
    [
        found.numerator,
        found.denominator,
        u64::from(found.tbio),
        u64::from(found.tt),
        u64::from(found.tce),
    ]
}
