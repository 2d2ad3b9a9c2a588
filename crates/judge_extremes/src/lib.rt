// The extremes of a row. No test leaves these folds early, so the processor takes many entries at once.
#![tactic(auto)]

ghost use Rattle.std.specs.Prelude.{◌≤◌};
ghost use Rattle.net.specs.Limits.{most_edges};
ghost use Rattle.judge_extremes.specs.helpers.Extremes.{NoneAbove, NoneBelow};

use net::EDGES;

// The largest of the first e entries.
pub fn largest(e: usize, row: &[u8; EDGES]) -> u8
    requires { e ≤ most_edges }
    ensures { NoneAbove e row.now result }
{
    row[..e].iter().copied().fold(u8::MIN, u8::max)
}

// The smallest of the first e entries.
pub fn smallest(e: usize, row: &[u8; EDGES]) -> u8
    requires { e ≤ most_edges }
    ensures { NoneBelow e row.now result }
{
    row[..e].iter().copied().fold(u8::MAX, u8::min)
}
