// Row 6: the lowest edge whose bytes are not allowed.
ghost use Rattle.std.specs.Prelude.{true, [], ◌≡◌, ◌≤◌};
ghost use Rattle.refusal.specs.Asking.{Kept};
ghost use Rattle.refusal.specs.helpers.Answers.{Finds, Says};
ghost use Rattle.net.specs.Limits.{most_edges, most_operations};
ghost use Rattle.net.specs.Plan.{rows};
ghost use Rattle.net.specs.Rules.{RowAllowed, row6};

use judge_extremes::{largest, smallest};
use net::EDGES;

// Whether the four bytes of a row are allowed.
fn allowed(n: usize, from: u8, to: u8, mark: u8, fourth: u8) -> bool
    requires { n ≤ most_operations }
    ensures { Says (RowAllowed n from to mark fourth) result }
{
    usize::from(from) <= n && (1..=n + 1).contains(&usize::from(to)) && mark <= 1 && fourth == 0
}

// Whether the extremes of every row are allowed: then every edge is.
fn plain(
    n: usize,
    e: usize,
    from: &[u8; EDGES],
    to: &[u8; EDGES],
    mark: &[u8; EDGES],
    buffers: &[u8; EDGES],
) -> bool
    requires { (n ≤ most_operations) × (e ≤ most_edges) }
    ensures { result ≡ true → Kept (row6 (rows n e [] from.now to.now mark.now buffers.now)) }
{
    1 <= smallest(e, to)
        && allowed(
            n,
            largest(e, from),
            largest(e, to),
            largest(e, mark),
            largest(e, buffers),
        )
}

// The lowest edge that is not allowed. It asks for no least counts, as a lent `Rows` would, so its rows come one by one.
pub fn first_wrong(
    n: usize,
    e: usize,
    from: &[u8; EDGES],
    to: &[u8; EDGES],
    mark: &[u8; EDGES],
    buffers: &[u8; EDGES],
) -> Option<usize>
    requires { (n ≤ most_operations) × (e ≤ most_edges) }
    ensures { Finds (row6 (rows n e [] from.now to.now mark.now buffers.now)) result }
{
    if plain(n, e, from, to, mark, buffers) {
        return None;
    }
    for k in 0..e {
        if !allowed(n, from[k], to[k], mark[k], buffers[k]) {
            return Some(k);
        }
    }
    None
}
