// Row 5: the lowest operation whose time is outside its limits.
ghost use Rattle.std.specs.Prelude.{[], ◌≤◌};
ghost use Rattle.refusal.specs.helpers.Answers.{Finds, Says};
ghost use Rattle.net.specs.Limits.{Duration, most_operations};
ghost use Rattle.net.specs.Plan.{rows};
ghost use Rattle.net.specs.Rules.{row5};

use net::{OPERATIONS, SHORTEST_TIME, TIME};

// Whether a time is within its limits.
fn timely(time: u32) -> bool
    ensures { Says (Duration time) result }
{
    (SHORTEST_TIME..=TIME).contains(&time)
}

// The lowest operation whose time is outside its limits: row k is operation k + 1.
pub fn first_late(n: usize, times: &[u32; OPERATIONS]) -> Option<usize>
    requires { n ≤ most_operations }
    ensures { Finds (row5 (rows n 0 times.now [] [] [] [])) result }
{
    for (row, &time) in times[..n].iter().enumerate() {
        if !timely(time) {
            return Some(row + 1);
        }
    }
    None
}
