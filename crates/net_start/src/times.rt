// The time of every transition, written into a lent buffer.
ghost use Rattle.net_start.specs.helpers.Times.{Timed};

use net::TRANSITIONS;
use net::rows::Accepted;

// A process takes its operation's time, every other transition none.
pub fn transition_times(g: &Accepted, out: &mut [u32; TRANSITIONS])
    ensures { Timed g.now.plotted.wiring.operations g.now.times.now out.new }
{
    *out = [0; TRANSITIONS];
    for i in 0..g.plotted.wiring.operations {
        out[3 * i + 2] = g.times[i];
    }
}
