// The lines of the waits, one a transition.
ghost use Rattle.std.specs.Prelude.{◌≤◌, length, get_or};
ghost use Rattle.net.specs.helpers.Wirings.{transitions_of};
ghost use Rattle.pen.specs.Wrote.{HasRoomFor, Wrote};
ghost use Rattle.report_text.specs.Text.{wait_lines};

use net::wiring::Wiring;
use pen::Writer;

// The wait of each transition, in order, as `wait 4 8`.
pub fn wait_lines(w: &mut Writer, g: &Wiring, waits: &[u32])
    requires each { transitions_of g.now ≤ length waits.now }
    requires has_room { HasRoomFor w.old (wait_lines g.now.operations (λ t. get_or waits.now t 0)) }
    ensures { Wrote w.old (wait_lines g.now.operations (λ t. get_or waits.now t 0)) w.new }
{
    for t in 0..g.transitions() {
        w.pair_line(b"wait ", t as u64, b" ", u64::from(waits[t]));
    }
}
