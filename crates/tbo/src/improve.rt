// A closed walk with more time per token than a rate, or the certificate that there is none.
ghost use Rattle.fraction.specs.helpers.Loads.{loaded_of};
ghost use Rattle.tbo_order.specs.helpers.Items.{Ordered};
ghost use Rattle.tbo_sweep.specs.helpers.Raises.{Level};
ghost use Rattle.tbo.specs.helpers.Improved.{Improved, lowly};

use fraction::load::{Load, Rate};
use net::TRANSITIONS;
use tbo_order::ITEMS;
use tbo_round::{follow, go_round};
use tbo_sweep::sweep;

// Sweeps until none raises anything, which certifies, or until the notes come round: a closed walk that has more.
pub fn improve(g: &Load, rate: Rate, ord: &[u8; ITEMS], d: &mut [u64; TRANSITIONS]) -> Option<Rate>
    requires ordered { Ordered g.now.wiring.operations g.now.wiring.edges ord.now }
    requires level { Level lowly d.old }
    ensures { Improved (loaded_of g.now) rate.time rate.tokens d.new result }
{
    let mut pred = [0u16; TRANSITIONS];
    for _ in 0..TRANSITIONS + 1 {
        let v = sweep(g, rate, ord, d, &mut pred)?;
        let w = follow(&g.wiring, &pred, v);
        if pred[w] != 0 {
            let ring = go_round(g, &pred, w);
            return Some(ring);
        }
    }
    // The notes come round after as many sweeps as there are transitions.
    unreachable!()
}
