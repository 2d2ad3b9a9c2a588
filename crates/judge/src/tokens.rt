// Row 9: the lowest transition on a circuit of the computational graph that has no token at the start.
ghost use Rattle.refusal.specs.helpers.Answers.{Finds};
ghost use Rattle.net.specs.Rules.{row9};
ghost use Rattle.net.specs.helpers.Tables.{plan_of_plotted};

use net::PLACES;
use net::rows::Plotted;
use net_start::start::start_marking;

// The start is made here, since look hands out none.
pub fn first_dead(g: &Plotted) -> Option<usize>
    ensures { Finds (row9 (plan_of_plotted g.now)) result }
{
    let mut marking = [0; PLACES];
    start_marking(g, &mut marking);
    dead::first_dead(&g.wiring, &marking)
}
