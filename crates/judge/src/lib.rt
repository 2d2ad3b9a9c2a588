// The verdict on a graph: rows 5 to 9, asked in order of its rows. The graph may come from a file or from lists.
#![tactic(auto)]

mod tokens;

ghost use Rattle.std.specs.Prelude.{◌≡◌, ◌<◌, IfSome};
ghost use Rattle.refusal.specs.Asking.{Judged};
ghost use Rattle.net.specs.Rules.{graph_rows};
ghost use Rattle.net.specs.helpers.Tables.{plan_of_rows};
ghost use Rattle.judge.specs.helpers.Told.{told};

use judge_joined::first_apart;
use judge_links::first_bare;
use judge_tables::edges::first_wrong;
use judge_tables::operations::first_late;
use net::rows::{Plotted, Rows};
use net::wiring::Wiring;
use refusal::{Reason, Verdict, refuse};
use tokens::first_dead;

// What a search found is refused for its reason.
fn asked(reason: Reason, found: Option<usize>) -> Verdict
    requires { IfSome found (λ x. x < 65536) }
    ensures { result ≡ told reason found }
{
    match found {
        Some(place) => Err(refuse(reason, place)),
        None => Ok(()),
    }
}

// The verdict on a graph whose counts are within their limits.
pub fn judge(g: &Rows) -> Verdict
    ensures { Judged (graph_rows (plan_of_rows g.now)) result }
{
    let Rows {
        operations,
        edges,
        times,
        from,
        to,
        mark,
        buffers,
    } = *g;
    asked(Reason::TimeWrong, first_late(operations, times))?;
    asked(
        Reason::EdgeWrong,
        first_wrong(operations, edges, from, to, mark, buffers),
    )?;
    let wiring = Wiring {
        operations,
        edges,
        from,
        to,
    };
    asked(Reason::NodeLoose, first_bare(&wiring))?;
    asked(Reason::NodeApart, first_apart(&wiring))?;
    asked(Reason::CircuitDead, first_dead(&Plotted { wiring, mark }))
}
