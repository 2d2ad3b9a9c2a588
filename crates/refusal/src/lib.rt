// Refusals: why a call refuses and where, rows asked in order, and what tests and searches of a row answer. Lowest of all crates.
#![tactic(auto)]

ghost use Rattle.std.specs.Prelude.{◌≡◌, ◌<◌};
ghost use Rattle.refusal.specs.Numbers.{number_of};

// Why: the rows of the refusal table, each with its number there.
#[derive(Clone, Copy, PartialEq, Eq)]
pub enum Reason {
    LengthWrong = 1,
    TrailerWrong = 2,
    CountsWrong = 3,
    TablesWrong = 4,
    TimeWrong = 5,
    EdgeWrong = 6,
    NodeLoose = 7,
    NodeApart = 8,
    CircuitDead = 9,
    MarkingWrong = 10,
    MarkingUnreached = 11,
    TransitionUnknown = 12,
    TransitionDisabled = 13,
    RoomShort = 14,
}

// The rule that is broken, and the place that it reports.
#[derive(Clone, Copy, PartialEq, Eq)]
pub struct Refusal {
    pub reason: Reason,
    pub place: u16,
}

// Whether all rules are kept; if not, the refusal.
pub type Verdict = Result<(), Refusal>;

// The number of a reason in the table.
pub fn number(reason: Reason) -> u8
    ensures { result ≡ number_of reason }
{
    reason as u8
}

// The refusal for a reason, at a place.
pub fn refuse(reason: Reason, place: usize) -> Refusal
    requires { place < 65536 }
    ensures { result ≡ record { reason = reason; place = place } }
{
    Refusal {
        reason,
        place: place as u16,
    }
}
