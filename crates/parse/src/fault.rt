// The refusals of shapes: the earliest is kept.
ghost use Rattle.std.specs.Prelude.{◌≡◌};
ghost use Rattle.parse.specs.Contract.{cleaned, fault, fault_at, sooner, Judged, bound_fault, size_fault, length_fault};
ghost use Rattle.parse.specs.Entry.{as_refused};

use crate::State;
use text::refusal::{Refusal, Refused};

// A refusal, and the byte where it stands, as a word, as all places in a state are. With a `Refused` in the state, whose place is a `usize`, the case `matches`
// of bench/reader took 5 percent more instructions and `statements` 2, both more than at the commit that docs/DESIGN-PASS.md begins with.
#[derive(Clone, Copy, PartialEq, Eq, Debug)]
pub(crate) struct Fault {
    pub(crate) refusal: Refusal,
    pub(crate) place: u32,
}

impl From<Fault> for Refused {
    ghost from_gives = { λ f r. r ≡ as_refused f };

    fn from(fault: Fault) -> Refused {
        Refused {
            refusal: fault.refusal,
            place: fault.place as usize,
        }
    }
}

// The refusal, if there is one, at this place.
#[tactic(auto, unfolding(crate::specs::Contract::fault, crate::specs::Contract::fault_at))]
pub(crate) fn placed(refusal: Option<Refusal>, place: u32) -> Option<Fault>
    ensures { fault result ≡ fault_at refusal place }
{
    refusal.map(|refusal| Fault { refusal, place })
}

// The state without a refusal.
#[tactic(auto, unfolding(crate::specs::Contract::cleaned))]
pub(crate) fn clean(st: State) -> State
    ensures { result ≡ cleaned st }
{
    State { fault: None, ..st }
}

// Of two refusals the earlier; the first if they are at one place, and the other one if one is none. `a.into_iter().chain(b).min_by_key(|f| f.place)` was
// tried: what it promises is said by the runs of the chain and the keys that were given, and no search closes that; of the match below it closes every goal.
#[tactic(auto, unfolding(crate::specs::Contract::fault, grammar::specs::Records::Faults::earlier))]
fn earlier(a: Option<Fault>, b: Option<Fault>) -> Option<Fault>
    ensures { fault result ≡ sooner (fault a) (fault b) }
{
    match (a, b) {
        (Some(first), Some(second)) => { if second.place < first.place { b } else { a } }
        _ => a.or(b),
    }
}

// The second state with the earliest refusal: of the first state, `own`, of the second state.
pub(crate) fn judged(outer: State, inner: State, own: Option<Fault>) -> State
    ensures { Judged outer inner (fault own) result }
{
    State {
        fault: earlier(outer.fault, earlier(own, inner.fault)),
        ..inner
    }
}

// The refusal of a number that is no bound. This and the next two are no one function of a test's answer and a refusal: the contract of each names the
// definition from which grammar's refusals are proved, and such a function would be the same line with both parts handed in.
#[tactic(auto, unfolding(crate::specs::Contract::bound_fault))]
pub(crate) fn bound(v: Option<u64>) -> Option<Refusal>
    ensures { result ≡ bound_fault v }
{
    (!num::is_bound(v)).then_some(Refusal::Bound)
}

// The refusal of a number that is no size.
#[tactic(auto, unfolding(crate::specs::Contract::size_fault))]
pub(crate) fn size(v: Option<u64>) -> Option<Refusal>
    ensures { result ≡ size_fault v }
{
    (!num::is_size(v)).then_some(Refusal::Size)
}

// The refusal of a number that is no length of an array.
#[tactic(auto, unfolding(crate::specs::Contract::length_fault))]
pub(crate) fn array_length(v: Option<u64>) -> Option<Refusal>
    ensures { result ≡ length_fault v }
{
    (!num::is_length(v)).then_some(Refusal::Length)
}
