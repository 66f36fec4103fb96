//! Why threads of a fleet end before their work is done, and which of several reasons is named.
//!
//! A thread that is refused stops the fleet. What then ends only for that is no reason by itself, so it is not named: which
//! threads it reaches depends on time.
ghost use Rattle.std.specs.Prelude.{◌≡◌, None, IsTrue, IfSome};
ghost use Rattle.fm_gossip.specs.FleetFaults.{may_stop};
ghost use Rattle.fm_gossip.specs.inner.EarlyEnds.{may_end, named_end};

use fm_records::refusal::Refusal;

/// Why a thread ended early: it was refused, a packet is left that it does not await, or it found the fleet stopped.
#[derive(Clone, Copy, Drop)]
pub(crate) enum Early {
    Refused(Refusal),
    Left,
    Stopped,
}

impl From<Refusal> for Early {
    ghost use Rattle.std.specs.Prelude.{◌≡◌};
    ghost use Rattle.fm_gossip.specs.declared.early.Early.TheVariants.{Refused};

    ghost from_gives = { λ refusal early. early ≡ Refused refusal };

    fn from(refusal: Refusal) -> Early {
        Early::Refused(refusal)
    }
}

/// Which of two is named: the first that was not only stopped, else that one was stopped, if one was.
pub(crate) fn first_of(one: Option<Early>, other: Option<Early>) -> Option<Early>
    ensures named { result ≡ named_end one other }
    ensures none { result ≡ None → (one ≡ None) × (other ≡ None) }
    ensures cause { IfSome one (λ early. IsTrue (may_end early)) → IfSome other (λ early. IsTrue (may_end early))
        → IfSome result (λ early. IsTrue (may_end early)) }
{
    match (one, other) {
        (None, _) | (Some(Early::Stopped), Some(Early::Refused(_) | Early::Left)) => other,
        _ => one,
    }
}

/// The end of a thread that was refused so, if it was.
pub(crate) fn refused_by(refusal: Option<Refusal>) -> Option<Early>
    ensures none { result ≡ None → refusal ≡ None }
    ensures cause { IfSome refusal (λ r. IsTrue (may_stop r)) → IfSome result (λ early. IsTrue (may_end early)) }
{
    match refusal {
        Some(refusal) => Some(Early::Refused(refusal)),
        None => None,
    }
}
