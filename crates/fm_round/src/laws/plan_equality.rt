//! The laws of equality of the parts of plans and of stops: `==` holds exactly if the values are the same.

ghost use Rattle.std.specs.Prelude.{◌≡◌, ◌↔◌, IsTrue};

use crate::plan::{Answer, Place, Preempt, Stop};

/// Whether two places are the same.
pub fn places(place: &Place, other: &Place) -> bool
    ensures { IsTrue result ↔ (place.now ≡ other.now) }
{
    place == other
}

/// Whether two preempts are the same.
pub fn preempts(preempt: &Preempt, other: &Preempt) -> bool
    ensures { IsTrue result ↔ (preempt.now ≡ other.now) }
{
    preempt == other
}

/// Whether two answers are the same.
pub fn answers(answer: &Answer, other: &Answer) -> bool
    ensures { IsTrue result ↔ (answer.now ≡ other.now) }
{
    answer == other
}

/// Whether two stops are the same.
pub fn stops(stop: &Stop, other: &Stop) -> bool
    ensures { IsTrue result ↔ (stop.now ≡ other.now) }
{
    stop == other
}
