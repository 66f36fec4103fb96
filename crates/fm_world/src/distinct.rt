//! Coordinators by their numbers.

ghost use Rattle.std.specs.Prelude.{◌≡◌, ◌==◌, ◌↔◌, IsTrue, map, position};
ghost use Rattle.fm_coord.specs.Numbers.{AreDistinct};
ghost use Rattle.fm_world.specs.Represents.{number_of};

use fm_coord::coordinator::Coordinator;
use fm_policy::keeper::NetKeeper;

/// Whether no two of the coordinators have one number. O(n) for each coordinator, of which at most 64 are looked at.
pub fn distinct<N: NetKeeper>(coordinators: &[Coordinator<N>]) -> bool
    ensures { IsTrue result ↔ AreDistinct (map number_of coordinators.now) }
{
    match coordinators.split_first() {
        None => true,
        Some((first, rest)) => index_of(rest, first.number().value()).is_none() && distinct(rest),
    }
}

// The index of the first coordinator with the number.
pub(crate) fn index_of<N: NetKeeper>(coordinators: &[Coordinator<N>], number: u8) -> Option<usize>
    ensures { result ≡ position (λ c. number_of c == number) coordinators.now }
{
    coordinators
        .iter()
        .position(|c| c.number().value() == number)
}
