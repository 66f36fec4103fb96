//! Laws of listings.

ghost use Rattle.std.specs.Prelude.{◌≡◌, List, map, []};
ghost use Rattle.fm_coord.specs.Numbers.{AreDistinct};
ghost use Rattle.fm_coord.specs.States.{State};
ghost use Rattle.fm_world.specs.Worlds.{run_of, AreAccepted};
ghost use Rattle.fm_world.specs.Represents.{state_of, WorldRepresents};
ghost use Rattle.fm_world.specs.Listings.{Made, IsListing, IsStuck, IsMaximal, IsWhole, AreCoordinators, number_in, new_world_of, packets_of, steps_for, left_of};

use fm_coord::coordinator::Coordinator;
use fm_policy::keeper::NetKeeper;

/// A stuck listing is maximal, and if it leaves entries, no listing is whole. A listing that leaves none is whole.
/// Its steps, run from a new world, are not refused, and lead to a world for which the coordinators stand.
pub fn law_listings()
    ensures maximal { (ss : List State) (ms : List Made) → IsStuck ss ms → IsMaximal ss ms }
    ensures none_whole { (ss : List State) (ms other : List Made) → AreDistinct (map number_in ss) → IsStuck ss ms
        → IsWhole ss other → left_of ss ms ≡ [] }
    ensures whole { (ss : List State) (ms : List Made) → IsListing ss ms → left_of ss ms ≡ [] → IsWhole ss ms }
    ensures accepted { (ss : List State) (ms : List Made) → AreCoordinators ss → AreDistinct (map number_in ss)
        → IsWhole ss ms → AreAccepted (new_world_of ss) (steps_for [] ms) }
    ensures stands { (ss : List State) (ms : List Made) → AreCoordinators ss → AreDistinct (map number_in ss)
        → IsWhole ss ms → WorldRepresents (record { coordinators = ss; packets = packets_of ms })
        (run_of (new_world_of ss) (steps_for [] ms)) }
{}

/// What holds of every coordinator holds of each of these. O(n).
pub fn law_known<N: NetKeeper>(coordinators: &[Coordinator<N>])
    ensures { AreCoordinators (map state_of coordinators.now) }
{
    if let Some((first, rest)) = coordinators.split_first() {
        first.known();
        law_known(rest);
    }
}
