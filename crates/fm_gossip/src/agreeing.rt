//! What coordinators know after they exchanged all that they knew, and whose packets they merged.
//!
//! The threads are over then, so this is about histories that are gathered into one list of steps, and holds of every
//! schedule.

ghost use Rattle.std.specs.Prelude.{◌≡◌, List, map};
ghost use Rattle.fm_coord.specs.Numbers.{AreDistinct};
ghost use Rattle.fm_coord.specs.States.{State};
ghost use Rattle.fm_world.specs.Represents.{state_of, number_of};
ghost use Rattle.fm_world.specs.Listings.{Made, IsWhole};
ghost use Rattle.fm_gossip.specs.Exchanges.{after_exchange};
ghost use Rattle.fm_gossip.specs.AfterExchange.{KnowSame, AreCutBySenders};

use fm_coord::coordinator::Coordinator;
use fm_policy::keeper::NetKeeper;
use fm_world::laws::law_known;

/// After coordinators of distinct numbers exchanged all that they know, they know the same.
pub fn law_exchanged<N: NetKeeper>(coordinators: &[Coordinator<N>])
    requires { AreDistinct (map number_of coordinators.now) }
    ensures { KnowSame (after_exchange (map state_of coordinators.now)) }
{
    law_known(coordinators);
}

/// If the histories of coordinators of distinct numbers are one list of steps, each packet that one of them merged was
/// cut by the one that it names as its sender.
pub fn law_senders<N: NetKeeper>(coordinators: &[Coordinator<N>])
    requires { AreDistinct (map number_of coordinators.now) }
    ensures { (made : List Made) → IsWhole (map state_of coordinators.now) made
        → AreCutBySenders (map state_of coordinators.now) }
{
    law_known(coordinators);
}
