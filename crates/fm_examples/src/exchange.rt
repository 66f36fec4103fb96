//! An exchange alone: coordinators without threads come to know the same.

ghost use Rattle.std.specs.Prelude.{map, IfErr, OnOk};
ghost use Rattle.fm_coord.specs.Numbers.{AreDistinct};
ghost use Rattle.fm_world.specs.Represents.{state_of, number_of};
ghost use Rattle.fm_gossip.specs.Exchanges.{StopsExchange};
ghost use Rattle.fm_gossip.specs.AfterExchange.{KnowSame};

use fm_coord::coordinator::Coordinator;
use fm_gossip::agreeing::law_exchanged;
use fm_gossip::exchange::exchange;
use fm_policy::keeper::NetKeeper;
use fm_records::refusal::Refusal;
use std::alloc::Global;

/// Has each of the coordinators tell the others all that it knows: then all know the same. The caller must ensure that no
/// two of them have one number. OutOfMemory, HistoryFull; then some may know more than before.
pub fn agree<N: NetKeeper>(
    alloc: Global,
    coordinators: &mut [Coordinator<N>],
) -> Result<(), Refusal>
    requires { AreDistinct (map number_of coordinators.old) }
    ensures same { OnOk result (KnowSame (map state_of coordinators.new)) }
    ensures err { IfErr result StopsExchange }
{
    law_exchanged(coordinators);
    exchange(alloc, coordinators)?;
    Ok(())
}
