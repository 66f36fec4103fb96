//! Coordinators alone: one passes on all that it knows.

ghost use Rattle.std.specs.Prelude.{◌≡◌, OnOk};
ghost use Rattle.fm_records.specs.Joined.{table_join};

use fm_coord::coordinator::Coordinator;
use fm_coord::entry::Range;
use fm_policy::keeper::NetKeeper;
use fm_records::refusal::Refusal;

/// Sends all that `from` knows to `to`, which then knows what both did. Seat 0 makes both calls.
/// HistoryFull if the history of one of them is full, OutOfMemory if memory runs out: then `to` is unchanged.
pub fn hand_over<N: NetKeeper>(
    from: &mut Coordinator<N>,
    to: &mut Coordinator<N>,
) -> Result<(), Refusal>
    ensures knows { OnOk result (to.new.state.knowledge ≡ table_join to.old.state.knowledge from.old.state.knowledge) }
    ensures keeps { from.new.state.knowledge ≡ from.old.state.knowledge }
{
    let packet = from.cut(0, Range::Full)?;
    to.merge(0, packet.get().copy()?)
}
