//! Keepers that are told operations one by one, and follow.

ghost use Rattle.std.specs.Prelude.{IsTrue, OnOk};

use fm_know::knowledge::Knowledge;
use fm_know::laws::law_can_be;
use fm_policy::changed::changed_of;
use fm_policy::keeper::NetKeeper;
use fm_records::ops::Op;
use fm_records::refusal::Refusal;
use std::alloc::Global;

/// Tells the operation to what is known and lets the keeper follow.
pub(crate) fn told<K: NetKeeper>(
    alloc: Global,
    known: &mut Knowledge,
    keeper: &mut K,
    op: &Op,
) -> Result<(), Refusal>
    requires { IsTrue (K.fresh keeper.old) → K.is_for keeper.old known.old }
    ensures { OnOk result (IsTrue (K.fresh keeper.new) → K.is_for keeper.new known.new) }
{
    op.check()?;
    let delta = Knowledge::delta_of(alloc, op)?;
    let changed = changed_of(alloc, &delta)?;
    law_can_be(known);
    law_can_be(&delta);
    known.join_into(&delta)?;
    keeper.absorb(alloc, known, &changed)?;
    Ok(())
}
