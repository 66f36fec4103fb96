//! What holds of streams whose coordinators' knowledge is in a store.

ghost use Rattle.std.specs.Prelude.{ℕ, List, Option};
ghost use Rattle.fm_records.specs.declared.ops.Op.{Op};
ghost use Rattle.fm_delta.specs.declared.packet.Packet.{Packet};
ghost use Rattle.fm_io.specs.Groups.{LineGroup, Groups};
ghost use Rattle.fm_service.specs.StreamSteps.{StandBehind};
ghost use Rattle.fm_durable.specs.DurableSteps.{Durable, not_opened, DurableAnswers, DurableCommits, AreRecoverable};

use fm_service::laws::law_stored;

/// What was committed is kept. Coordinators are listed by a stream's first lines and begin with what is found in the content of a
/// device. Then, after each commit, each would know again by its packets in the store exactly what it knows: whether a commit adds packets
/// to those that were found, or puts one of all that each coordinator knows in their place.
pub fn law_kept()
    ensures { (most : ℕ) (behind : Packet → List Op) (label : List ℕ) (content : Option (List ℕ)) (groups : List LineGroup)
        (t : Durable) → StandBehind behind
        → Groups (DurableAnswers most behind label content) DurableCommits (not_opened label) groups t → AreRecoverable t }
{
    law_stored();
}
