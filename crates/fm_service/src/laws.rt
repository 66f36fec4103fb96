//! What holds of streams, in whatever processes they are followed.

ghost use Rattle.std.specs.Prelude.{◌≡◌, ◌<◌, ℕ, List, map, length, Some, None};
ghost use Rattle.fm_records.specs.declared.ops.Op.{Op};
ghost use Rattle.fm_records.specs.Know.{table_of};
ghost use Rattle.fm_records.specs.Sets.{HaveSameMembers};
ghost use Rattle.fm_records.specs.OpsOfTable.{ops};
ghost use Rattle.fm_delta.specs.declared.packet.Packet.{Packet};
ghost use Rattle.fm_coord.specs.Events.{Replica, Sent};
ghost use Rattle.fm_coord.specs.Replays.{seen_packet};
ghost use Rattle.fm_query.specs.QueryTexts.{graph_of, winners_of};
ghost use Rattle.fm_world.specs.Worlds.{with_number};
ghost use Rattle.fm_service.specs.StreamSteps.{Following, StandBehind, but_behind, packet_by_ops, Answers};
ghost use Rattle.fm_service.specs.Renewing.{renewed_replica};
ghost use Rattle.fm_service.specs.Storing.{numbers_listed, AreStored, HaveNothing, nothing_stored, stored_also, unstored_of, full_packets_of, all_stored, stored_mark_at, restored};

/// Coordinators that received the same operations, in any order and number of times, have one text for their networks
/// and one for their winners, whatever processes they run in. A coordinator received what it was told, what its own
/// rounds committed, and what stands behind the packets that it merged, by one choice for all coordinators
/// (`law_behind`), such as all that the senders had received for them, and not only what the bytes show.
pub fn law_same_answers()
    ensures graphs { (a b : Replica) → HaveSameMembers a.taken b.taken → graph_of a ≡ graph_of b }
    ensures winners { (a b : Replica) → HaveSameMembers a.taken b.taken → winners_of a ≡ winners_of b }
{}

/// Which operations may stand behind packets: those that each is written out as; and, for a packet that a coordinator
/// cut, all that the coordinator had received for it, also those that lost against others. So operations are traced
/// from one process to another. One choice gives equal packets (sender, number and value) the same operations. But
/// numbers begin again at a renewal, so a sender may cut two equal packets for different operations: then `sent` holds
/// of either set, and no choice has both.
pub fn law_behind()
    ensures spelled { StandBehind (λ p. ops p.value) }
    ensures sent { (behind : Packet → List Op) (p : Sent) → StandBehind behind
        → StandBehind (but_behind (seen_packet p) p.set behind) }
{}

/// A renewed replica has received the same operations, so all that it tells of what it knows stays the same.
pub fn law_renewed()
    ensures taken { (r : Replica) → HaveSameMembers (renewed_replica r).taken r.taken }
    ensures known { (r : Replica) → table_of (renewed_replica r).taken ≡ table_of r.taken }
{}

/// What is stored suffices: with a coordinator's deltas from its stored mark on, it is all that the coordinator took in.
/// - `opened`: once a line lists the coordinators, they have nothing, and nothing is stored.
/// - `line`: no line that is answered takes anything of this away.
/// - `stored`: what is not stored is stored too; then all deltas are marked as stored.
/// - `full`: all that each knows is stored, in place of what was stored; then all deltas are marked as stored.
/// - `marked`: then the mark of each coordinator is how many deltas it has.
/// - `restored`: coordinators that have nothing merge what was stored.
/// - `listed`: no line changes which coordinators are listed, or their order.
/// - `known`: if a coordinator's mark is how many deltas it has, the table of what is stored is what it knows.
pub fn law_stored()
    ensures opened { (most : ℕ) (behind : Packet → List Op) (line answer : List ℕ) (k : Following)
        → Answers most behind None line answer (Some k) → HaveNothing k × AreStored nothing_stored k }
    ensures line { (S : ℕ → List Op) (most : ℕ) (behind : Packet → List Op) (line answer : List ℕ) (k j : Following)
        → Answers most behind (Some k) line answer (Some j) → AreStored S k → AreStored S j }
    ensures stored { (S : ℕ → List Op) (k : Following) → AreStored S k
        → AreStored (stored_also S (unstored_of k)) (all_stored k) }
    ensures full { (k : Following) → AreStored (stored_also nothing_stored (full_packets_of k)) (all_stored k) }
    ensures marked { (k : Following) (n : ℕ) (r : Replica) → n < 256 → with_number k.world.replicas n ≡ Some r
        → stored_mark_at (all_stored k) n ≡ length r.buffer }
    ensures restored { (behind : Packet → List Op) (k : Following) (packets : List Packet) → HaveNothing k
        → AreStored (stored_also nothing_stored (map (packet_by_ops behind) packets))
        (all_stored (restored behind k packets)) }
    ensures listed { (most : ℕ) (behind : Packet → List Op) (line answer : List ℕ) (k j : Following)
        → Answers most behind (Some k) line answer (Some j) → numbers_listed (Some j) ≡ numbers_listed (Some k) }
    ensures known { (S : ℕ → List Op) (k : Following) (n : ℕ) (r : Replica) → n < 256 → AreStored S k
        → with_number k.world.replicas n ≡ Some r → stored_mark_at k n ≡ length r.buffer
        → table_of (S n) ≡ table_of r.taken }
{}
