//! Laws of keys and of arcs. Each function only states: its contract is the law.

ghost use Rattle.std.specs.Prelude.{◌≡◌, ◌&&◌, ℕ, Some, true};
ghost use Rattle.fm_records.specs.Table.{Table};
ghost use Rattle.fm_records.specs.Ranges.{CanBe};
ghost use Rattle.fm_records.specs.Joined.{table_join};
ghost use Rattle.fm_net.specs.declared.node.Node.{Node as NodeName};
ghost use Rattle.fm_net.specs.Network.{is_node, arc_of};
ghost use Rattle.fm_policy.specs.Building.{MayHaveArc};
ghost use Rattle.fm_policy.specs.NodeFacts.{facts_of, is_there, arc_between};
ghost use Rattle.fm_policy.specs.Changes.{Keys, changed_keys, joined_keys, has_no_keys};

use fm_know::knowledge::Knowledge;
use fm_know::laws::law_can_be;

/// The keys of two deltas joined are the keys of both: so a keeper that follows several deltas at once, by all their keys,
/// follows one delta.
pub fn law_joined_keys()
    ensures { (k l : Table) → CanBe k → CanBe l → changed_keys (table_join k l)
        ≡ joined_keys (changed_keys k) (changed_keys l) }
{}

/// A delta without keys changes nothing.
pub fn law_no_keys()
    ensures joined { (a b : Keys) → has_no_keys (joined_keys a b) ≡ (has_no_keys a && has_no_keys b) }
    ensures nothing { (k d : Table) → has_no_keys (changed_keys d) ≡ true → table_join k d ≡ k }
{}

/// The network has the nodes that are there by what is known of each alone, and the arcs that follow from what is known of
/// their two ends.
pub fn law_facts()
    ensures nodes { (k : Table) (n : NodeName) → is_there (facts_of k n) ≡ is_node k n }
    ensures arcs { (k : Table) (a b : NodeName) → arc_between (facts_of k a) (facts_of k b) ≡ arc_of k a b }
{}

/// Each arc joins two nodes of the network, of kinds that an arc may join. Its capacity is at least 1, and its cost at most
/// 1,000,000,000.
pub fn law_arcs(knowledge: &Knowledge)
    ensures { (a b : NodeName) (arc : ℕ × ℕ) → arc_of knowledge.now a b ≡ Some arc → MayHaveArc knowledge.now a b arc }
{
    law_can_be(knowledge);
    // tasks in memory are fewer than 2^64
    let _count = knowledge.tasks().len();
}
