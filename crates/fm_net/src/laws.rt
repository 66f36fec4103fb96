//! The laws of the network of a table, and of edits. Each function does nothing: its contract is the law.

ghost use Rattle.std.specs.Prelude.{◌≡◌, ◌↔◌, ◌<◌, ◌^◌, List, length};
ghost use Rattle.fm_records.specs.declared.ops.Op.{Op};
ghost use Rattle.fm_records.specs.Know.{table_of};
ghost use Rattle.fm_records.specs.Table.{Table};
ghost use Rattle.fm_records.specs.Ranges.{CanBe};
ghost use Rattle.fm_net.specs.Net.{CanBeNet, Net};
ghost use Rattle.fm_net.specs.Network.{IsNetworkOf, net_of};
ghost use Rattle.fm_net.specs.SetNetwork.{IsNetworkOfSet};
ghost use Rattle.fm_net.specs.declared.node.Node.{Node as NodeName};
ghost use Rattle.fm_net.specs.Edits.{MayEditAll, after_edits, change};
ghost use Rattle.fm_net.specs.Touched.{Touches, touched_change};

/// A network has exactly the nodes and arcs of a table if it is the one computed from the table, so a table has one.
pub fn law_network()
    ensures { (k : Table) (net : Net) → (IsNetworkOf k net ↔ (net ≡ net_of k)) }
{}

/// A network has exactly the nodes and arcs of a set of operations, by the facts of the set, if it is the one that is
/// computed from the table of the set.
pub fn law_network_of_sets()
    ensures { (S : List Op) (net : Net) → (IsNetworkOfSet S net ↔ (net ≡ net_of (table_of S))) }
{}

/// The network of a possible table, of fewer than 2^64 tasks, is a possible network.
pub fn law_can_be_net()
    ensures { (k : Table) → CanBe k → length k.tasks < 2 ^ 64 → CanBeNet (net_of k) }
{}

/// The change from one network to another may be made on the first, edit by edit, and gives the second.
pub fn law_change()
    ensures may { (n m : Net) → CanBeNet n → CanBeNet m → MayEditAll n (change n m) }
    ensures gives { (n m : Net) → CanBeNet n → CanBeNet m → after_edits (change n m) n ≡ m }
{}

/// If the touched nodes and pairs are all that differ, the edits of these are the complete change, in its order.
pub fn law_touched()
    ensures { (n m : Net) (nodes : List NodeName) (pairs : List (NodeName × NodeName)) → CanBeNet n → CanBeNet m
        → Touches n m nodes pairs → touched_change n m nodes pairs ≡ change n m }
{}
