//! The laws of what a delta can change. Each function does nothing: its contract is the law.

ghost use Rattle.std.specs.Prelude.{◌≡◌, ◌≤◌, ℕ, false, List, [], length};
ghost use Rattle.fm_records.specs.Sets.{IsMember};
ghost use Rattle.fm_records.specs.Table.{Table};
ghost use Rattle.fm_records.specs.Ranges.{CanBe};
ghost use Rattle.fm_records.specs.Joined.{table_join};
ghost use Rattle.fm_records.specs.Facts.{live_spec, holder_of, load_of, spare_of};
ghost use Rattle.fm_net.specs.declared.node.Node.{Node as NodeName};
ghost use Rattle.fm_net.specs.declared.edit.Edit.{Edit as EditName};
ghost use Rattle.fm_net.specs.Edits.{change, after_edits as after_edits};
ghost use Rattle.fm_net.specs.Net.{Net, CanBeNet};
ghost use Rattle.fm_net.specs.Network.{is_node, arc_of, net_of};
ghost use Rattle.fm_policy.specs.Changes.{Keys, changed_keys};
ghost use Rattle.fm_edit.specs.declared.look.Key.{Key as KeyName};
ghost use Rattle.fm_edit.specs.Dirty.{SameBeyond, dirty_task, IsDirtyMachine, MayTurn, MayDiffer, MayMake};
ghost use Rattle.fm_edit.specs.Change.{AreDistinctEdits};
ghost use Rattle.fm_edit.specs.Lookups.{looks_of, IsDirtyKey};

/// A delta changes nothing that its keys do not name: at most its machines turn.
pub fn law_same_beyond()
    ensures { (k d : Table) → CanBe k → CanBe d
        → SameBeyond k (table_join k d) (changed_keys d) (changed_keys d).machines }
{}

/// A task that is not dirty stays live or not, and held as it was.
pub fn law_clean_task()
    ensures live { (k after : Table) (keys : Keys) (turned : List ℕ) → SameBeyond k after keys turned → (t : ℕ)
        → dirty_task k after keys turned t ≡ false → live_spec after t ≡ live_spec k t }
    ensures holder { (k after : Table) (keys : Keys) (turned : List ℕ) → SameBeyond k after keys turned → (t : ℕ)
        → dirty_task k after keys turned t ≡ false → holder_of after t ≡ holder_of k t }
{}

/// A delta that tells of no job and no task, and with which no machine turned, makes no task dirty: so a report alone
/// makes none dirty.
pub fn law_report()
    ensures { (k after : Table) (keys : Keys) → keys.jobs ≡ [] → keys.tasks ≡ [] → (t : ℕ)
        → dirty_task k after keys [] t ≡ false }
{}

/// A machine that is not dirty has the same load and spare.
pub fn law_clean_machine()
    ensures load { (k after : Table) (keys : Keys) (turned : List ℕ) → SameBeyond k after keys turned → (m : ℕ)
        → ¬ IsDirtyMachine k after keys turned m → load_of after m ≡ load_of k m }
    ensures spare { (k after : Table) (keys : Keys) (turned : List ℕ) → SameBeyond k after keys turned → (m : ℕ)
        → ¬ IsDirtyMachine k after keys turned m → spare_of after m ≡ spare_of k m }
{}

/// A delta changes only nodes and arcs that the dirty jobs, tasks, machines and requests name. This also holds if
/// only some of the delta's machines turned: so a report alone makes no task dirty.
pub fn law_local()
    ensures nodes { (k after : Table) (keys : Keys) (turned : List ℕ) → SameBeyond k after keys turned → (n : NodeName)
        → ¬ MayTurn k after keys turned n → is_node after n ≡ is_node k n }
    ensures arcs { (k after : Table) (keys : Keys) (turned : List ℕ) → SameBeyond k after keys turned → (a b : NodeName)
        → ¬ MayDiffer k after keys turned a b → arc_of after a b ≡ arc_of k a b }
{}

/// The change from a network to that after a delta puts and drops only nodes that may turn and pairs that may differ.
pub fn law_edits()
    ensures { (k after : Table) (keys : Keys) (turned : List ℕ) → SameBeyond k after keys turned → (e : EditName)
        → ¬ MayMake k after keys turned e → ¬ IsMember e (change (net_of k) (net_of after)) }
{}

/// Edits that turn one network into another are at least as many as those of the change.
pub fn law_least()
    ensures { (n m : Net) → CanBeNet n → CanBeNet m → (edits : List EditName) → after_edits edits n ≡ m
        → length (change n m) ≤ length edits }
{}

/// No two edits of the change from one network to another are of the same node, or of an arc with the same ends.
pub fn law_once()
    ensures { (n m : Net) → CanBeNet n → CanBeNet m → AreDistinctEdits (change n m) }
{}

/// The arc of a request to a machine that is not dirty is unchanged, unless the request came or went as a node: so a
/// proposal touches no arc of the requests of other tasks but those to the machines concerned.
pub fn law_request_arc()
    ensures { (k after : Table) (keys : Keys) (turned : List ℕ) → SameBeyond k after keys turned → (r m : ℕ)
        → is_node after (NodeName.Request r) ≡ is_node k (NodeName.Request r) → ¬ IsDirtyMachine k after keys turned m
        → arc_of after (NodeName.Request r) (NodeName.Machine m) ≡ arc_of k (NodeName.Request r) (NodeName.Machine m) }
{}

/// What is looked up for a delta is dirty.
pub fn law_looks()
    ensures { (k after : Table) (keys : Keys) (turned : List ℕ) (x : KeyName) → IsMember x (looks_of after keys)
        → IsDirtyKey k after keys turned x }
{}
