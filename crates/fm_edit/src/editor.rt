//! A keeper that edits its network after each delta (incremental view maintenance: Gupta and Mumick, 1995).
//!
//! To build the network again costs what is known, even if a delta has one record. An Editor remembers the records that
//! it looked up, and where tasks are listed and counted. After a delta it takes the dirty tasks out of these lists,
//! looks up the changed records, and puts the tasks back. Then it compares what was touched with the network: a delta
//! costs what it changes.

ghost use Rattle.std.specs.Prelude.{◌≡◌, ◌++◌, [], true, false, IsTrue, IfOk, OnOk, OnErr};
ghost use Rattle.fm_records.specs.Know.{table_of};
ghost use Rattle.fm_records.specs.Table.{Table};
ghost use Rattle.fm_net.specs.Edits.{after_edits, change, MayEditAll};
ghost use Rattle.fm_net.specs.Network.{net_of};
ghost use Rattle.fm_policy.specs.Keeping.{FollowsAfter};
ghost use Rattle.fm_edit.specs.Dirty.{CountsDirtyTasks};
ghost use Rattle.fm_edit.specs.Lookups.{looks_of};
ghost use Rattle.fm_edit.specs.EditorModel.{is_fresh_editor, taken_out, one_more, IsFor};

use crate::editor_state::EditorState;
use crate::look::{KnowLook, Look};
use fm_know::knowledge::Knowledge;
use fm_know::laws::law_can_be;
use fm_lattice::join::OutOfMemory;
use fm_lattice::shared::Shared;
use fm_net::apply::make_all;
use fm_net::edit::Edit;
use fm_net::network::Network;
use fm_policy::build::build;
use fm_policy::changed::{Changed, changed_of};
use fm_policy::keeper::NetKeeper;
use std::alloc::Global;

/// A keeper that follows what is known by edits of its network (incremental view maintenance). It remembers the
/// records that it looked up, and where tasks are listed and counted, so that a delta costs what it changes, and not
/// what is known. It counts the edits that it made since its network was built.
#[derive(Drop)]
pub struct Editor {
    memory: EditorState,
    network: Shared<Network>,
    fresh: bool,
    edits: u64,
}

impl Editor {
    /// Fresh, with the network of nothing known.
    pub fn new(alloc: Global) -> Result<Editor, OutOfMemory>
        ensures fresh { IfOk result (λ e. IsTrue (is_fresh_editor e)) }
        ensures nothing { IfOk result (λ e. IsFor e (table_of [])) }
        ensures edits { IfOk result (λ e. e.edits ≡ 0) }
    {
        let network = Network::new(alloc)?;
        Editor::with(alloc, EditorState::new(alloc), network)
    }

    // Fresh, if the memory is of what the network was built of.
    fn with(alloc: Global, memory: EditorState, network: Network) -> Result<Editor, OutOfMemory>
        ensures fresh { IfOk result (λ e. IsTrue (is_fresh_editor e)) }
        ensures memory { IfOk result (λ e. e.memory ≡ memory) }
        ensures network { IfOk result (λ e. e.network ≡ network) }
        ensures edits { IfOk result (λ e. e.edits ≡ 0) }
    {
        Ok(Editor {
            memory,
            network: Shared::new(alloc, network)?,
            fresh: true,
            edits: 0,
        })
    }

    /// Fresh, with a network that was built of what is known. What there is to remember is filled in from there: O(n
    /// log n).
    pub(crate) fn of(
        alloc: Global,
        network: Network,
        now: &Knowledge,
    ) -> Result<Editor, OutOfMemory>
        requires { network ≡ net_of now.now }
        ensures fresh { IfOk result (λ e. IsTrue (is_fresh_editor e)) }
        ensures given { IfOk result (λ e. IsFor e now.now) }
        ensures edits { IfOk result (λ e. e.edits ≡ 0) }
    {
        law_can_be(now);
        let all = changed_of(alloc, now)?;
        let mut look = KnowLook::new(alloc, now);
        let memory = EditorState::of(alloc, &mut look, &all)?;
        Editor::with(alloc, memory, network)
    }

    /// How many deltas it followed by an edit since its network was built, at most 2^64 - 1.
    pub fn edits(&self) -> u64
        ensures { result ≡ self.now.edits }
    {
        self.edits
    }

    /// How many tasks its edits took out of its memory and put back since its network was built, at most 2^64 - 1. An
    /// edit takes out each dirty task once, and no other.
    pub fn taken_out(&self) -> u64
        ensures { result ≡ taken_out self.now }
    {
        self.memory.index.taken
    }
}

/// Follows a knowledge after a delta with these keys was merged into it, and returns the edits that were made:
/// exactly those that turn the network of the earlier knowledge into that of the present one, that is, arcs that go,
/// nodes that go, nodes that come, and arcs that come or differ, each in node order. It looks up only the records of
/// the delta, and for each of its tasks the winner of the present attempt, and it takes out and puts back only the
/// dirty tasks. The caller must pass a fresh Editor for the earlier knowledge. If memory runs out, the Editor is
/// stale.
pub fn edit<L: Look>(
    alloc: Global,
    editor: &mut Editor,
    look: &mut L,
    changed: &Changed,
) -> Result<Vec<Edit>, OutOfMemory>
    requires fresh { IsTrue (is_fresh_editor editor.old) }
    requires took_in { FollowsAfter true (IsFor editor.old) (L.table look.old) changed.now }
    ensures least { (k : Table) → IsFor editor.old k
        → IfOk result (λ edits. edits.items ≡ change (net_of k) (net_of (L.table look.old))) }
    ensures fresh { OnOk result (IsTrue (is_fresh_editor editor.new)) }
    ensures given { OnOk result (IsFor editor.new (L.table look.old)) }
    ensures looks { OnOk result (L.keys look.new ≡ L.keys look.old ++ looks_of (L.table look.old) changed.now) }
    ensures same { L.table look.new ≡ L.table look.old }
    ensures counted { OnOk result (editor.new.edits ≡ one_more editor.old.edits) }
    ensures taken { (k : Table) → IsFor editor.old k
        → OnOk result (CountsDirtyTasks k (L.table look.old) changed.now (taken_out editor.old)
        (taken_out editor.new)) }
    ensures err { OnErr result (is_fresh_editor editor.new ≡ false) }
{
    editor.fresh = false;
    let network = editor.network.get();
    let touched = editor.memory.follow(alloc, network, look, changed)?;
    network.known();
    let edits = editor.memory.list(alloc, network, &touched)?;
    make(&mut editor.network, edits.as_slice())?;
    editor.fresh = true;
    editor.edits = editor.edits.saturating_add(1);
    Ok(edits)
}

// Makes the edits one after another. If the network has other owners and there are edits to make, it is copied first.
fn make(network: &mut Shared<Network>, edits: &[Edit]) -> Result<(), OutOfMemory>
    requires { MayEditAll network.old edits.now }
    ensures { OnOk result (network.new ≡ after_edits edits.now network.old) }
{
    if edits.is_empty() {
        return Ok(());
    }
    make_all(network.own()?, edits)
}

impl NetKeeper for Editor {
    ghost use Rattle.fm_edit.specs.EditorModel.{is_fresh_editor, IsFor};

    ghost fresh = { is_fresh_editor };

    ghost is_for = { IsFor };

    ghost follows = { λ e k. IsTrue (is_fresh_editor e) → IsFor e k };

    ghost fresh_follows = { λ _ _ _ _ given _. given };

    ghost absorbs = { λ _ _ _. Unit {0} };

    /// A fresh Editor follows by `edit`, and stays fresh unless memory runs out.
    fn absorb(
        &mut self,
        alloc: Global,
        now: &Knowledge,
        changed: &Changed,
    ) -> Result<(), OutOfMemory>
        requires { FollowsAfter (is_fresh_editor self.old) (IsFor self.old) now.now changed.now }
        ensures ok { OnOk result (IsTrue (is_fresh_editor self.new) → IsFor self.new now.now) }
        ensures follows { OnOk result (IsTrue (is_fresh_editor self.old) → IsTrue (is_fresh_editor self.new)) }
        ensures err { OnErr result (is_fresh_editor self.new ≡ false) }
        ensures stale { is_fresh_editor self.old ≡ false → is_fresh_editor self.new ≡ false }
        ensures edits { IsTrue (is_fresh_editor self.old) → OnOk result (self.new.edits ≡ one_more self.old.edits) }
        ensures keeps_up { FollowsAfter true (λ k. IsTrue (is_fresh_editor self.old) → IsFor self.old k)
            now.now changed.now
            → IsTrue (is_fresh_editor self.new) → IsFor self.new now.now }
        ensures absorbs { Unit {0} }
    {
        if self.fresh {
            let mut look = KnowLook::new(alloc, now);
            let _edits = edit(alloc, self, &mut look, changed)?;
        }
        Ok(())
    }

    fn rebuild(&mut self, alloc: Global, now: &Knowledge) -> Result<(), OutOfMemory> {
        self.fresh = false;
        *self = Editor::of(alloc, build(alloc, now)?, now)?;
        Ok(())
    }

    fn refresh(&mut self, alloc: Global, now: &Knowledge) -> Result<(), OutOfMemory> {
        if !self.fresh {
            self.rebuild(alloc, now)?;
        }
        Ok(())
    }

    fn is_fresh(&self) -> bool {
        self.fresh
    }

    fn network(&self) -> &Network {
        self.network.get()
    }

    fn share(&self) -> Result<Shared<Network>, OutOfMemory> {
        self.network.share()
    }
}
