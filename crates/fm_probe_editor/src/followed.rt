//! What is known, a delta, and an Editor that follows what is known.

ghost use Rattle.std.specs.Prelude.{true, IsTrue};
ghost use Rattle.fm_policy.specs.Keeping.{FollowsAfter};
ghost use Rattle.fm_edit.specs.EditorModel.{is_fresh_editor, IsFor};

use fm_edit::editor::{Editor, edit};
use fm_edit::look::{Key, KnowLook};
use fm_know::knowledge::Knowledge;
use fm_know::laws::law_can_be;
use fm_net::edit::Edit;
use fm_net::network::Network;
use fm_policy::build::build;
use fm_policy::changed::{Changed, changed_of};
use fm_policy::keeper::NetKeeper;
use fm_records::ops::Op;
use fm_records::refusal::Refusal;
use std::alloc::Global;
use std::marker::Model;

/// What is known, what was told since, and an Editor that is for what is known, or stale after memory ran out.
#[derive(Drop)]
pub(crate) struct Followed {
    known: Knowledge,
    delta: Knowledge,
    editor: Editor,
}

impl Model for Followed {
    ghost use Rattle.std.specs.Prelude.{IsTrue, ⊤};
    ghost use Rattle.fm_edit.specs.EditorModel.{is_fresh_editor, IsFor};

    ghost Value = { ⊤ };

    ghost view = { λ f. tt };

    ghost invariant = { λ f. IsTrue (is_fresh_editor f.editor) → IsFor f.editor f.known };
}

/// What came of a delta: the edits of the network, and the keys that were looked up.
#[derive(Drop)]
pub(crate) struct Taken {
    pub(crate) edits: Vec<Edit>,
    pub(crate) keys: Vec<Key>,
}

impl Followed {
    /// Nothing is known.
    pub(crate) fn new(alloc: Global) -> Result<Followed, Refusal> {
        let editor = Editor::new(alloc)?;
        Ok(Followed {
            known: Knowledge::empty(alloc),
            delta: Knowledge::empty(alloc),
            editor,
        })
    }

    /// Adds the operation to the delta.
    pub(crate) fn tell(&mut self, alloc: Global, op: &Op) -> Result<(), Refusal> {
        op.check()?;
        let told = Knowledge::delta_of(alloc, op)?;
        self.delta.join_into(&told)?;
        Ok(())
    }

    /// Takes the delta in. Stuck if the Editor is stale.
    pub(crate) fn take_in(&mut self, alloc: Global) -> Result<Taken, Refusal> {
        if !self.editor.is_fresh() {
            return Err(Refusal::Stuck);
        }
        law_can_be(&self.known);
        law_can_be(&self.delta);
        let changed = changed_of(alloc, &self.delta)?;
        self.known.join_into(&self.delta)?;
        follow(alloc, &mut self.editor, &self.known, &changed)
    }

    /// Begins a delta.
    pub(crate) fn begin(&mut self, alloc: Global) {
        self.delta = Knowledge::empty(alloc);
    }

    /// The network of what is known, built from nothing.
    pub(crate) fn built(&self, alloc: Global) -> Result<Network, Refusal> {
        law_can_be(&self.known);
        let network = build(alloc, &self.known)?;
        Ok(network)
    }
}

// Has the Editor follow what is known, and returns the edits and the keys.
fn follow(
    alloc: Global,
    editor: &mut Editor,
    known: &Knowledge,
    changed: &Changed,
) -> Result<Taken, Refusal>
    requires fresh { IsTrue (is_fresh_editor editor.old) }
    requires took_in { FollowsAfter true (IsFor editor.old) known.now changed.now }
    ensures { IsTrue (is_fresh_editor editor.new) → IsFor editor.new known.now }
{
    let mut look = KnowLook::new(alloc, known);
    let edits = edit(alloc, editor, &mut look, changed)?;
    let keys = copied(alloc, look.keys())?;
    Ok(Taken { edits, keys })
}

fn copied(alloc: Global, keys: &[Key]) -> Result<Vec<Key>, Refusal> {
    let mut copied = Vec::new(alloc);
    for key in keys {
        copied.push(*key)?;
    }
    Ok(copied)
}
