//! An Editor by itself, which follows what is known.

ghost use Rattle.std.specs.Prelude.{true, IsTrue, IfOk};
ghost use Rattle.fm_policy.specs.Keeping.{FollowsAfter};
ghost use Rattle.fm_edit.specs.EditorModel.{is_fresh_editor, IsFor};

use crate::cluster::known;
use crate::memory::Memory;
use crate::networks::{are_same, network_of};
use crate::verdict::{Verdict, judged};
use fm_edit::editor::{Editor, edit};
use fm_edit::look::KnowLook;
use fm_know::knowledge::Knowledge;
use fm_know::laws::law_can_be;
use fm_lattice::join::Join;
use fm_net::edit::Edit;
use fm_policy::changed::{Changed, changed_of};
use fm_policy::keeper::NetKeeper;
use fm_records::refusal::Refusal;
use std::alloc::Global;

// What became of an Editor: why it was refused, which edits it answered, and whether its network is then as it should
// be.
#[derive(Drop)]
struct Answered {
    refusal: Option<Refusal>,
    edits: Vec<Edit>,
    is_right: bool,
}

/// An Editor whose network is shared follows what machines, tasks and proposals are added to much. If that runs out of
/// memory it is stale, and the next build is of what is known.
pub(crate) fn edited(memory: Memory) -> Result<Verdict, Refusal> {
    follows(memory, 48)
}

/// The same, but it begins with nothing, so that each list and map of its own gets its first entry.
pub(crate) fn edited_first(memory: Memory) -> Result<Verdict, Refusal> {
    follows(memory, 0)
}

// An Editor of so many operations follows others.
fn follows(memory: Memory, before: u32) -> Result<Verdict, Refusal> {
    let wanted = followed(memory.ample(), before)?;
    let found = followed(memory, before)?;
    let is_answered = found.refusal.is_some() || found.edits.as_slice() == wanted.edits.as_slice();
    Ok(judged(found.refusal, found.is_right && is_answered))
}

fn followed(memory: Memory, before: u32) -> Result<Answered, Refusal> {
    let mut known_then = known(memory.alloc, 0, before)?;
    let delta = known(
        memory.alloc,
        before.saturating_sub(8),
        before.saturating_add(16),
    )?;
    follow(memory, &mut known_then, &delta)
}

// An Editor for what is known follows the delta, which is taken in.
fn follow(memory: Memory, now: &mut Knowledge, delta: &Knowledge) -> Result<Answered, Refusal> {
    law_can_be(now);
    law_can_be(delta);
    let mut editor = built(memory.alloc, now)?;
    let changed = changed_of(memory.alloc, delta)?;
    now.join_into(delta)?;
    edits_while_seen(memory, &mut editor, now, &changed)
}

fn built(alloc: Global, now: &Knowledge) -> Result<Editor, Refusal>
    ensures fresh { IfOk result (λ editor. IsTrue (is_fresh_editor editor)) }
    ensures given { IfOk result (λ editor. IsFor editor now.now) }
{
    let mut editor = Editor::new(alloc)?;
    editor.rebuild(alloc, now)?;
    Ok(editor)
}

// What becomes of it while its network is shared, and stays as it was for who shares it.
fn edits_while_seen(
    memory: Memory,
    editor: &mut Editor,
    now: &Knowledge,
    changed: &Changed,
) -> Result<Answered, Refusal>
    requires fresh { IsTrue (is_fresh_editor editor.old) }
    requires took_in { FollowsAfter true (IsFor editor.old) now.now changed.now }
{
    let seen = editor.share()?;
    let before = seen.get().copy()?;
    let mut answered = edits(memory, editor, now, changed)?;
    answered.is_right = answered.is_right && are_same(seen.get(), &before);
    Ok(answered)
}

fn edits(
    memory: Memory,
    editor: &mut Editor,
    now: &Knowledge,
    changed: &Changed,
) -> Result<Answered, Refusal>
    requires fresh { IsTrue (is_fresh_editor editor.old) }
    requires took_in { FollowsAfter true (IsFor editor.old) now.now changed.now }
{
    let mut look = KnowLook::new(memory.alloc, now);
    memory.refuse();
    let answer = edit(memory.alloc, editor, &mut look, changed);
    memory.give();
    match answer {
        Ok(edits) => Ok(Answered {
            refusal: None,
            edits,
            is_right: holds(memory.alloc, editor, now)?,
        }),
        Err(_) => Ok(Answered {
            refusal: Some(Refusal::OutOfMemory),
            edits: Vec::new(memory.alloc),
            is_right: !editor.is_fresh() && rebuilds(memory.alloc, editor, now)?,
        }),
    }
}

// Whether it is fresh, and its network that of what is known.
fn holds(alloc: Global, editor: &Editor, now: &Knowledge) -> Result<bool, Refusal> {
    let wanted = network_of(alloc, now)?;
    Ok(editor.is_fresh() && are_same(editor.network(), &wanted))
}

fn rebuilds(alloc: Global, editor: &mut Editor, now: &Knowledge) -> Result<bool, Refusal> {
    editor.rebuild(alloc, now)?;
    holds(alloc, editor, now)
}
