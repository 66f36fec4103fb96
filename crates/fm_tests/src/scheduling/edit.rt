//! Looking up records, and keepers that edit.

ghost use Rattle.std.specs.Prelude.{IsTrue};
ghost use Rattle.fm_edit.specs.EditorModel.{is_fresh_editor, IsFor};

use crate::samples::{JOB, TASK};
use crate::scheduling::following::told;
use fm_edit::editor::Editor;
use fm_edit::keepers::Keeper;
use fm_edit::look::{Key, KnowLook, Look};
use fm_know::knowledge::Knowledge;
use fm_lattice::join::OutOfMemory;
use fm_policy::keeper::NetKeeper;
use fm_records::ids::{JobId, MachineId, TaskId};
use fm_records::ops::Op;
use fm_records::refusal::Refusal;
use std::alloc::Global;

fn finds_job(look: &mut KnowLook) -> Result<bool, OutOfMemory> {
    Ok(look.job(JobId::new(1))?.is_some())
}

fn finds_machine(look: &mut KnowLook) -> Result<bool, OutOfMemory> {
    Ok(look.machine(MachineId::new(10))?.is_some())
}

fn finds_task(look: &mut KnowLook) -> Result<bool, OutOfMemory> {
    Ok(look.task(TaskId::new(17))?.is_some())
}

fn finds_winner(look: &mut KnowLook) -> Result<bool, OutOfMemory> {
    Ok(look.winner(TaskId::new(17), 0)?.is_some())
}

fn finds_any(look: &mut KnowLook) -> Result<bool, OutOfMemory> {
    let any = finds_job(look)? || finds_machine(look)?;
    Ok(any || finds_task(look)? || finds_winner(look)?)
}

// Whether any record is found if nothing is known, and how many keys were stored, of which the last is that of a
// winner.
fn found(alloc: Global) -> Result<(bool, usize, bool), OutOfMemory> {
    let known = Knowledge::empty(alloc);
    let mut look = KnowLook::new(alloc, &known);
    let any = finds_any(&mut look)?;
    let of_winner = look.keys().last() == Some(&Key::Winner(TaskId::new(17), 0));
    Ok((any, look.keys().len(), of_winner))
}

#[test]
fn each_look_stores_its_key(rt: HostRuntime) {
    assert_eq!(rt; found(rt.alloc()), Ok((false, 4, true)));
}

// Whether its network is fresh, and how many nodes and arcs that has.
fn sizes<K: NetKeeper>(keeper: &K) -> (bool, usize, usize) {
    let network = keeper.network();
    (keeper.is_fresh(), network.nodes_len(), network.arcs_len())
}

fn rebuild<K: NetKeeper>(alloc: Global, keeper: &mut K, known: &Knowledge) -> Result<(), Refusal> {
    keeper.rebuild(alloc, known)?;
    Ok(())
}

// What is known, and an Editor that follows it while it is fresh.
#[derive(Drop)]
struct Followed {
    known: Knowledge,
    editor: Editor,
    ghost follows: { IsTrue (is_fresh_editor editor) → IsFor editor known },
}

// After the operation.
fn follow_on(alloc: Global, all: Followed, op: &Op) -> Result<Followed, Refusal> {
    let Followed {
        mut known,
        mut editor,
    } = all;
    told(alloc, &mut known, &mut editor, op)?;
    Ok(Followed { known, editor })
}

// Of nothing known.
fn first(alloc: Global) -> Result<Followed, Refusal> {
    let editor = Editor::new(alloc)?;
    Ok(Followed {
        known: Knowledge::empty(alloc),
        editor,
    })
}

fn rebuilt(alloc: Global, all: Followed) -> Result<(bool, usize, usize), Refusal> {
    let Followed { known, mut editor } = all;
    rebuild(alloc, &mut editor, &known)?;
    Ok(sizes(&editor))
}

// Sizes after the first so many operations, of a task and then of its job, each told by itself, and once it is rebuilt.
fn sizes_after(
    alloc: Global,
    count: usize,
) -> Result<((bool, usize, usize), (bool, usize, usize)), Refusal> {
    let mut all = first(alloc)?;
    for op in [TASK.op(), JOB.op()].iter().take(count) {
        all = follow_on(alloc, all, op)?;
    }
    let edited = sizes(&all.editor);
    Ok((edited, rebuilt(alloc, all)?))
}

#[test]
fn an_editor_follows_and_stays_fresh(rt: HostRuntime) {
    let of_task = sizes_after(rt.alloc(), 1);
    assert_eq!(rt; of_task, Ok(((true, 1, 0), (true, 1, 0))));
    let of_both = sizes_after(rt.alloc(), 2);
    assert_eq!(rt; of_both, Ok(((true, 4, 3), (true, 4, 3))));
}

fn built_of_nothing(alloc: Global) -> Result<(bool, usize, usize), Refusal> {
    let known = Knowledge::empty(alloc);
    let mut keeper = Keeper::Edits(Editor::new(alloc)?);
    rebuild(alloc, &mut keeper, &known)?;
    Ok(sizes(&keeper))
}

#[test]
fn a_keeper_of_either_kind_is_built(rt: HostRuntime) {
    assert_eq!(rt; built_of_nothing(rt.alloc()), Ok((true, 1, 0)));
}
