//! Tasks that are neither withdrawn nor done, with what is known of them whatever is known of jobs and machines.
//!
//! This part of a tally can outlive a change of jobs and machines. So it is kept, and brought up to date by the tasks
//! that changed (incremental view maintenance). One merge of both lists does it, O(n + m log n) for m of them.

ghost use Rattle.std.specs.Prelude.{◌≡◌, ◌++◌, ℕ, filter, option_copied, option_map, IfOk, OnOk};
ghost use Rattle.std.specs.Ordering.{nat_cmp};
ghost use Rattle.std.specs.declared.cmp.Ordering.TheVariants.{Less};
ghost use Rattle.fm_lattice.specs.Maps.{lookup, IsRising};
ghost use Rattle.fm_records.specs.Facts.{won_spot};
ghost use Rattle.fm_records.specs.Orders.{attempt_cmp};
ghost use Rattle.fm_tally.specs.Tallies.{unfinished_spec};
ghost use Rattle.fm_tally.specs.Unfinished.{task_with, unfinished_at, AreUnfinished, AreBehind};
ghost use Rattle.fm_tally.specs.WinnerScan.{winner_spot};
ghost use Rattle.fm_tally.specs.inner.Sides.{is_under, is_over};

use crate::sorted::Sorted;
use crate::winner_scan::Winners;
use fm_know::knowledge::Knowledge;
use fm_know::record_facts::{attempt_in, is_done};
use fm_lattice::join::OutOfMemory;
use fm_records::ids::{JobId, TaskId};
use fm_records::records::{SpecReg, Spot, TaskRec};
use std::alloc::Global;
use std::cmp::Ordering;

/// What is known of a task by itself.
#[derive(Debug, Clone, Copy, Drop)]
pub struct UnfinishedTask {
    pub job: JobId,
    /// The bandwidth that it requests.
    pub request: u32,
    /// Whether it prefers machines.
    pub prefers: bool,
    /// The machine, with its incarnation, that the winner of its attempt names.
    pub spot: Option<Spot>,
}

/// The unfinished tasks of what is known: one walk over the tasks with the proposals, O(n).
pub fn unfinished_of(
    alloc: Global,
    knowledge: &Knowledge,
) -> Result<Sorted<TaskId, UnfinishedTask>, OutOfMemory>
    ensures { IfOk result (AreUnfinished knowledge.now) }
{
    let mut found = Vec::new(alloc);
    let mut winners = Winners::of(knowledge);
    for (task, known) in knowledge.tasks().iter() {
        if let Some(unfinished) = met_task(*task, known, &mut winners) {
            found.push((*task, unfinished))?;
        }
    }
    Ok(Sorted::of(found))
}

/// The unfinished tasks of what is known, from those of an earlier state. The caller must pass all tasks of which something was told
/// since, ids rising. One walk over the tasks, and look-ups for the changed ones: O(n + m log n) for m of them.
pub fn unfinished_after(
    alloc: Global,
    earlier: &Sorted<TaskId, UnfinishedTask>,
    knowledge: &Knowledge,
    changed: &[TaskId],
) -> Result<Sorted<TaskId, UnfinishedTask>, OutOfMemory>
    requires { AreBehind knowledge.now changed.now earlier.now }
    ensures { IfOk result (AreUnfinished knowledge.now) }
{
    let mut rest = earlier.pairs();
    let most = rest.len().saturating_add(changed.len());
    let mut found = Vec::with_capacity(alloc, most)?;
    for task in changed {
        rest = move_under(&mut found, rest, *task)?;
        if let Some(unfinished) = unfinished_task(knowledge, *task) {
            found.push((*task, unfinished))?;
        }
    }
    found.extend_from_slice(rest)?;
    Ok(Sorted::of(found))
}

// Moves the pairs under the key behind those that were found, and leaves those over it.
fn move_under<'a>(
    found: &mut Vec<(TaskId, UnfinishedTask)>,
    pairs: &'a [(TaskId, UnfinishedTask)],
    key: TaskId,
) -> Result<&'a [(TaskId, UnfinishedTask)], OutOfMemory>
    requires { IsRising nat_cmp pairs.now }
    ensures under { OnOk result (found.new.items ≡ found.old.items ++ filter (is_under key) pairs.now) }
    ensures over { IfOk result (λ left. left.now ≡ filter (is_over key) pairs.now) }
{
    let mut left = pairs;
    'pairs: while let Some((pair, later)) = left.split_first() {
        match pair.0.cmp(&key) {
            Ordering::Less => {
                found.push(*pair)?;
                left = later;
            }
            Ordering::Equal => return Ok(later),
            Ordering::Greater => return Ok(left),
        }
    }
    Ok(left)
}

// The task with the record, if it is unfinished, with the winners that are still ahead.
fn met_task(task: TaskId, known: &TaskRec, winners: &mut Winners<'_>) -> Option<UnfinishedTask>
    ensures task { result
        ≡ option_map (λ s. task_with s (winner_spot winners.old (task, known.now.1.attempt)))
        (unfinished_spec known.now) }
    ensures ahead { (t a : ℕ) → attempt_cmp (task, known.now.1.attempt) (t, a) ≡ Less
        → lookup attempt_cmp (t, a) winners.new ≡ lookup attempt_cmp (t, a) winners.old }
{
    let spec = unfinished(known)?;
    let spot = winners.spot(task, attempt_in(known));
    Some(task_with(spec, spot))
}

// The task, if it is unfinished.
fn unfinished_task(knowledge: &Knowledge, task: TaskId) -> Option<UnfinishedTask>
    ensures { result ≡ unfinished_at knowledge.now task }
{
    let known = knowledge.tasks().get(&task)?;
    let spec = unfinished(known)?;
    let spot = won_spot(knowledge, task);
    Some(task_with(spec, spot))
}

// The spot that the winner of the task's attempt names.
fn won_spot(knowledge: &Knowledge, task: TaskId) -> Option<Spot>
    ensures { result ≡ won_spot knowledge.now task }
{
    let attempt = knowledge.attempt(task).attempt;
    let winner = knowledge.winner(task, attempt)?;
    Some(winner.spot())
}

fn task_with(spec: &SpecReg, spot: Option<Spot>) -> UnfinishedTask
    ensures { result ≡ task_with spec.now spot }
{
    UnfinishedTask {
        job: spec.job,
        request: spec.request,
        prefers: !spec.prefer.entries().is_empty(),
        spot,
    }
}

// The spec of the record, if it is known and not withdrawn, and the task is not done.
fn unfinished(known: &TaskRec) -> Option<&SpecReg>
    ensures { option_copied result ≡ unfinished_spec known.now }
{
    match &known.0.0 {
        Some(spec) if !spec.0.withdrawn && !is_done(known.1.0.phase) => Some(&spec.0),
        _ => None,
    }
}
