//! Who won the attempts of tasks, as text.

ghost use Rattle.std.specs.Prelude.{◌≡◌, ◌++◌, IfOk, OnOk, IsOkUnless, string_bytes};
ghost use Rattle.fm_query.specs.WinnersText.{attempt_line, won_text, winners_text};

use fm_know::facts::Winner;
use fm_know::knowledge::Knowledge;
use fm_records::ids::{MachineId, TaskId};
use fm_records::refusal::Refusal;
use std::alloc::Global;

/// A line for each task whose present attempt has a winner, by task: TASK ATTEMPT COORDINATOR MACHINE INCARNATION, and
/// `held` or `free`. Refused only if memory runs out. It goes over the proposals once, and looks each one's task up.
pub fn winners_text(alloc: Global, knowledge: &Knowledge) -> Result<String, Refusal>
    ensures ok { IfOk result (λ text. string_bytes text ≡ winners_text knowledge.now) }
    ensures err { IsOkUnless result Refusal.OutOfMemory }
{
    let mut lines = String::new(alloc);
    for (at, _) in knowledge.proposals().iter() {
        write_attempt(alloc, knowledge, at.0, at.1, &mut lines)?;
    }
    Ok(lines)
}

// Appends the line of an attempt, if it is the task's present one and has a winner.
fn write_attempt(
    alloc: Global,
    knowledge: &Knowledge,
    task: TaskId,
    attempt: u32,
    line: &mut String,
) -> Result<(), Refusal>
    ensures ok { OnOk result (string_bytes line.new
        ≡ string_bytes line.old ++ attempt_line knowledge.now (task, attempt)) }
    ensures err { IsOkUnless result Refusal.OutOfMemory }
{
    if knowledge.attempt(task).attempt != attempt {
        return Ok(());
    }
    let Some(winner) = knowledge.winner(task, attempt) else {
        return Ok(());
    };
    write_winner(alloc, task, attempt, winner, knowledge.holder(task), line)
}

// Appends the line of an attempt, its winner and what holds the task.
fn write_winner(
    alloc: Global,
    task: TaskId,
    attempt: u32,
    winner: Winner,
    holder: Option<MachineId>,
    line: &mut String,
) -> Result<(), Refusal>
    ensures ok { OnOk result (string_bytes line.new ≡ string_bytes line.old ++ won_text task attempt winner holder) }
    ensures err { IsOkUnless result Refusal.OutOfMemory }
{
    let incarnation = winner.incarnation;
    let task = task.text(alloc)?;
    let coordinator = winner.coordinator.value();
    let machine = winner.machine.text(alloc)?;
    match holder {
        Some(_) => write!(
            line,
            "{task} {attempt} {coordinator} {machine} {incarnation} held\n"
        )?,
        None => write!(
            line,
            "{task} {attempt} {coordinator} {machine} {incarnation} free\n"
        )?,
    }
    Ok(())
}
