//! The version, or the attempt, of the next operation on a record.
//!
//! Whoever tells operations from outside needs it: an operation at a version that is known already may be lost.

ghost use Rattle.std.specs.Prelude.{◌≡◌, IfOk, IfErr, string_bytes};
ghost use Rattle.std.specs.Option.{ok_or};
ghost use Rattle.fm_query.specs.NextText.{next_number, spent, IsNextText, IsNoNext};
ghost use Rattle.fm_query.specs.NextText.{op_number as number_in};

use fm_know::knowledge::Knowledge;
use fm_question::question::Subject;
use fm_records::ops::Op;
use fm_records::refusal::Refusal;
use std::alloc::Global;

/// `next N`, as a line: the version, or the attempt of a task, that the next operation on the subject must have, as
/// `Knowledge::next_job`, `next_machine` and `next_attempt` give it; 1 if nothing is known. `VersionsSpent` or
/// `AttemptsSpent` if there is no greater number, else refused only if memory runs out. O(log n).
pub fn next_text(alloc: Global, knowledge: &Knowledge, subject: Subject) -> Result<String, Refusal>
    ensures ok { IfOk result (λ text. IsNextText knowledge.now subject (string_bytes text)) }
    ensures err { IfErr result (IsNoNext knowledge.now subject) }
{
    let number = next_number(knowledge, subject)?;
    Ok(format!(in alloc; "next {number}\n")?)
}

// That number.
fn next_number(knowledge: &Knowledge, subject: Subject) -> Result<u64, Refusal>
    ensures { result ≡ ok_or (next_number knowledge.now subject) (spent subject) }
{
    let next = match subject {
        Subject::Job(job) => knowledge.next_job(job, 1, false, 0, 0)?,
        Subject::Machine(machine, incarnation) => {
            knowledge.next_machine(machine, incarnation, 1, false, 1, 0)?
        }
        Subject::Task(task) => knowledge.next_attempt(task)?,
    };
    Ok(number_of(&next))
}

// The version of an operation; the attempt, if it tells one, or the number of a report.
fn number_of(op: &Op) -> u64
    ensures { result ≡ number_in op.now }
{
    match op {
        Op::Job { version, .. } | Op::Spec { version, .. } | Op::Machine { version, .. } =>
            *version,
        Op::Progress { attempt, .. } | Op::Propose { attempt, .. } => u64::from(*attempt),
        Op::Report { number, .. } => *number,
    }
}
