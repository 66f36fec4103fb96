//! Rounds as text: what was planned, and what admission answered to it.

ghost use Rattle.std.specs.Prelude.{◌≡◌, ◌++◌, IfOk, OnOk, IsOkUnless, drop, string_bytes};
ghost use Rattle.std.specs.List.{zip};
ghost use Rattle.fm_query.specs.TextLines.{text_of_lines};
ghost use Rattle.fm_query.specs.RoundText.{answered_text, round_text};
ghost use Rattle.fm_query.specs.RoundText.{answer_text as text_of_answer};

use crate::text_lines::LineText;
use fm_records::refusal::Refusal;
use fm_round::plan::{Admitted, Answer, Plan};
use std::alloc::Global;

/// A line `place TASK MACHINE INCARNATION ANSWER` for each place of the plan, and then a line `preempt TASK ATTEMPT
/// ANSWER` for each preempt, in the order of the plan: what admission answered to each, as `accepted`, `gone`, `held`,
/// `attempts-spent`, `contested`, `no-slot` or `no-room`. An entry without an answer has no line. Refused only if
/// memory runs out. O(n).
pub fn round_text(alloc: Global, plan: &Plan, admitted: &Admitted) -> Result<String, Refusal>
    ensures ok { IfOk result (λ text. string_bytes text ≡ round_text plan.now admitted.now) }
    ensures err { IsOkUnless result Refusal.OutOfMemory }
{
    let places = plan.places.as_slice();
    let answers = admitted.answers.as_slice();
    let mut lines = String::new(alloc);
    write_answered(alloc, places, answers, &mut lines)?;
    let rest = behind(answers, places.len());
    write_answered(alloc, plan.preempts.as_slice(), rest, &mut lines)?;
    Ok(lines)
}

// The answers behind the first.
fn behind(answers: &[Answer], first: usize) -> &[Answer]
    ensures { result.now ≡ drop first answers.now }
{
    match answers.get(first..) {
        Some(rest) => rest,
        None => &[],
    }
}

// Appends a line for each of the entries, with the answer to it.
fn write_answered<T: LineText>(
    alloc: Global,
    entries: &[T],
    answers: &[Answer],
    lines: &mut String,
) -> Result<(), Refusal>
    ensures ok { OnOk result (string_bytes lines.new
        ≡ string_bytes lines.old ++ text_of_lines (answered_text T.line_text) (zip entries.now answers.now)) }
    ensures err { IsOkUnless result Refusal.OutOfMemory }
{
    for (entry, answer) in entries.iter().zip(answers) {
        entry.write_text(alloc, lines)?;
        let answer = answer_text(*answer);
        write!(lines, " {answer}\n")?;
    }
    Ok(())
}

fn answer_text(answer: Answer) -> &'static str
    ensures { result.now ≡ text_of_answer answer }
{
    match answer {
        Answer::Gone => "gone",
        Answer::Held => "held",
        Answer::AttemptsSpent => "attempts-spent",
        Answer::Contested => "contested",
        Answer::NoSlot => "no-slot",
        Answer::NoRoom => "no-room",
        Answer::Accepted => "accepted",
    }
}
