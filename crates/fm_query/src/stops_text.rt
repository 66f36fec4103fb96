//! What a coordinator has to stop, as text.

ghost use Rattle.std.specs.Prelude.{◌≡◌, IfOk, IsOkUnless, string_bytes};
ghost use Rattle.fm_query.specs.PlanText.{stops_text};

use crate::text_lines::{LineText, write_lines};
use fm_know::knowledge::Knowledge;
use fm_records::ids::CoordId;
use fm_records::refusal::Refusal;
use fm_round::plan::Stop;
use fm_round::stops::stops;
use std::alloc::Global;

/// A line `stop TASK ATTEMPT MACHINE INCARNATION` for each entry of the coordinator that is to run no longer, by task
/// and attempt. Refused only if memory runs out. O(p log n) for p attempts with proposals.
pub fn stops_text(
    alloc: Global,
    knowledge: &Knowledge,
    coordinator: CoordId,
) -> Result<String, Refusal>
    ensures ok { IfOk result (λ text. string_bytes text ≡ stops_text knowledge.now coordinator) }
    ensures err { IsOkUnless result Refusal.OutOfMemory }
{
    let mut lines = String::new(alloc);
    let stops = stops(alloc, knowledge, coordinator)?;
    write_lines(alloc, &stops, &mut lines)?;
    Ok(lines)
}

impl LineText for Stop {
    ghost use Rattle.fm_query.specs.PlanText.{stop_text};

    ghost line_text = { stop_text };

    fn write_text(&self, alloc: Global, lines: &mut String) -> Result<(), Refusal> {
        let task = self.task.text(alloc)?;
        let attempt = self.attempt;
        let machine = self.machine.text(alloc)?;
        let incarnation = self.incarnation;
        write!(lines, "stop {task} {attempt} {machine} {incarnation}")?;
        Ok(())
    }
}
