//! Plans as text.

ghost use Rattle.std.specs.Prelude.{◌≡◌, IfOk, IsOkUnless, string_bytes};
ghost use Rattle.fm_query.specs.PlanText.{plan_text};

use crate::id_text::hyphenated;
use crate::text_lines::{LineText, write_lines};
use fm_records::refusal::Refusal;
use fm_round::plan::{Place, Plan, Preempt};
use std::alloc::Global;

/// A line `place TASK MACHINE INCARNATION` for each place, and then a line `preempt TASK ATTEMPT` for each preempt, in
/// the order of the plan. Refused only if memory runs out. O(n).
pub fn plan_text(alloc: Global, plan: &Plan) -> Result<String, Refusal>
    ensures ok { IfOk result (λ text. string_bytes text ≡ plan_text plan.now) }
    ensures err { IsOkUnless result Refusal.OutOfMemory }
{
    let mut lines = String::new(alloc);
    write_lines(alloc, plan.places.as_slice(), &mut lines)?;
    write_lines(alloc, plan.preempts.as_slice(), &mut lines)?;
    Ok(lines)
}

impl LineText for Place {
    ghost use Rattle.fm_query.specs.PlanText.{place_text};

    ghost line_text = { place_text };

    fn write_text(&self, _alloc: Global, lines: &mut String) -> Result<(), Refusal> {
        let task = hyphenated(self.task.value());
        let machine = hyphenated(self.machine.value());
        let incarnation = self.incarnation;
        write!(lines, "place {task} {machine} {incarnation}")?;
        Ok(())
    }
}

impl LineText for Preempt {
    ghost use Rattle.fm_query.specs.PlanText.{preempt_text};

    ghost line_text = { preempt_text };

    fn write_text(&self, _alloc: Global, lines: &mut String) -> Result<(), Refusal> {
        let task = hyphenated(self.task.value());
        let attempt = self.attempt;
        write!(lines, "preempt {task} {attempt}")?;
        Ok(())
    }
}
