//! The machines whose held tasks request more than their bandwidth, as text.

ghost use Rattle.std.specs.Prelude.{◌≡◌, ◌++◌, IfOk, OnOk, IsOkUnless, string_bytes};
ghost use Rattle.std.specs.List.{flat_map};
ghost use Rattle.fm_query.specs.OverText.{over_lines, over_text};

use crate::text_lines::{LineText, write_lines};
use fm_know::knowledge::Knowledge;
use fm_records::refusal::Refusal;
use fm_relief::held_task::HeldTask;
use fm_relief::relief::{OverfullMachine, relief_of};
use std::alloc::Global;

/// A line `over MACHINE HELD NIC` for each open machine whose held tasks request more than its bandwidth, by id, and
/// behind it a line `preempt TASK ATTEMPT REQUEST PRICE` for each task that its relief preempts, in that order: by
/// rising price, then by falling request, then by id. Refused only if memory runs out. It costs what `relief_of` does.
pub fn over_text(alloc: Global, knowledge: &Knowledge) -> Result<String, Refusal>
    ensures ok { IfOk result (λ text. string_bytes text ≡ over_text knowledge.now) }
    ensures err { IsOkUnless result Refusal.OutOfMemory }
{
    let mut lines = String::new(alloc);
    let relief = relief_of(alloc, knowledge)?;
    write_relief(alloc, relief.as_slice(), &mut lines)?;
    Ok(lines)
}

// Appends the lines of each machine.
fn write_relief(
    alloc: Global,
    relief: &[OverfullMachine],
    lines: &mut String,
) -> Result<(), Refusal>
    ensures ok { OnOk result (string_bytes lines.new ≡ string_bytes lines.old ++ flat_map over_lines relief.now) }
    ensures err { IsOkUnless result Refusal.OutOfMemory }
{
    for overfull in relief {
        write_machine(alloc, overfull, lines)?;
    }
    Ok(())
}

// Appends the lines of a machine.
fn write_machine(
    alloc: Global,
    overfull: &OverfullMachine,
    lines: &mut String,
) -> Result<(), Refusal>
    ensures ok { OnOk result (string_bytes lines.new ≡ string_bytes lines.old ++ over_lines overfull.now) }
    ensures err { IsOkUnless result Refusal.OutOfMemory }
{
    let machine = overfull.machine.text(alloc)?;
    let held = overfull.held;
    let nic = overfull.nic;
    write!(lines, "over {machine} {held} {nic}\n")?;
    write_lines(alloc, overfull.preempts.as_slice(), lines)
}

impl LineText for HeldTask {
    ghost use Rattle.fm_query.specs.OverText.{relief_text};

    ghost line_text = { relief_text };

    fn write_text(&self, alloc: Global, lines: &mut String) -> Result<(), Refusal> {
        let task = self.task.text(alloc)?;
        let attempt = self.attempt;
        let request = self.request;
        let price = self.price;
        write!(lines, "preempt {task} {attempt} {request} {price}")?;
        Ok(())
    }
}
