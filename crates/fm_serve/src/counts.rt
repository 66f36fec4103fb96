//! What is counted of a fleet, and how it is told.

ghost use Rattle.std.specs.Prelude.{◌≡◌, ◌++◌, IfOk, OnOk, IsOkUnless, string_bytes};
ghost use Rattle.std.specs.List.{flat_map};
ghost use Rattle.fm_serve.specs.Musters.{calls_line, counts_text};

use fm_records::ids::CoordId;
use fm_records::refusal::Refusal;
use std::alloc::Global;

/// How many calls a coordinator accepted while its threads ran.
#[derive(Debug, Clone, Copy, PartialEq, Eq, Drop)]
pub struct Calls {
    pub coordinator: CoordId,
    pub count: usize,
}

/// What is counted of a fleet: the calls of each coordinator, as listed, and the steps of the one list that all
/// histories are gathered into.
#[derive(Debug, Drop)]
pub struct Counts {
    pub calls: Vec<Calls>,
    pub steps: usize,
}

impl Counts {
    /// A line `calls C K` for each coordinator, then `audit ok`, `gather L` and `same`. Refused only if memory runs
    /// out. O(n).
    pub fn text(&self, alloc: Global) -> Result<String, Refusal>
        ensures ok { IfOk result (λ text. string_bytes text ≡ counts_text self.now) }
        ensures err { IsOkUnless result Refusal.OutOfMemory }
    {
        let steps = self.steps;
        let mut text = String::new(alloc);
        write_calls(&self.calls, &mut text)?;
        write!(text, "audit ok\ngather {steps}\nsame\n")?;
        Ok(text)
    }
}

// Appends the lines of calls.
fn write_calls(calls: &[Calls], text: &mut String) -> Result<(), Refusal>
    ensures ok { OnOk result (string_bytes text.new ≡ string_bytes text.old ++ flat_map calls_line calls.now) }
    ensures err { IsOkUnless result Refusal.OutOfMemory }
{
    for call in calls {
        write_call(*call, text)?;
    }
    Ok(())
}

// Appends the line of a coordinator's calls.
fn write_call(call: Calls, text: &mut String) -> Result<(), Refusal>
    ensures ok { OnOk result (string_bytes text.new ≡ string_bytes text.old ++ calls_line call) }
    ensures err { IsOkUnless result Refusal.OutOfMemory }
{
    let Calls { coordinator, count } = call;
    let number = coordinator.value();
    write!(text, "calls {number} {count}\n")?;
    Ok(())
}
