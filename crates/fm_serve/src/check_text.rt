//! What is said of a script that is checked and not run: that it is accepted, or its first fault, as a line.

ghost use Rattle.std.specs.Prelude.{◌≡◌, ◌++◌, codes, IfOk, OnOk, IsOkUnless, string_bytes};
ghost use Rattle.fm_serve.specs.CheckTexts.{check_text, fault_line, reason_text, tell_text};
ghost use Rattle.fm_serve.specs.CheckTexts.{cut_text as text_of_cut, kind_text as text_of_kind};
ghost use Rattle.fm_serve.specs.CheckTexts.{member_text as text_of_member};

use fm_query::field_ranges::range_text;
use fm_records::refusal::Refusal;
use fm_script::script_fault::{CutFault, FieldName, OpKind, ScriptFault, StepFault, TellFault};
use std::alloc::Global;

/// `accepted`; or `step K: MEMBER: REASON`, or `script: MEMBER: REASON` if the script as a whole is at fault. If it is
/// no one member, it is left out. Refused only if memory runs out. O(1).
pub fn check_text(alloc: Global, fault: Option<ScriptFault>) -> Result<String, Refusal>
    ensures ok { IfOk result (λ text. string_bytes text ≡ check_text fault) }
    ensures err { IsOkUnless result Refusal.OutOfMemory }
{
    let mut line = String::new(alloc);
    match fault {
        None => line.push_str("accepted\n")?,
        Some(fault) => write_fault(&mut line, fault)?,
    }
    Ok(line)
}

// Appends the line of a fault.
fn write_fault(line: &mut String, fault: ScriptFault) -> Result<(), Refusal>
    ensures ok { OnOk result (string_bytes line.new ≡ string_bytes line.old ++ fault_line fault) }
    ensures err { IsOkUnless result Refusal.OutOfMemory }
{
    match fault {
        ScriptFault::NoJson => line.push_str("script: no JSON\n")?,
        ScriptFault::Coordinators => {
            line.push_str(
                "script: coordinators: at least one number, each from 1 to 64, none twice, is wanted\n",
            )?
        }
        ScriptFault::Steps => line.push_str("script: steps: a list is wanted\n")?,
        ScriptFault::Step(place, fault) => {
            write!(line, "step {place}: ")?;
            write_reason(line, fault)?;
            line.push('\n')?;
        }
    }
    Ok(())
}

// Appends the member of a step that is at fault, and what is wanted there.
fn write_reason(line: &mut String, fault: StepFault) -> Result<(), Refusal>
    ensures ok { OnOk result (string_bytes line.new ≡ string_bytes line.old ++ reason_text fault) }
    ensures err { IsOkUnless result Refusal.OutOfMemory }
{
    match fault {
        StepFault::Members => line.push_str("a step has two members, at and what happens")?,
        StepFault::At => line.push_str("at: a whole number from 0 to 255 is wanted")?,
        StepFault::Act => {
            line.push_str("beside at, a step has tell, cut, deliver, trim, round or relieve")?
        }
        StepFault::Cut(fault) => write_cut(line, fault)?,
        StepFault::Tell(fault) => write_tell(line, fault)?,
        StepFault::Deliver => line.push_str("deliver: a text is wanted")?,
        StepFault::Trim => line.push_str("trim: a whole number is wanted")?,
        StepFault::Round => {
            line.push_str(
                "round: true, or an object of writers and each, or of one of them, is wanted",
            )?
        }
        StepFault::Relieve => line.push_str("relieve: true is wanted")?,
        StepFault::NoCoordinator(at) => { write!(line, "at: no coordinator has the number {at}")? }
        StepFault::NoPacket => {
            line.push_str("deliver: no earlier step cuts a packet of this name")?
        }
        StepFault::OutOfRange(field) => {
            let range = range_text(field);
            write!(line, "tell: {range}")?
        }
    }
    Ok(())
}

// Appends what is wanted in a cut.
fn write_cut(line: &mut String, fault: CutFault) -> Result<(), Refusal>
    ensures ok { OnOk result (string_bytes line.new ≡ string_bytes line.old ++ (codes "cut: " ++ text_of_cut fault)) }
    ensures err { IsOkUnless result Refusal.OutOfMemory }
{
    let reason = cut_text(fault);
    write!(line, "cut: {reason}")?;
    Ok(())
}

fn cut_text(fault: CutFault) -> &'static str
    ensures { result.now ≡ text_of_cut fault }
{
    match fault {
        CutFault::Name => "a name is wanted, as a text",
        CutFault::Range => "from and to are whole numbers, and one is not without the other",
        CutFault::NameTaken => "an earlier cut gave this name",
    }
}

// Appends what is wanted in an operation.
fn write_tell(line: &mut String, fault: TellFault) -> Result<(), Refusal>
    ensures ok { OnOk result (string_bytes line.new ≡ string_bytes line.old ++ tell_text fault) }
    ensures err { IsOkUnless result Refusal.OutOfMemory }
{
    match fault {
        TellFault::Kind => {
            line.push_str(
                "tell: one operation is wanted: job, spec, progress, machine, report or propose",
            )?
        }
        TellFault::Lacks(kind, member) => {
            let kind = kind_text(kind);
            let wanted = member_text(member);
            write!(line, "tell: {kind}: {wanted}")?
        }
    }
    Ok(())
}

fn kind_text(kind: OpKind) -> &'static str
    ensures { result.now ≡ text_of_kind kind }
{
    match kind {
        OpKind::Job => "job",
        OpKind::Spec => "spec",
        OpKind::Progress => "progress",
        OpKind::Machine => "machine",
        OpKind::Report => "report",
        OpKind::Propose => "propose",
    }
}

// A member of an operation, and what is wanted there.
fn member_text(member: FieldName) -> &'static str
    ensures { result.now ≡ text_of_member member }
{
    match member {
        FieldName::Id => "id: a UUID is wanted",
        FieldName::Version => "version: a whole number is wanted",
        FieldName::Writer => "writer: a whole number from 1 to 64 is wanted",
        FieldName::Withdrawn => "withdrawn: true or false is wanted",
        FieldName::Wait => "wait: a whole number from 0 to 1000000000 is wanted",
        FieldName::Preempt => "preempt: a whole number from 0 to 1000000000 is wanted",
        FieldName::Job => "job: a UUID is wanted",
        FieldName::Request => "request: a whole number from 0 to 1000000 is wanted",
        FieldName::Prefer => {
            "prefer: a list of at most four objects with machine and credit is wanted"
        }
        FieldName::Attempt => "attempt: a whole number from 0 to 4294967295 is wanted",
        FieldName::Phase => "phase: pending, running or done is wanted",
        FieldName::Incarnation => "incarnation: a whole number is wanted",
        FieldName::Up => "up: true or false is wanted",
        FieldName::Slots => "slots: a whole number from 1 to 1000 is wanted",
        FieldName::Nic => "nic: a whole number from 0 to 1000000 is wanted",
        FieldName::Number => "number: a whole number is wanted",
        FieldName::Used => "used: a whole number from 0 to 1000000000 is wanted",
        FieldName::Coordinator => "coordinator: a whole number from 1 to 64 is wanted",
        FieldName::Machine => "machine: a UUID is wanted",
    }
}
