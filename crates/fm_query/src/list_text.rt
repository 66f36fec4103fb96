//! What is known, as lines: jobs, machines and tasks.
//!
//! Whoever tells the next version of a record must see the present one, so withdrawn jobs and tasks are listed too, and
//! closed machines.

ghost use Rattle.std.specs.Prelude.{◌≡◌, ◌++◌, codes, Some, IfOk, OnOk, IsOkUnless, string_bytes};
ghost use Rattle.std.specs.List.{flat_map};
ghost use Rattle.fm_records.specs.Facts.{is_live, holder_of};
ghost use Rattle.fm_tally.specs.Tallies.{TallyIsFor};
ghost use Rattle.fm_query.specs.Unpacked.{job_line};
ghost use Rattle.fm_query.specs.ListText.{state_fields, use_fields, listed_machine, spec_fields, listed_task, waiting_line, list_text};
ghost use Rattle.fm_query.specs.ListText.{open_text as text_of_open, task_place_text as text_of_place};

use crate::text_lines::write_map;
use crate::unpack::phase_text;
use fm_coord::coordinator::Coordinator;
use fm_know::knowledge::Knowledge;
use fm_lattice::constructors::{Max, Opt};
use fm_policy::keeper::NetKeeper;
use fm_question::question::Listing;
use fm_records::ids::{MachineId, TaskId};
use fm_records::records::{MachineRec, MachineReg, SpecReg, TaskRec};
use fm_records::refusal::Refusal;
use fm_tally::tally::{LiveTask, OpenMachine, Tally};
use std::alloc::Global;

/// A line for each record of the kind that is known, by id; for all kinds, jobs come first, then machines, then tasks:
///
/// - `job ID VERSION WRITER WITHDRAWN WAIT PREEMPT`
/// - `machine ID INCARNATION VERSION WRITER open|closed SLOTS NIC HELD LOAD SPARE`
/// - `task ID ATTEMPT PHASE VERSION WRITER JOB REQUEST`, and `held MACHINE`, `waiting` or `over`
///
/// What is not known is `-`. A closed machine holds nothing and has no spare. A task that is not live is over.
/// Refused only if memory runs out. One walk over the records. Of a list of more than jobs a tally is made, in which each
/// machine and each task is looked up.
pub fn list_text(alloc: Global, knowledge: &Knowledge, listing: Listing) -> Result<String, Refusal>
    ensures ok { IfOk result (λ text. string_bytes text ≡ list_text listing knowledge.now) }
    ensures err { IsOkUnless result Refusal.OutOfMemory }
{
    let mut lines = String::new(alloc);
    match listing {
        Listing::Jobs => write_jobs(alloc, knowledge, &mut lines)?,
        Listing::All | Listing::Machines | Listing::Tasks | Listing::Waiting => {
            let tally = Tally::of(alloc, knowledge)?;
            write_listing(alloc, knowledge, &tally, listing, &mut lines)?;
        }
    }
    Ok(lines)
}

/// The list of what the coordinator knows, as `list_text` has it. If the coordinator has its tally, it is taken, and none
/// is made. Refused only if memory runs out.
pub fn list_of<N: NetKeeper>(
    alloc: Global,
    coordinator: &Coordinator<N>,
    listing: Listing,
) -> Result<String, Refusal>
    ensures ok { IfOk result (λ text. string_bytes text ≡ list_text listing coordinator.now.state.knowledge) }
    ensures err { IsOkUnless result Refusal.OutOfMemory }
{
    let knowledge = coordinator.knowledge();
    let Some(tally) = coordinator.tally() else {
        return list_text(alloc, knowledge, listing);
    };
    let mut lines = String::new(alloc);
    write_listing(alloc, knowledge, tally, listing, &mut lines)?;
    Ok(lines)
}

// Appends the lines of the kind.
fn write_listing(
    alloc: Global,
    knowledge: &Knowledge,
    tally: &Tally,
    listing: Listing,
    lines: &mut String,
) -> Result<(), Refusal>
    requires { TallyIsFor knowledge.now tally.now }
    ensures ok { OnOk result (string_bytes lines.new ≡ string_bytes lines.old ++ list_text listing knowledge.now) }
    ensures err { IsOkUnless result Refusal.OutOfMemory }
{
    match listing {
        Listing::All => write_all(alloc, knowledge, tally, lines),
        Listing::Jobs => write_jobs(alloc, knowledge, lines),
        Listing::Machines => write_machines(alloc, knowledge, tally, lines),
        Listing::Tasks => write_tasks(alloc, knowledge, tally, lines),
        Listing::Waiting => write_waiting(alloc, knowledge, tally, lines),
    }
}

// Appends all lines.
fn write_all(
    alloc: Global,
    knowledge: &Knowledge,
    tally: &Tally,
    lines: &mut String,
) -> Result<(), Refusal>
    requires { TallyIsFor knowledge.now tally.now }
    ensures ok { OnOk result (string_bytes lines.new
        ≡ string_bytes lines.old ++ list_text Listing.All knowledge.now) }
    ensures err { IsOkUnless result Refusal.OutOfMemory }
{
    write_jobs(alloc, knowledge, lines)?;
    write_machines(alloc, knowledge, tally, lines)?;
    write_tasks(alloc, knowledge, tally, lines)
}

// Appends a line for each job.
fn write_jobs(alloc: Global, knowledge: &Knowledge, lines: &mut String) -> Result<(), Refusal>
    ensures ok { OnOk result (string_bytes lines.new ≡ string_bytes lines.old ++ flat_map job_line knowledge.now.jobs) }
    ensures err { IsOkUnless result Refusal.OutOfMemory }
{
    write_map(alloc, knowledge.jobs(), lines)
}

// Appends a line for each machine.
fn write_machines(
    alloc: Global,
    knowledge: &Knowledge,
    tally: &Tally,
    lines: &mut String,
) -> Result<(), Refusal>
    requires { TallyIsFor knowledge.now tally.now }
    ensures ok { OnOk result (string_bytes lines.new
        ≡ string_bytes lines.old ++ flat_map (listed_machine knowledge.now) knowledge.now.machines) }
    ensures err { IsOkUnless result Refusal.OutOfMemory }
{
    for (machine, known) in knowledge.machines().iter() {
        write_machine(alloc, knowledge, tally, *machine, known, lines)?;
    }
    Ok(())
}

// Appends a machine's line.
fn write_machine(
    alloc: Global,
    knowledge: &Knowledge,
    tally: &Tally,
    machine: MachineId,
    known: &MachineRec,
    line: &mut String,
) -> Result<(), Refusal>
    requires { TallyIsFor knowledge.now tally.now }
    ensures ok { OnOk result (string_bytes line.new
        ≡ string_bytes line.old ++ listed_machine knowledge.now (machine, known.now)) }
    ensures err { IsOkUnless result Refusal.OutOfMemory }
{
    let found = tally.machines.get(&machine);
    let name = machine.text(alloc)?;
    let incarnation = known.0;
    write!(line, "machine {name} {incarnation} ")?;
    write_state(&known.1.0, line)?;
    write_use(found, line)
}

// Appends what a machine's state says.
fn write_state(state: &Opt<Max<MachineReg>>, line: &mut String) -> Result<(), Refusal>
    ensures ok { OnOk result (string_bytes line.new ≡ string_bytes line.old ++ state_fields state.now) }
    ensures err { IsOkUnless result Refusal.OutOfMemory }
{
    let Some(state) = &state.0 else {
        line.push_str("- - closed - -")?;
        return Ok(());
    };
    let MachineReg {
        version,
        writer,
        up,
        slots,
        nic,
    } = state.0;
    let is = open_text(up);
    write!(line, "{version} {writer} {is} {slots} {nic}")?;
    Ok(())
}

fn open_text(up: bool) -> &'static str
    ensures { result.now ≡ text_of_open up }
{
    if up { "open" } else { "closed" }
}

// Appends what an open machine holds, and what its load leaves; ends the line.
fn write_use(found: Option<OpenMachine>, line: &mut String) -> Result<(), Refusal>
    ensures ok { OnOk result (string_bytes line.new
        ≡ string_bytes line.old ++ (codes " " ++ (use_fields found ++ codes "\n"))) }
    ensures err { IsOkUnless result Refusal.OutOfMemory }
{
    match found {
        None => line.push_str(" 0 0 -\n")?,
        Some(
            OpenMachine {
                held,
                load,
                spare: Some(spare),
                ..
            },
        ) => write!(line, " {held} {load} {spare}\n")?,
        Some(OpenMachine { held, load, .. }) => write!(line, " {held} {load} -\n")?,
    }
    Ok(())
}

// Appends a line for each task.
fn write_tasks(
    alloc: Global,
    knowledge: &Knowledge,
    tally: &Tally,
    lines: &mut String,
) -> Result<(), Refusal>
    requires { TallyIsFor knowledge.now tally.now }
    ensures ok { OnOk result (string_bytes lines.new
        ≡ string_bytes lines.old ++ flat_map (listed_task knowledge.now) knowledge.now.tasks) }
    ensures err { IsOkUnless result Refusal.OutOfMemory }
{
    for (task, known) in knowledge.tasks().iter() {
        write_task(alloc, knowledge, tally, *task, known, lines)?;
    }
    Ok(())
}

// Appends a line for each live task that no machine holds.
fn write_waiting(
    alloc: Global,
    knowledge: &Knowledge,
    tally: &Tally,
    lines: &mut String,
) -> Result<(), Refusal>
    requires { TallyIsFor knowledge.now tally.now }
    ensures ok { OnOk result (string_bytes lines.new
        ≡ string_bytes lines.old ++ flat_map (waiting_line knowledge.now) knowledge.now.tasks) }
    ensures err { IsOkUnless result Refusal.OutOfMemory }
{
    for (task, known) in knowledge.tasks().iter() {
        write_if_waiting(alloc, knowledge, tally, *task, known, lines)?;
    }
    Ok(())
}

// Appends a task's line if it waits.
fn write_if_waiting(
    alloc: Global,
    knowledge: &Knowledge,
    tally: &Tally,
    task: TaskId,
    known: &TaskRec,
    line: &mut String,
) -> Result<(), Refusal>
    requires { TallyIsFor knowledge.now tally.now }
    ensures ok { OnOk result (string_bytes line.new
        ≡ string_bytes line.old ++ waiting_line knowledge.now (task, known.now)) }
    ensures err { IsOkUnless result Refusal.OutOfMemory }
{
    match tally.tasks.get(&task) {
        Some(LiveTask { holder: None, .. }) => {
            write_task(alloc, knowledge, tally, task, known, line)
        }
        _ => Ok(()),
    }
}

// Appends a task's line.
fn write_task(
    alloc: Global,
    knowledge: &Knowledge,
    tally: &Tally,
    task: TaskId,
    known: &TaskRec,
    line: &mut String,
) -> Result<(), Refusal>
    requires { TallyIsFor knowledge.now tally.now }
    ensures ok { OnOk result (string_bytes line.new
        ≡ string_bytes line.old ++ listed_task knowledge.now (task, known.now)) }
    ensures err { IsOkUnless result Refusal.OutOfMemory }
{
    let name = task.text(alloc)?;
    let attempt = known.1.0.attempt;
    let phase = phase_text(known.1.0.phase);
    write!(line, "task {name} {attempt} {phase} ")?;
    write_spec(alloc, &known.0, line)?;
    write_place(alloc, knowledge, tally, task, line)
}

// Appends what a task's spec says, if one is known.
fn write_spec(alloc: Global, spec: &Opt<Max<SpecReg>>, line: &mut String) -> Result<(), Refusal>
    ensures ok { OnOk result (string_bytes line.new ≡ string_bytes line.old ++ spec_fields spec.now) }
    ensures err { IsOkUnless result Refusal.OutOfMemory }
{
    match &spec.0 {
        Some(spec) => write_known_spec(alloc, &spec.0, line),
        None => Ok(line.push_str("- - - -")?),
    }
}

// Appends what a spec says.
fn write_known_spec(alloc: Global, spec: &SpecReg, line: &mut String) -> Result<(), Refusal>
    ensures ok { OnOk result (string_bytes line.new ≡ string_bytes line.old ++ spec_fields (Some spec.now)) }
    ensures err { IsOkUnless result Refusal.OutOfMemory }
{
    let SpecReg {
        version,
        writer,
        job,
        request,
        ..
    } = *spec;
    let job = job.text(alloc)?;
    write!(line, "{version} {writer} {job} {request}")?;
    Ok(())
}

// Appends where a task is, and ends the line.
fn write_place(
    alloc: Global,
    knowledge: &Knowledge,
    tally: &Tally,
    task: TaskId,
    line: &mut String,
) -> Result<(), Refusal>
    requires { TallyIsFor knowledge.now tally.now }
    ensures ok { OnOk result (string_bytes line.new ≡ string_bytes line.old
        ++ (codes " " ++ (text_of_place (is_live knowledge.now task) (holder_of knowledge.now task) ++ codes "\n"))) }
    ensures err { IsOkUnless result Refusal.OutOfMemory }
{
    match tally.tasks.get(&task) {
        Some(
            LiveTask {
                holder: Some(machine),
                ..
            },
        ) => {
            let machine = machine.text(alloc)?;
            write!(line, " held {machine}\n")?;
        }
        Some(_) => line.push_str(" waiting\n")?,
        None => line.push_str(" over\n")?,
    }
    Ok(())
}
