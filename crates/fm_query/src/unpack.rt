//! Packets in hexadecimal digits, and their records as text.

ghost use Rattle.std.specs.Prelude.{◌≡◌, ◌++◌, Some, IfOk, IfErr, OnOk, IsOkUnless, string_bytes};
ghost use Rattle.std.specs.List.{flat_map};
ghost use Rattle.fm_query.specs.Unpacked.{IsUnpacked, IsNotUnpacked, without_line_feed, unpacked_text, records_text, preferred_text, spec_line, state_line, report_line, proposal_line};
ghost use Rattle.fm_query.specs.Unpacked.{phase_text as text_of_phase};

use crate::packet_text::packet_in;
use crate::text_lines::{EntryText, write_map};
use fm_delta::packet::Packet;
use fm_know::knowledge::Knowledge;
use fm_lattice::constructors::{Max, Min, Opt};
use fm_lattice::map::JoinMap;
use fm_records::ids::{CoordId, JobId, MachineId, TaskId};
use fm_records::ops::Phase;
use fm_records::prefer::Prefer;
use fm_records::records::{JobReg, MachineRec, MachineReg, Report, SpecReg, Spot, TaskRec};
use fm_records::refusal::Refusal;
use std::alloc::Global;

/// The records of the packet that the text spells in hexadecimal digits of either case, a line each, in the packet's
/// order. A text that is no pairs of digits with at most one line feed after them is `BadScript(0)`, and bytes that
/// spell no packet are `BadPacket` with the place of the first fault. O(n log n).
pub fn unpack(alloc: Global, text: &[u8]) -> Result<String, Refusal>
    ensures ok { IfOk result (λ t. IsUnpacked text.now (string_bytes t)) }
    ensures err { IfErr result (λ refusal. IsNotUnpacked text.now refusal) }
{
    let packet = packet_in(alloc, digits_in(text))?;
    let mut lines = String::new(alloc);
    write_packet(alloc, &packet, &mut lines)?;
    Ok(lines)
}

// The text without a line feed at its end.
fn digits_in(text: &[u8]) -> &[u8]
    ensures { result.now ≡ without_line_feed text.now }
{
    match text.strip_suffix(b"\n".as_slice()) {
        Some(digits) => digits,
        None => text,
    }
}

// Appends the packet's line and its records.
fn write_packet(alloc: Global, packet: &Packet, lines: &mut String) -> Result<(), Refusal>
    ensures ok { OnOk result (string_bytes lines.new ≡ string_bytes lines.old ++ unpacked_text packet.now) }
    ensures err { IsOkUnless result Refusal.OutOfMemory }
{
    let sender = packet.sender.value();
    let number = packet.number;
    write!(lines, "packet {sender} {number}\n")?;
    write_records(alloc, &packet.value, lines)
}

// Appends the records of what is known.
fn write_records(alloc: Global, known: &Knowledge, lines: &mut String) -> Result<(), Refusal>
    ensures ok { OnOk result (string_bytes lines.new ≡ string_bytes lines.old ++ records_text known.now) }
    ensures err { IsOkUnless result Refusal.OutOfMemory }
{
    write_map(alloc, known.jobs(), lines)?;
    write_map(alloc, known.tasks(), lines)?;
    write_map(alloc, known.machines(), lines)?;
    write_map(alloc, known.proposals(), lines)
}

// A job's line.
impl EntryText<JobId> for Max<JobReg> {
    ghost use Rattle.fm_query.specs.Unpacked.{job_line};

    ghost entry_text = { job_line };

    fn write_text(&self, alloc: Global, job: JobId, lines: &mut String) -> Result<(), Refusal> {
        let JobReg {
            version,
            writer,
            withdrawn,
            wait,
            preempt,
        } = self.0;
        let job = job.text(alloc)?;
        write!(
            lines,
            "job {job} {version} {writer} {withdrawn} {wait} {preempt}\n"
        )?;
        Ok(())
    }
}

// A task's line, and its spec's, if known.
impl EntryText<TaskId> for TaskRec {
    ghost use Rattle.fm_query.specs.Unpacked.{task_lines};

    ghost entry_text = { task_lines };

    fn write_text(&self, alloc: Global, task: TaskId, lines: &mut String) -> Result<(), Refusal> {
        let name = task.text(alloc)?;
        let attempt = self.1.0.attempt;
        let phase = phase_text(self.1.0.phase);
        write!(lines, "task {name} {attempt} {phase}\n")?;
        write_known_spec(alloc, lines, task, &self.0)
    }
}

// Appends a spec's line, if it is known.
fn write_known_spec(
    alloc: Global,
    lines: &mut String,
    task: TaskId,
    spec: &Opt<Max<SpecReg>>,
) -> Result<(), Refusal>
    ensures ok { OnOk result (string_bytes lines.new ≡ string_bytes lines.old ++ spec_line task spec.now) }
    ensures err { IsOkUnless result Refusal.OutOfMemory }
{
    match &spec.0 {
        Some(spec) => write_spec(alloc, lines, task, &spec.0),
        None => Ok(()),
    }
}

// Appends a spec's line.
fn write_spec(
    alloc: Global,
    lines: &mut String,
    task: TaskId,
    spec: &SpecReg,
) -> Result<(), Refusal>
    ensures ok { OnOk result (string_bytes lines.new ≡ string_bytes lines.old ++ spec_line task (Some spec.now)) }
    ensures err { IsOkUnless result Refusal.OutOfMemory }
{
    let SpecReg {
        version,
        writer,
        withdrawn,
        job,
        request,
        prefer,
    } = *spec;
    let task = task.text(alloc)?;
    let job = job.text(alloc)?;
    write!(
        lines,
        "spec {task} {version} {writer} {withdrawn} {job} {request}"
    )?;
    write_preferred(alloc, lines, &prefer)?;
    write!(lines, "\n")?;
    Ok(())
}

// Appends the machines that are preferred, each with its credit.
fn write_preferred(alloc: Global, lines: &mut String, prefer: &Prefer) -> Result<(), Refusal>
    ensures ok { OnOk result (string_bytes lines.new ≡ string_bytes lines.old ++ flat_map preferred_text prefer.now) }
    ensures err { IsOkUnless result Refusal.OutOfMemory }
{
    for entry in prefer.entries() {
        write_entry(alloc, lines, entry.0, entry.1)?;
    }
    Ok(())
}

// Appends a machine and its credit.
fn write_entry(
    alloc: Global,
    lines: &mut String,
    machine: MachineId,
    credit: u32,
) -> Result<(), Refusal>
    ensures ok { OnOk result (string_bytes lines.new ≡ string_bytes lines.old ++ preferred_text (machine, credit)) }
    ensures err { IsOkUnless result Refusal.OutOfMemory }
{
    let machine = machine.text(alloc)?;
    write!(lines, " {machine} {credit}")?;
    Ok(())
}

/// The word for a phase.
pub(crate) fn phase_text(phase: Phase) -> &'static str
    ensures { result.now ≡ text_of_phase phase }
{
    match phase {
        Phase::Pending => "pending",
        Phase::Running => "running",
        Phase::Done => "done",
    }
}

// A machine's line, and its state's and its report's, if known.
impl EntryText<MachineId> for MachineRec {
    ghost use Rattle.fm_query.specs.Unpacked.{machine_lines};

    ghost entry_text = { machine_lines };

    fn write_text(
        &self,
        alloc: Global,
        machine: MachineId,
        lines: &mut String,
    ) -> Result<(), Refusal> {
        let name = machine.text(alloc)?;
        let incarnation = self.0;
        write!(lines, "machine {name} {incarnation}\n")?;
        write_state(alloc, lines, machine, &self.1.0)?;
        write_report(alloc, lines, machine, &self.1.1)
    }
}

// Appends a state's line, if it is known.
fn write_state(
    alloc: Global,
    lines: &mut String,
    machine: MachineId,
    state: &Opt<Max<MachineReg>>,
) -> Result<(), Refusal>
    ensures ok { OnOk result (string_bytes lines.new ≡ string_bytes lines.old ++ state_line machine state.now) }
    ensures err { IsOkUnless result Refusal.OutOfMemory }
{
    let Some(state) = &state.0 else {
        return Ok(());
    };
    let MachineReg {
        version,
        writer,
        up,
        slots,
        nic,
    } = state.0;
    let machine = machine.text(alloc)?;
    write!(
        lines,
        "state {machine} {version} {writer} {up} {slots} {nic}\n"
    )?;
    Ok(())
}

// Appends a report's line, if it is known.
fn write_report(
    alloc: Global,
    lines: &mut String,
    machine: MachineId,
    report: &Opt<Max<Report>>,
) -> Result<(), Refusal>
    ensures ok { OnOk result (string_bytes lines.new ≡ string_bytes lines.old ++ report_line machine report.now) }
    ensures err { IsOkUnless result Refusal.OutOfMemory }
{
    let Some(report) = &report.0 else {
        return Ok(());
    };
    let Report { number, used } = report.0;
    let machine = machine.text(alloc)?;
    write!(lines, "report {machine} {number} {used}\n")?;
    Ok(())
}

// The lines of an attempt's proposals.
impl EntryText<(TaskId, u32)> for JoinMap<CoordId, Min<Spot>> {
    ghost use Rattle.fm_query.specs.Unpacked.{proposal_lines};

    ghost entry_text = { proposal_lines };

    fn write_text(
        &self,
        alloc: Global,
        at: (TaskId, u32),
        lines: &mut String,
    ) -> Result<(), Refusal> {
        write_attempt(alloc, lines, at.0, at.1, self)
    }
}

// Appends the proposals for an attempt, by coordinator.
fn write_attempt(
    alloc: Global,
    lines: &mut String,
    task: TaskId,
    attempt: u32,
    spots: &JoinMap<CoordId, Min<Spot>>,
) -> Result<(), Refusal>
    ensures ok { OnOk result (string_bytes lines.new
        ≡ string_bytes lines.old ++ flat_map (proposal_line (task, attempt)) spots.now) }
    ensures err { IsOkUnless result Refusal.OutOfMemory }
{
    for (coordinator, spot) in spots.iter() {
        write_proposal(alloc, lines, task, attempt, *coordinator, &spot.0)?;
    }
    Ok(())
}

// Appends a proposal's line.
fn write_proposal(
    alloc: Global,
    lines: &mut String,
    task: TaskId,
    attempt: u32,
    coordinator: CoordId,
    spot: &Spot,
) -> Result<(), Refusal>
    ensures ok { OnOk result (string_bytes lines.new
        ≡ string_bytes lines.old ++ proposal_line (task, attempt) (coordinator, spot.now)) }
    ensures err { IsOkUnless result Refusal.OutOfMemory }
{
    let task = task.text(alloc)?;
    let coordinator = coordinator.value();
    let machine = spot.machine.text(alloc)?;
    let incarnation = spot.incarnation;
    write!(
        lines,
        "propose {task} {attempt} {coordinator} {machine} {incarnation}\n"
    )?;
    Ok(())
}
