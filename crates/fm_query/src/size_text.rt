//! How much a coordinator knows, as lines: records, where tasks and machines are, bandwidth, how long its history is, and
//! how large a packet of all that it knows would be.
//!
//! Each number is exact: none stops at a greatest value.

ghost use Rattle.std.specs.Prelude.{◌≡◌, ◌++◌, cond, not, is_some, length, IfOk, OnOk, IsOkUnless, string_bytes};
ghost use Rattle.std.specs.Option.{unwrap_or};
ghost use Rattle.std.specs.Ordering.{nat_cmp};
ghost use Rattle.fm_lattice.specs.Maps.{lookup};
ghost use Rattle.fm_records.specs.Facts.{is_live, holder_of, is_open, used_of, spare_of};
ghost use Rattle.fm_tally.specs.Tallies.{TallyIsFor};
ghost use Rattle.fm_query.specs.ListText.{is_waiting};
ghost use Rattle.fm_query.specs.SizeText.{proposal_count, waiting_count, held_count, over_count, requested_sum};
ghost use Rattle.fm_query.specs.SizeText.{held_request, open_count, closed_count, reported_sum, spare_sum};
ghost use Rattle.fm_query.specs.SizeText.{size_line, record_lines, place_lines, bandwidth_lines, known_size_text};
ghost use Rattle.fm_query.specs.SizeText.{history_lines, size_text};
ghost use Rattle.fm_delta.specs.Deltas.{end_of};
ghost use Rattle.fm_wire.specs.Grammar.{packet_size as size_of_packet};
ghost use Rattle.fm_coord.specs.States.{cut_packet};

use fm_coord::coordinator::Coordinator;
use fm_coord::entry::Range;
use fm_know::knowledge::Knowledge;
use fm_know::record_facts::request_in;
use fm_lattice::sorted_vec::get_hinted;
use fm_policy::keeper::NetKeeper;
use fm_records::ids::{MachineId, TaskId};
use fm_records::records::TaskRec;
use fm_records::refusal::Refusal;
use fm_tally::tally::{LiveTask, Tally};
use fm_wire::packet_size::packet_size;
use std::alloc::Global;

// How many records there are of each kind.
#[derive(Clone, Copy, Drop)]
struct RecordSize {
    jobs: usize,
    machines: usize,
    tasks: usize,
    proposals: u128,
}

// Where the tasks are, and what those that are held request.
#[derive(Clone, Copy, Drop)]
struct TaskSize {
    waiting: u64,
    held: u64,
    over: u64,
    requested: u128,
}

// Which machines are open, and what these report and have left.
#[derive(Clone, Copy, Drop)]
struct MachineSize {
    opened: u64,
    closed: u64,
    reported: u128,
    spare: u128,
}

// What one task counts for.
#[derive(Clone, Copy, Drop)]
struct OneTask {
    is_waiting: bool,
    is_held: bool,
    is_over: bool,
    requested: u32,
}

// What one machine counts for.
#[derive(Clone, Copy, Drop)]
struct OneMachine {
    is_open: bool,
    reported: u32,
    spare: u32,
}

/// How much the coordinator knows, as `write_known_size` has it, and then:
///
/// - `entries` and `limit`: how many entries its history has, and may have
/// - `first` and `next`: the numbers of the first delta that it keeps, and of the next one that it will receive
/// - `packet`: how many bytes its next packet has if it is one of all that is known
///
/// Refused only if memory runs out. If the coordinator has its tally, it is taken, and only the text needs memory; else
/// it costs what `write_known_size` does. The packet is not made: of it only a walk over the records is needed.
pub fn size_text<N: NetKeeper>(
    alloc: Global,
    coordinator: &Coordinator<N>,
) -> Result<String, Refusal>
    ensures ok { IfOk result (λ text. string_bytes text
        ≡ size_text coordinator.now.state.knowledge (length coordinator.now.state.history) coordinator.now.state.limit
        coordinator.now.state.deltas.floor (end_of coordinator.now.state.deltas)
        (size_of_packet (cut_packet coordinator.now.state Range.Full))) }
    ensures err { IsOkUnless result Refusal.OutOfMemory }
{
    let mut lines = String::new(alloc);
    write_by_tally(alloc, coordinator, &mut lines)?;
    write_history(coordinator, &mut lines)?;
    write_size("packet", packet_size(coordinator.knowledge()), &mut lines)?;
    Ok(lines)
}

// Appends how much is known, by the tally that the coordinator has, or by one that is made.
fn write_by_tally<N: NetKeeper>(
    alloc: Global,
    coordinator: &Coordinator<N>,
    lines: &mut String,
) -> Result<(), Refusal>
    ensures ok { OnOk result (string_bytes lines.new
        ≡ string_bytes lines.old ++ known_size_text coordinator.now.state.knowledge) }
    ensures err { IsOkUnless result Refusal.OutOfMemory }
{
    match coordinator.tally() {
        Some(tally) => write_tallied_size(coordinator.knowledge(), tally, lines),
        None => write_known_size(alloc, coordinator.knowledge(), lines),
    }
}

// Appends how long the history is, and which deltas are kept.
fn write_history<N: NetKeeper>(
    coordinator: &Coordinator<N>,
    lines: &mut String,
) -> Result<(), Refusal>
    ensures ok { OnOk result (string_bytes lines.new ≡ string_bytes lines.old
        ++ history_lines (length coordinator.now.state.history) coordinator.now.state.limit
        coordinator.now.state.deltas.floor (end_of coordinator.now.state.deltas)) }
    ensures err { IsOkUnless result Refusal.OutOfMemory }
{
    write_size("entries", coordinator.history().len() as u128, lines)?;
    write_size("limit", coordinator.limit() as u128, lines)?;
    write_size("first", u128::from(coordinator.floor()), lines)?;
    write_size("next", u128::from(coordinator.end()), lines)
}

/// Appends lines `NAME VALUE`, in this order:
///
/// - `jobs`, `machines`, `tasks` and `proposals`: the records; of an attempt each coordinator's proposal counts
/// - `waiting`, `held` and `over`: tasks that are live and not held, that a machine holds, and that are not live
/// - `open` and `closed`: machines
/// - `requested`, `reported` and `spare`: the bandwidth that held tasks request, that open machines reported as used,
///   and that open machines have left, 0 if the load is greater
///
/// Refused only if memory runs out; some of the lines may stand there then. One walk each over the tasks, the
/// machines and the attempts, with a look-up for each task and machine: O(n log n), and the tally's memory.
pub fn write_known_size(
    alloc: Global,
    knowledge: &Knowledge,
    lines: &mut String,
) -> Result<(), Refusal>
    ensures ok { OnOk result (string_bytes lines.new ≡ string_bytes lines.old ++ known_size_text knowledge.now) }
    ensures err { IsOkUnless result Refusal.OutOfMemory }
{
    let tally = Tally::of(alloc, knowledge)?;
    write_tallied_size(knowledge, &tally, lines)
}

// The same, with the tally of what is known.
fn write_tallied_size(
    knowledge: &Knowledge,
    tally: &Tally,
    lines: &mut String,
) -> Result<(), Refusal>
    requires { TallyIsFor knowledge.now tally.now }
    ensures ok { OnOk result (string_bytes lines.new ≡ string_bytes lines.old ++ known_size_text knowledge.now) }
    ensures err { IsOkUnless result Refusal.OutOfMemory }
{
    let records = size_of_records(knowledge);
    let tasks = size_of_tasks(knowledge, tally);
    let machines = size_of_machines(knowledge, tally);
    write_records(&records, lines)?;
    write_places(&tasks, &machines, lines)?;
    write_bandwidth(&tasks, &machines, lines)
}

// Counts the records.
fn size_of_records(knowledge: &Knowledge) -> RecordSize
    ensures jobs { result.jobs ≡ length knowledge.now.jobs }
    ensures machines { result.machines ≡ length knowledge.now.machines }
    ensures tasks { result.tasks ≡ length knowledge.now.tasks }
    ensures proposals { result.proposals ≡ proposal_count knowledge.now }
{
    RecordSize {
        jobs: knowledge.jobs().len(),
        machines: knowledge.machines().len(),
        tasks: knowledge.tasks().len(),
        proposals: count_proposals(knowledge),
    }
}

// Counts the proposals.
fn count_proposals(knowledge: &Knowledge) -> u128
    ensures { result ≡ proposal_count knowledge.now }
{
    let mut count = 0u128;
    for (_, entries) in knowledge.proposals().iter() {
        count += entries.len() as u128;
    }
    count
}

// Counts the tasks, and sums what those that are held request.
fn size_of_tasks(knowledge: &Knowledge, tally: &Tally) -> TaskSize
    requires { TallyIsFor knowledge.now tally.now }
    ensures waiting { result.waiting ≡ waiting_count knowledge.now }
    ensures held { result.held ≡ held_count knowledge.now }
    ensures over { result.over ≡ over_count knowledge.now }
    ensures requested { result.requested ≡ requested_sum knowledge.now }
{
    let mut waiting = 0u64;
    let mut held = 0u64;
    let mut over = 0u64;
    let mut requested = 0u128;
    let mut near = 0usize;
    for (task, known) in knowledge.tasks().iter() {
        let one = one_task(knowledge, tally, near, *task, known);
        near = near.saturating_add(usize::from(!one.is_over));
        waiting += u64::from(one.is_waiting);
        held += u64::from(one.is_held);
        over += u64::from(one.is_over);
        requested += u128::from(one.requested);
    }
    TaskSize {
        waiting,
        held,
        over,
        requested,
    }
}

// Where the task of the record is, and what it requests if a machine holds it.
fn one_task(
    knowledge: &Knowledge,
    tally: &Tally,
    near: usize,
    task: TaskId,
    known: &TaskRec,
) -> OneTask
    requires { TallyIsFor knowledge.now tally.now }
    ensures is_waiting { result.is_waiting ≡ is_waiting knowledge.now task }
    ensures is_held { result.is_held ≡ is_some (holder_of knowledge.now task) }
    ensures is_over { result.is_over ≡ not (is_live knowledge.now task) }
    ensures requested { result.requested ≡ held_request knowledge.now (task, known.now) }
{
    match tallied_task(tally, near, task) {
        Some(
            LiveTask {
                holder: Some(_),
                ..
            },
        ) => OneTask {
            is_waiting: false,
            is_held: true,
            is_over: false,
            requested: request_in(known),
        },
        Some(_) => OneTask {
            is_waiting: true,
            is_held: false,
            is_over: false,
            requested: 0,
        },
        None => OneTask {
            is_waiting: false,
            is_held: false,
            is_over: true,
            requested: 0,
        },
    }
}

// The task of the tally, if it is live. It is looked for at the index first, where it is if so many live ones were before it.
fn tallied_task(tally: &Tally, near: usize, task: TaskId) -> Option<LiveTask>
    ensures { result ≡ lookup nat_cmp task tally.now.tasks }
{
    get_hinted(tally.tasks.pairs(), near, &task)
}

// Counts the machines, and sums what those that are open report and have left.
fn size_of_machines(knowledge: &Knowledge, tally: &Tally) -> MachineSize
    requires { TallyIsFor knowledge.now tally.now }
    ensures opened { result.opened ≡ open_count knowledge.now }
    ensures closed { result.closed ≡ closed_count knowledge.now }
    ensures reported { result.reported ≡ reported_sum knowledge.now }
    ensures spare { result.spare ≡ spare_sum knowledge.now }
{
    let mut opened = 0u64;
    let mut closed = 0u64;
    let mut reported = 0u128;
    let mut spare = 0u128;
    for (machine, _) in knowledge.machines().iter() {
        let one = one_machine(knowledge, tally, *machine);
        opened += u64::from(one.is_open);
        closed += u64::from(!one.is_open);
        reported += u128::from(one.reported);
        spare += u128::from(one.spare);
    }
    MachineSize {
        opened,
        closed,
        reported,
        spare,
    }
}

// Whether the machine is open, and what it reports and has left if it is.
fn one_machine(knowledge: &Knowledge, tally: &Tally, machine: MachineId) -> OneMachine
    requires { TallyIsFor knowledge.now tally.now }
    ensures is_open { result.is_open ≡ is_open knowledge.now machine }
    ensures reported { result.reported ≡ cond (is_open knowledge.now machine) (used_of knowledge.now machine) 0 }
    ensures spare { result.spare ≡ unwrap_or (spare_of knowledge.now machine) 0 }
{
    match tally.machines.get(&machine) {
        Some(found) => OneMachine {
            is_open: true,
            reported: knowledge.used(machine),
            spare: found.spare.unwrap_or(0),
        },
        None => OneMachine {
            is_open: false,
            reported: 0,
            spare: 0,
        },
    }
}

// Appends how many records there are of each kind.
fn write_records(records: &RecordSize, lines: &mut String) -> Result<(), Refusal>
    ensures ok { OnOk result (string_bytes lines.new ≡ string_bytes lines.old
        ++ record_lines records.now.jobs records.now.machines records.now.tasks records.now.proposals) }
    ensures err { IsOkUnless result Refusal.OutOfMemory }
{
    write_size("jobs", records.jobs as u128, lines)?;
    write_size("machines", records.machines as u128, lines)?;
    write_size("tasks", records.tasks as u128, lines)?;
    write_size("proposals", records.proposals, lines)
}

// Appends where the tasks are, and which machines are open.
fn write_places(tasks: &TaskSize, machines: &MachineSize, lines: &mut String) -> Result<(), Refusal>
    ensures ok { OnOk result (string_bytes lines.new ≡ string_bytes lines.old
        ++ place_lines tasks.now.waiting tasks.now.held tasks.now.over machines.now.opened machines.now.closed) }
    ensures err { IsOkUnless result Refusal.OutOfMemory }
{
    write_size("waiting", u128::from(tasks.waiting), lines)?;
    write_size("held", u128::from(tasks.held), lines)?;
    write_size("over", u128::from(tasks.over), lines)?;
    write_size("open", u128::from(machines.opened), lines)?;
    write_size("closed", u128::from(machines.closed), lines)
}

// Appends the sums of bandwidth.
fn write_bandwidth(
    tasks: &TaskSize,
    machines: &MachineSize,
    lines: &mut String,
) -> Result<(), Refusal>
    ensures ok { OnOk result (string_bytes lines.new ≡ string_bytes lines.old
        ++ bandwidth_lines tasks.now.requested machines.now.reported machines.now.spare) }
    ensures err { IsOkUnless result Refusal.OutOfMemory }
{
    write_size("requested", tasks.requested, lines)?;
    write_size("reported", machines.reported, lines)?;
    write_size("spare", machines.spare, lines)
}

// Appends a line.
fn write_size(name: &str, value: u128, line: &mut String) -> Result<(), Refusal>
    ensures ok { OnOk result (string_bytes line.new ≡ string_bytes line.old ++ size_line name.now value) }
    ensures err { IsOkUnless result Refusal.OutOfMemory }
{
    write!(line, "{name} {value}\n")?;
    Ok(())
}
