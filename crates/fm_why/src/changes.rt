//! Changes of one machine by which a task that waits would run: each is tried on a copy of what is known.
//!
//! That a machine lacks a slot does not show that one more would help, since another task may take it. So the change is
//! told to the copy, and its network is built and solved.

ghost use Rattle.std.specs.Prelude.{◌≡◌, ◌≤◌, ◌+◌, ℕ, Some, None, IfOk, IfSome, IsTrue, length, map};
ghost use Rattle.std.specs.List.{All};
ghost use Rattle.fm_records.specs.Ops.{op_fault};
ghost use Rattle.fm_records.specs.Table.{Table};
ghost use Rattle.fm_records.specs.Joined.{table_join};
ghost use Rattle.fm_certificate.specs.Flows.{units_in, IsLeast};
ghost use Rattle.fm_net.specs.Network.{net_of};
ghost use Rattle.fm_why.specs.Running.{RunsOn};
ghost use Rattle.fm_why.specs.Remedies.{more_slots, more_bandwidth, change_op, with_op, RunsAt, IsTight, IsRemedy};
ghost use Rattle.fm_why.specs.Remedies.{AreOneOfEach};
ghost use Rattle.fm_why.specs.inner.ChangeKinds.{IsBandwidth};

use crate::reasons::{Change, Choice, Remedy};
use crate::running::{Target, runs_on};
use fm_certificate::cost::cost;
use fm_certificate::flow::Flow;
use fm_flow::solve::solve;
use fm_know::knowledge::Knowledge;
use fm_know::laws::law_can_be;
use fm_lattice::join::OutOfMemory;
use fm_net::network::Network;
use fm_policy::build::build;
use fm_records::ids::{MachineId, TaskId};
use fm_records::ops::{MOST_BANDWIDTH, Op};
use fm_records::records::MachineReg;
use fm_tally::tally::{OpenMachine, Tally};
use std::alloc::Global;

// The greatest bandwidth of a machine.
const MOST: u128 = MOST_BANDWIDTH as u128;

/// Up to two changes by which the task would run: one more slot on the first of the machines, and as much more bandwidth as
/// the request lacks on the machine that lacks least. One is left out if the task still waits in the schedule that is found
/// then. O(n) for the tally, and for each of both the cost of building the network and of solving it.
pub(crate) fn remedies_of(
    alloc: Global,
    knowledge: &Knowledge,
    task: TaskId,
    request: u32,
    machines: &[Choice],
) -> Result<Vec<Remedy>, OutOfMemory>
    ensures each { IfOk result (λ found. All (IsRemedy knowledge.now task request) found.items) }
    ensures few { IfOk result (λ found. length found.items ≤ 2) }
    ensures one_of_each { IfOk result (λ found. AreOneOfEach (map (λ e. e.change) found.items)) }
{
    let slot = with_slot(alloc, knowledge, task, request, machines)?;
    let bandwidth = with_bandwidth(alloc, knowledge, task, request)?;
    listed(alloc, slot, bandwidth)
}

// The remedies that there are, in this order.
fn listed(
    alloc: Global,
    slot: Option<Remedy>,
    bandwidth: Option<Remedy>,
) -> Result<Vec<Remedy>, OutOfMemory>
    ensures each { (k : Table) (t r : ℕ) → IfSome slot (IsRemedy k t r) → IfSome bandwidth (IsRemedy k t r)
        → IfOk result (λ found. All (IsRemedy k t r) found.items) }
    ensures few { IfOk result (λ found. length found.items ≤ 2) }
    ensures one_of_each { IfSome slot (λ e. e.change ≡ Change.Slot) → IfSome bandwidth (λ e. IsBandwidth e.change)
        → IfOk result (λ found. AreOneOfEach (map (λ e. e.change) found.items)) }
{
    let mut found = Vec::new(alloc);
    if let Some(remedy) = slot {
        found.push(remedy)?;
    }
    if let Some(remedy) = bandwidth {
        found.push(remedy)?;
    }
    Ok(found)
}

// One more slot on the first of the machines, if the task runs then.
fn with_slot(
    alloc: Global,
    knowledge: &Knowledge,
    task: TaskId,
    request: u32,
    machines: &[Choice],
) -> Result<Option<Remedy>, OutOfMemory>
    ensures remedy { IfOk result (λ found. IfSome found (IsRemedy knowledge.now task request)) }
    ensures kind { IfOk result (λ found. IfSome found (λ e. e.change ≡ Change.Slot)) }
{
    let Some(first) = machines.first() else {
        return Ok(None);
    };
    let machine = first.machine;
    let aim = Target {
        task,
        request,
        machine,
    };
    remedy_of(alloc, knowledge, &aim, Change::Slot)
}

// As much more bandwidth as the request lacks on the machine that lacks least, if the task runs then.
fn with_bandwidth(
    alloc: Global,
    knowledge: &Knowledge,
    task: TaskId,
    request: u32,
) -> Result<Option<Remedy>, OutOfMemory>
    ensures remedy { IfOk result (λ found. IfSome found (IsRemedy knowledge.now task request)) }
    ensures kind { IfOk result (λ found. IfSome found (λ e. IsBandwidth e.change)) }
{
    let Some(lack) = least_lack(alloc, knowledge, request)? else {
        return Ok(None);
    };
    let machine = lack.machine;
    let aim = Target {
        task,
        request,
        machine,
    };
    remedy_of(alloc, knowledge, &aim, Change::Bandwidth(lack.by))
}

// The change of the aim's machine, if it can be told, and a least schedule runs the task then.
fn remedy_of(
    alloc: Global,
    knowledge: &Knowledge,
    aim: &Target,
    change: Change,
) -> Result<Option<Remedy>, OutOfMemory>
    ensures remedy { IfOk result (λ found. IfSome found (IsRemedy knowledge.now aim.now.task aim.now.request)) }
    ensures kind { IfOk result (λ found. IfSome found (λ e. e.change ≡ change)) }
{
    let Some(op) = change_op(knowledge, aim.machine, change) else {
        return Ok(None);
    };
    let known = with_op(alloc, knowledge, &op)?;
    remedy_in(alloc, &known, aim, change)
}

// The change of the aim's machine, if it is tight by what is known after it, and a least schedule runs the task then.
fn remedy_in(
    alloc: Global,
    known: &Knowledge,
    aim: &Target,
    change: Change,
) -> Result<Option<Remedy>, OutOfMemory>
    ensures runs { IfOk result (λ found. IfSome found (λ e. RunsAt known.now aim.now.task e.place e.cost)) }
    ensures tight { IfOk result (λ found. IfSome found (λ e. IsTight known.now e.machine aim.now.request e.change)) }
    ensures machine { IfOk result (λ found. IfSome found (λ e. e.machine ≡ aim.now.machine)) }
    ensures kind { IfOk result (λ found. IfSome found (λ e. e.change ≡ change)) }
{
    if !is_tight(known, aim, change) {
        return Ok(None);
    }
    let Some(run) = run_of(alloc, known, aim)? else {
        return Ok(None);
    };
    Ok(Some(Remedy {
        machine: aim.machine,
        change,
        place: run.place,
        cost: run.cost,
    }))
}

// What tells of the change, if the machine is open, its version is not the greatest, and each number is in its range.
fn change_op(knowledge: &Knowledge, machine: MachineId, change: Change) -> Option<Op>
    ensures is { IfSome result (λ op. change_op knowledge.now machine change ≡ Some op) }
    ensures within { IfSome result (λ op. op_fault op ≡ None) }
{
    let state = knowledge.open_state(machine)?;
    let incarnation = knowledge.machines().get(&machine)?.0;
    let slots = slots_after(&state, change)?;
    let nic = nic_after(&state, change)?;
    let told = knowledge.next_machine(machine, incarnation, state.writer, state.up, slots, nic);
    match told {
        Ok(op) if op.check().is_ok() => Some(op),
        _ => None,
    }
}

// The slots after the change.
fn slots_after(state: &MachineReg, change: Change) -> Option<u32>
    ensures { IfSome result (λ slots. slots ≡ state.now.slots + more_slots change) }
{
    match change {
        Change::Slot => state.slots.checked_add(1),
        Change::Bandwidth(_) => Some(state.slots),
    }
}

// The bandwidth after the change.
fn nic_after(state: &MachineReg, change: Change) -> Option<u32>
    ensures { IfSome result (λ nic. nic ≡ state.now.nic + more_bandwidth change) }
{
    match change {
        Change::Slot => Some(state.nic),
        Change::Bandwidth(by) => state.nic.checked_add(by),
    }
}

// What is known once the operation is told too.
fn with_op(alloc: Global, knowledge: &Knowledge, op: &Op) -> Result<Knowledge, OutOfMemory>
    requires { op_fault op.now ≡ None }
    ensures { IfOk result (λ known. known ≡ with_op knowledge.now op.now) }
{
    let delta = Knowledge::delta_of(alloc, op)?;
    with_delta(knowledge, &delta)
}

// What is known once the delta is known too.
fn with_delta(knowledge: &Knowledge, delta: &Knowledge) -> Result<Knowledge, OutOfMemory>
    ensures { IfOk result (λ known. known ≡ table_join knowledge.now delta.now) }
{
    let mut known = knowledge.copy()?;
    known.join_into(delta)?;
    Ok(known)
}

// Whether the machine, if it got bandwidth, has just the request to spare now.
fn is_tight(known: &Knowledge, aim: &Target, change: Change) -> bool
    ensures { IsTrue result → IsTight known.now aim.now.machine aim.now.request change }
{
    match change {
        Change::Slot => true,
        Change::Bandwidth(_) => known.spare(aim.machine) == Some(aim.request),
    }
}

// A machine on which a schedule runs a task, and what the schedule costs.
#[derive(Debug, Clone, Copy, Drop)]
struct Run {
    place: MachineId,
    cost: u128,
}

// Where a least schedule of what is known runs the task, if the one that is found does.
fn run_of(alloc: Global, known: &Knowledge, aim: &Target) -> Result<Option<Run>, OutOfMemory>
    ensures { IfOk result (λ found. IfSome found (λ run. RunsAt known.now aim.now.task run.place run.cost)) }
{
    law_can_be(known);
    let network = build(alloc, known)?;
    run_on(alloc, known, &network, aim)
}

// As above, by the network of what is known.
fn run_on(
    alloc: Global,
    known: &Knowledge,
    network: &Network,
    aim: &Target,
) -> Result<Option<Run>, OutOfMemory>
    requires { network.now ≡ net_of known.now }
    ensures { IfOk result (λ found. IfSome found (λ run. RunsAt known.now aim.now.task run.place run.cost)) }
{
    law_can_be(known);
    match solve(alloc, network) {
        Ok(found) => Ok(run_by(known, network, &found.0, aim)),
        Err(_) => Err(OutOfMemory),
    }
}

// Where the least flow runs the task, if it does.
fn run_by(known: &Knowledge, network: &Network, flow: &Flow, aim: &Target) -> Option<Run>
    requires network { network.now ≡ net_of known.now }
    requires least { IsLeast network.now (units_in flow.now) }
    ensures { IfSome result (λ run. RunsAt known.now aim.now.task run.place run.cost) }
{
    law_can_be(known);
    let place = place_of(known, network, flow, aim)?;
    Some(Run {
        place,
        cost: cost(network, flow),
    })
}

// A machine on which the flow runs the task, if there is one: the aim's, or else the first by id.
fn place_of(known: &Knowledge, network: &Network, flow: &Flow, aim: &Target) -> Option<MachineId>
    ensures { IfSome result (RunsOn network.now (units_in flow.now) aim.now.task) }
{
    if runs_on(network, flow, aim) {
        return Some(aim.machine);
    }
    for (machine, _) in known.machines().iter() {
        let other = Target {
            task: aim.task,
            request: aim.request,
            machine: *machine,
        };
        if runs_on(network, flow, &other) {
            return Some(*machine);
        }
    }
    None
}

// How much bandwidth a machine lacks for a request, and whether it holds as many tasks as it has slots.
#[derive(Debug, Clone, Copy, Drop)]
struct Lack {
    machine: MachineId,
    by: u32,
    full: bool,
}

// The open machine without room for the request that lacks the least bandwidth, one with a free slot before all others, if
// there is one that may get as much.
fn least_lack(
    alloc: Global,
    knowledge: &Knowledge,
    request: u32,
) -> Result<Option<Lack>, OutOfMemory> {
    let tally = Tally::of(alloc, knowledge)?;
    let mut least = None;
    for (machine, open) in tally.machines.pairs() {
        if let Some(lack) = lack_of(knowledge, *machine, open, request) {
            if is_less(&lack, &least) {
                least = Some(lack);
            }
        }
    }
    Ok(least)
}

// What the open machine lacks for the request, if anything, and if it may get as much.
fn lack_of(
    knowledge: &Knowledge,
    machine: MachineId,
    open: &OpenMachine,
    request: u32,
) -> Option<Lack> {
    let state = knowledge.open_state(machine)?;
    let wanted = open.load.saturating_add(u128::from(request));
    let lack = wanted.saturating_sub(u128::from(state.nic));
    if lack == 0 || wanted > MOST {
        return None;
    }
    Some(Lack {
        machine,
        by: u32::try_from(lack).ok()?,
        full: open.held >= u64::from(open.slots),
    })
}

// Whether the lack is less than the other, or there is no other.
fn is_less(lack: &Lack, other: &Option<Lack>) -> bool {
    match other {
        None => true,
        Some(other) if lack.full == other.full => lack.by < other.by,
        Some(other) => other.full,
    }
}
