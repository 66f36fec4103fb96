//! Why a task waits or runs: where it is, and how much dearer each schedule is that does otherwise, at least.
//!
//! A least flow gives no reason by itself. Its potentials do: they bound what each schedule costs that runs the task
//! elsewhere, or lets it wait. Examples and changes of a machine show what the bounds cannot.

ghost use Rattle.std.specs.Prelude.{◌≡◌, ◌↔◌, ◌+◌, ◌<◌, ◌≤◌, ◌^◌, Some, None, IfOk, IfSome, IsTrue, [], false, length, map, option_map, slice_get, take};
ghost use Rattle.std.specs.List.{All};
ghost use Rattle.fm_records.specs.Facts.{job_of, live_spec, holder_of};
ghost use Rattle.fm_net.specs.Network.{net_of};
ghost use Rattle.fm_certificate.specs.Certificates.{IsCertified};
ghost use Rattle.fm_why.specs.inner.Schedule.{IsSchedule};
ghost use Rattle.fm_why.specs.Remedies.{IsRemedy, AreOneOfEach};
ghost use Rattle.fm_why.specs.Reasons.{AreChoices, AreReasons};

use crate::alternative::examples_on;
use crate::bounds::{CertifiedFlow, more_over};
use crate::changes::remedies_of;
use crate::options::choices_of;
use crate::reasons::{Choice, Choices, Reasons, Remedy, SHOWN};
use crate::running::has_units;
use crate::tighten::Paths;
use fm_certificate::check::check;
use fm_certificate::cost::cost;
use fm_certificate::flow::Flow;
use fm_certificate::potentials::Potentials;
use fm_flow::solve::solve;
use fm_know::knowledge::Knowledge;
use fm_know::laws::law_can_be;
use fm_lattice::join::OutOfMemory;
use fm_net::network::Network;
use fm_net::node::Node;
use fm_policy::build::build;
use fm_records::ids::TaskId;
use fm_records::records::{JobReg, SpecReg};
use std::alloc::Global;

/// Where the task is by what is known; for a live task that no machine holds, what its schedule costs, how much dearer
/// each schedule is that runs it on a machine, or leaves it waiting, at least, up to which price of waiting, from the
/// present one on, its schedule stays least, possibly a schedule that runs it on each of the cheapest machines, `SHOWN`
/// at most, and up to two changes of a machine after which some least schedule runs it. Refused only if memory runs
/// out. If the task is live and not held, the cost is that of building the network and of solving it, and of shortest
/// paths in it. If it waits, it is also that of at most two flows for each of these machines that are tried, O((nodes +
/// arcs) log nodes) each, of a tally, and of at most two changed clusters that are built and solved. Else it is that of
/// look-ups.
pub fn why(alloc: Global, knowledge: &Knowledge, task: TaskId) -> Result<Reasons, OutOfMemory>
    ensures { IfOk result (AreReasons knowledge.now task) }
{
    if knowledge.spec(task).is_none() {
        return Ok(Reasons::Unknown);
    }
    let Some((spec, job)) = live(knowledge, task) else {
        return Ok(Reasons::NotLive);
    };
    if let Some(machine) = knowledge.holder(task) {
        return Ok(Reasons::Held(machine));
    }
    let choices = choices(alloc, knowledge, task, spec, job)?;
    Ok(Reasons::Free(choices))
}

// The spec and the job of the task, if it is live.
fn live(knowledge: &Knowledge, task: TaskId) -> Option<(SpecReg, JobReg)>
    ensures spec { option_map (λ e. e.0) result ≡ live_spec knowledge.now task }
    ensures job { IfSome result (λ e. job_of knowledge.now e.0.job ≡ Some e.1) }
{
    let spec = knowledge.live_spec(task)?;
    let job = knowledge.job(spec.job)?;
    Some((spec, job))
}

// What there is to choose for the task.
fn choices(
    alloc: Global,
    knowledge: &Knowledge,
    task: TaskId,
    spec: SpecReg,
    job: JobReg,
) -> Result<Choices, OutOfMemory>
    requires live { live_spec knowledge.now task ≡ Some spec }
    requires job { job_of knowledge.now spec.job ≡ Some job }
    requires free { holder_of knowledge.now task ≡ None }
    ensures { IfOk result (AreChoices knowledge.now task spec) }
{
    let network = build(alloc, knowledge)?;
    choices_in(alloc, knowledge, &network, task, spec, job)
}

// What there is to choose for the task in the network.
fn choices_in(
    alloc: Global,
    knowledge: &Knowledge,
    network: &Network,
    task: TaskId,
    spec: SpecReg,
    job: JobReg,
) -> Result<Choices, OutOfMemory>
    requires live { live_spec knowledge.now task ≡ Some spec }
    requires job { job_of knowledge.now spec.job ≡ Some job }
    requires free { holder_of knowledge.now task ≡ None }
    requires network { network.now ≡ net_of knowledge.now }
    ensures { IfOk result (AreChoices knowledge.now task spec) }
{
    let schedule = schedule_of(alloc, knowledge, network, task, &spec)?;
    choices_beside(alloc, knowledge, network, &schedule, task, spec, job)
}

// What there is to choose for the task beside a least schedule of the network.
fn choices_beside(
    alloc: Global,
    knowledge: &Knowledge,
    network: &Network,
    schedule: &CertifiedFlow,
    task: TaskId,
    spec: SpecReg,
    job: JobReg,
) -> Result<Choices, OutOfMemory>
    requires live { live_spec knowledge.now task ≡ Some spec }
    requires job { job_of knowledge.now spec.job ≡ Some job }
    requires free { holder_of knowledge.now task ≡ None }
    requires network { network.now ≡ net_of knowledge.now }
    requires schedule { IsSchedule network.now schedule.now }
    ensures { IfOk result (AreChoices knowledge.now task spec) }
{
    law_can_be(knowledge);
    network.known();
    let machines = choices_of(alloc, knowledge, network, schedule, task, spec.request)?;
    let (from, to) = (Node::Task(task), Node::Unscheduled(spec.job));
    let listed = machines.as_slice();
    let price = price_of(job.wait, listed);
    let shown = first_of(listed);
    let examples = examples_on(alloc, network, schedule, task, spec.request, shown)?;
    let waits = has_units(&schedule.flow, &from, &to);
    let remedies = remedies(alloc, knowledge, task, spec.request, listed, waits)?;
    Ok(Choices {
        request: spec.request,
        wait: job.wait,
        least: schedule.least,
        waits,
        waiting: more_over(network, schedule, &from, &to),
        machines,
        known: knowledge.machines().len(),
        price,
        examples,
        remedies,
    })
}

// The changes of a machine by which the task would run, if it waits now.
fn remedies(
    alloc: Global,
    knowledge: &Knowledge,
    task: TaskId,
    request: u32,
    machines: &[Choice],
    waits: bool,
) -> Result<Vec<Remedy>, OutOfMemory>
    ensures each { IfOk result (λ found. All (IsRemedy knowledge.now task request) found.items) }
    ensures few { IfOk result (λ found. length found.items ≤ 2) }
    ensures one_of_each { IfOk result (λ found. AreOneOfEach (map (λ e. e.change) found.items)) }
    ensures only_waiting { IfOk result (λ found. waits ≡ false → found.items ≡ []) }
{
    if waits {
        remedies_of(alloc, knowledge, task, request, machines)
    } else {
        Ok(Vec::new(alloc))
    }
}

// Up to which price of waiting the schedule stays least: that of waiting now, and what the cheapest machine costs more.
fn price_of(wait: u32, machines: &[Choice]) -> Option<u128>
    requires { All (λ e. e.dearer < 2 ^ 111) machines.now }
    ensures { result ≡ option_map (λ e. wait + e.dearer) (slice_get machines.now 0) }
{
    let first = machines.first()?;
    Some(u128::from(wait) + first.dearer)
}

// The first of the machines, for which examples are looked for.
fn first_of(machines: &[Choice]) -> &[Choice]
    ensures { result.now ≡ take SHOWN machines.now }
{
    if machines.len() > SHOWN {
        &machines[..SHOWN]
    } else {
        machines
    }
}

// A least flow of the network, potentials that certify it, and what it costs.
fn schedule_of(
    alloc: Global,
    knowledge: &Knowledge,
    network: &Network,
    task: TaskId,
    spec: &SpecReg,
) -> Result<CertifiedFlow, OutOfMemory>
    requires { network.now ≡ net_of knowledge.now }
    ensures { IfOk result (IsSchedule network.now) }
{
    law_can_be(knowledge);
    let Ok((flow, potentials)) = solve(alloc, network) else {
        return Err(OutOfMemory);
    };
    let least = cost(network, &flow);
    let goal = goal_of(&flow, task, spec);
    let paths = Paths::to(alloc, network, &flow, &potentials, &goal)?;
    let potentials = sharpened(alloc, network, &flow, potentials, &paths)?;
    Ok(CertifiedFlow {
        flow,
        potentials,
        least,
        goal,
        paths,
    })
}

// Where the task's unit goes: to its job if it waits, else to its request, or to a machine that it prefers.
fn goal_of(flow: &Flow, task: TaskId, spec: &SpecReg) -> Node {
    let from = Node::Task(task);
    for (machine, _) in spec.prefer.entries() {
        if has_units(flow, &from, &Node::Machine(*machine)) {
            return Node::Machine(*machine);
        }
    }
    let request = Node::Request(spec.request);
    if has_units(flow, &from, &request) {
        return request;
    }
    Node::Unscheduled(spec.job)
}

// Potentials by which bounds are as great as can be, if they certify the flow; else the given ones.
fn sharpened(
    alloc: Global,
    network: &Network,
    flow: &Flow,
    potentials: Potentials,
    paths: &Paths,
) -> Result<Potentials, OutOfMemory>
    requires { IsCertified network.now flow.now potentials }
    ensures { IfOk result (IsCertified network.now flow.now) }
{
    let tried = paths.tuned(alloc)?;
    if check(network, flow, &tried) {
        Ok(tried)
    } else {
        Ok(potentials)
    }
}
