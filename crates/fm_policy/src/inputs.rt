//! What a network is built from: the tally of what is known, the requests that tasks wait for, and how many live tasks each job has.
//!
//! An arc into a machine depends on the machine's load, and that on all tasks that it holds. The tally has it of each
//! machine, from one walk over the tasks. So the arc of a request to a machine is found in O(1).

ghost use Rattle.std.specs.Prelude.{◌≡◌, Some, IfOk};
ghost use Rattle.std.specs.List.{filter_map};
ghost use Rattle.std.specs.Ordering.{nat_cmp};
ghost use Rattle.fm_records.specs.Sets.{rising};
ghost use Rattle.fm_net.specs.Network.{room_arc};
ghost use Rattle.fm_tally.specs.Tallies.{open_machine_at};
ghost use Rattle.fm_policy.specs.inner.Inputs.{AreInputs, waiting_request, request_unless_held};

use crate::room::Room;
use fm_know::knowledge::Knowledge;
use fm_know::laws::law_can_be;
use fm_lattice::join::OutOfMemory;
use fm_records::ids::{JobId, MachineId, TaskId};
use fm_tally::guide::{Guide, upper};
use fm_tally::job_counts::job_counts;
use fm_tally::sorted::Sorted;
use fm_tally::tally::{LiveTask, OpenMachine, Tally};
use std::alloc::Global;
use std::collections::BTreeSet;

/// The live tasks and the open machines, the requests that tasks wait for, and how many live tasks each job has.
#[derive(Drop)]
pub(crate) struct NetworkInputs {
    pub(crate) tally: Tally,
    pub(crate) requests: Vec<u32>,
    pub(crate) jobs: Sorted<JobId, u64>,
    // Where a machine may stand among the open ones.
    guide: Guide,
}

impl NetworkInputs {
    /// The inputs of the network of what is known: those of its tally. O(n) if ids are spread evenly, else O(n log n).
    pub(crate) fn of(alloc: Global, knowledge: &Knowledge) -> Result<NetworkInputs, OutOfMemory>
        ensures { IfOk result (AreInputs knowledge.now) }
    {
        law_can_be(knowledge);
        let tally = Tally::of(alloc, knowledge)?;
        let requests = waiting_requests(alloc, tally.tasks.pairs())?;
        let jobs = job_counts(alloc, knowledge, &tally)?;
        let guide = Guide::of_machines(alloc, tally.machines.pairs())?;
        Ok(NetworkInputs {
            tally,
            requests,
            jobs,
            guide,
        })
    }

    /// How many tasks of the request fit on the machine and what each costs, if the machine is open and has room. O(1) if ids are
    /// spread evenly, else O(log n).
    pub(crate) fn room_arc(
        &self,
        knowledge: &Knowledge,
        request: u32,
        machine: MachineId,
    ) -> Option<(u64, u32)>
        requires { AreInputs knowledge.now self.now }
        ensures { result ≡ room_arc knowledge.now request machine }
    {
        let near = self.guide.guess(upper(machine.value()));
        let opened = self.tally.machines.get_near(near, &machine)?;
        room_arc(knowledge, request, machine, &opened)
    }
}

/// How many tasks of the request fit on the open machine and what each costs, if it has room.
pub(crate) fn room_arc(
    knowledge: &Knowledge,
    request: u32,
    machine: MachineId,
    opened: &OpenMachine,
) -> Option<(u64, u32)>
    requires { open_machine_at knowledge.now machine ≡ Some opened.now }
    ensures { result ≡ room_arc knowledge.now request machine }
{
    law_can_be(knowledge);
    Room::on(opened)?.fit(request)
}

// The requests that tasks wait for, each once, rising. O(n log n).
fn waiting_requests(alloc: Global, tasks: &[(TaskId, LiveTask)]) -> Result<Vec<u32>, OutOfMemory>
    ensures { IfOk result (λ requests. requests.items ≡ rising nat_cmp (filter_map waiting_request tasks.now)) }
{
    let mut requests = BTreeSet::new(alloc);
    for entry in tasks {
        if let Some(request) = waits_for(&entry.1) {
            requests.insert(request)?;
        }
    }
    Ok(requests.iter().copied().collect(alloc)?)
}

// The request that the task waits for, if no machine holds it.
fn waits_for(live: &LiveTask) -> Option<u32>
    ensures { result ≡ request_unless_held live.now.request live.now.holder }
{
    match live.holder {
        Some(_) => None,
        None => Some(live.request),
    }
}
