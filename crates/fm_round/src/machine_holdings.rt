//! What the machines of places hold: counted in one walk, and kept as tasks come.
//!
//! Each place asks how many tasks its machine holds and what they request, and counting that is a walk over all tasks.
//! So it is counted once for all machines of the plan, and a place that is accepted is added, O(log n). With a tally
//! nothing is walked.

ghost use Rattle.std.specs.Prelude.{◌≡◌, ◌<◌, ◌+◌, ◌^◌, ℕ, length, Some, IfOk, OnOk, IsTrue};
ghost use Rattle.std.specs.Ordering.{nat_cmp};
ghost use Rattle.fm_lattice.specs.Maps.{lookup};
ghost use Rattle.fm_records.specs.Sets.{IsMember};
ghost use Rattle.std.specs.declared.cmp.Ordering.TheVariants.{Less};
ghost use Rattle.fm_records.specs.Facts.{only_if, holder_of, held_tasks};
ghost use Rattle.fm_records.specs.Orders.{attempt_cmp};
ghost use Rattle.fm_round.specs.declared.plan.Place.{Place as Entry};
ghost use Rattle.fm_records.specs.Table.{Table as Known};
ghost use Rattle.fm_round.specs.inner.MachineHoldings.{is_counted, holding_of, requests_of, share, nothing_held, AreCountedHoldings};
ghost use Rattle.fm_tally.specs.Tallies.{TallyIsFor};

use crate::plan::Place;
use fm_know::knowledge::Knowledge;
use fm_know::record_facts::{attempt_in, request_in};
use fm_lattice::join::OutOfMemory;
use fm_records::ids::{MachineId, TaskId};
use fm_records::records::TaskRec;
use fm_tally::tally::Tally;
use fm_tally::winner_scan::Winners;
use std::alloc::Global;
use std::collections::BTreeMap;

/// The sum of the requests of the tasks that a machine holds, and how many they are.
#[derive(Clone, Copy, Drop)]
pub(crate) struct Holding {
    pub(crate) requests: u128,
    pub(crate) tasks: u64,
}

// What a machine holds that holds nothing.
const NOTHING: Holding = Holding {
    requests: 0,
    tasks: 0,
};

/// The holding of each machine that is counted.
#[derive(Drop)]
pub(crate) struct Holdings {
    pub(crate) by_machine: BTreeMap<MachineId, Holding>,
}

impl Holdings {
    /// What each machine of the places holds. Nothing is walked if there is no place; else one walk over the tasks with the proposals,
    /// and look-ups for the tasks that such a machine won.
    pub(crate) fn of(
        alloc: Global,
        knowledge: &Knowledge,
        places: &[Place],
    ) -> Result<Holdings, OutOfMemory>
        ensures holdings { IfOk result (AreCountedHoldings knowledge.now) }
        ensures counted { IfOk result (λ holdings. (p : Entry) → IsMember p places.now
            → IsTrue (is_counted holdings p.machine)) }
    {
        let mut holdings = Holdings::none(alloc, places)?;
        holdings.count(knowledge)?;
        Ok(holdings)
    }

    /// What each machine of the places holds, by the tally of what is known. O(log n) for each place.
    pub(crate) fn by(
        alloc: Global,
        tally: &Tally,
        places: &[Place],
    ) -> Result<Holdings, OutOfMemory>
        ensures holdings { (k : Known) → TallyIsFor k tally.now → IfOk result (AreCountedHoldings k) }
        ensures counted { IfOk result (λ holdings. (p : Entry) → IsMember p places.now
            → IsTrue (is_counted holdings p.machine)) }
    {
        let mut holdings = Holdings {
            by_machine: BTreeMap::new(alloc),
        };
        for place in places {
            let held = held_by(tally, place.machine);
            holdings.by_machine.insert(place.machine, held)?;
        }
        Ok(holdings)
    }

    // The machines of the places, none of which holds anything so far.
    fn none(alloc: Global, places: &[Place]) -> Result<Holdings, OutOfMemory>
        ensures nothing { IfOk result (λ holdings. (m : ℕ) → holding_of holdings m ≡ nothing_held) }
        ensures counted { IfOk result (λ holdings. (p : Entry) → IsMember p places.now
            → IsTrue (is_counted holdings p.machine)) }
    {
        let mut holdings = Holdings {
            by_machine: BTreeMap::new(alloc),
        };
        for place in places {
            holdings.by_machine.insert(place.machine, NOTHING)?;
        }
        Ok(holdings)
    }

    // Counts what the machines hold, of which nothing is counted so far.
    fn count(&mut self, knowledge: &Knowledge) -> Result<(), OutOfMemory>
        requires { (m : ℕ) → holding_of self.old m ≡ nothing_held }
        ensures holdings { OnOk result (AreCountedHoldings knowledge.now self.new) }
        ensures counted { OnOk result ((m : ℕ) → is_counted self.new m ≡ is_counted self.old m) }
    {
        if self.by_machine.is_empty() {
            return Ok(());
        }
        let mut winners = Winners::of(knowledge);
        for (task, record) in knowledge.tasks().iter() {
            if let Some(machine) = self.holder(knowledge, &mut winners, *task, record) {
                self.add(machine, request_in(record))?;
            }
        }
        Ok(())
    }

    // The machine that holds the task with the record, if it is counted. Whether the one that won it is, is asked
    // first.
    fn holder(
        &self,
        knowledge: &Knowledge,
        winners: &mut Winners<'_>,
        task: TaskId,
        found: &TaskRec,
    ) -> Option<MachineId>
        requires found { lookup nat_cmp task knowledge.now.tasks ≡ Some found.now }
        requires entries { lookup attempt_cmp (task, found.now.1.attempt) winners.old
            ≡ lookup attempt_cmp (task, found.now.1.attempt) knowledge.now.proposals }
        ensures holder { result ≡ only_if (is_counted self.now) (holder_of knowledge.now task) }
        ensures ahead { (t a : ℕ) → attempt_cmp (task, found.now.1.attempt) (t, a) ≡ Less
            → lookup attempt_cmp (t, a) winners.new ≡ lookup attempt_cmp (t, a) winners.old }
    {
        let spot = winners.spot(task, attempt_in(found))?;
        if !self.by_machine.contains_key(&spot.machine) {
            return None;
        }
        knowledge.holder(task)
    }

    /// What the machine holds, if it is counted. O(log n).
    pub(crate) fn of_machine(&self, machine: MachineId) -> Holding
        ensures { result ≡ holding_of self.now machine }
    {
        self.by_machine.get(&machine).copied().unwrap_or(NOTHING)
    }

    /// Counts a task that the machine, which is counted, holds now. O(log n).
    pub(crate) fn add(&mut self, machine: MachineId, request: u32) -> Result<(), OutOfMemory>
        requires counted { IsTrue (is_counted self.old machine) }
        requires requests_fit { (holding_of self.old machine).requests + request < 2 ^ 128 }
        requires tasks_fit { (holding_of self.old machine).tasks + 1 < 2 ^ 64 }
        ensures requests { OnOk result ((m : ℕ) → (holding_of self.new m).requests
            ≡ (holding_of self.old m).requests + share machine m request) }
        ensures tasks { OnOk result ((m : ℕ) → (holding_of self.new m).tasks
            ≡ (holding_of self.old m).tasks + share machine m 1) }
        ensures counted { OnOk result ((m : ℕ) → is_counted self.new m ≡ is_counted self.old m) }
    {
        let Holding { requests, tasks } = self.of_machine(machine);
        let holding = Holding {
            requests: requests + u128::from(request),
            tasks: tasks + 1,
        };
        self.by_machine.insert(machine, holding)?;
        Ok(())
    }
}

// What the machine holds: nothing, if it is not open.
fn held_by(tally: &Tally, machine: MachineId) -> Holding
    ensures requests { (k : Known) → TallyIsFor k tally.now → result.requests ≡ requests_of k machine }
    ensures tasks { (k : Known) → TallyIsFor k tally.now → result.tasks ≡ length (held_tasks k machine) }
{
    match tally.machines.get(&machine) {
        Some(open) => Holding {
            requests: open.requests,
            tasks: open.held,
        },
        None => NOTHING,
    }
}
