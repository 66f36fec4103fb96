//! How many moves go where, counted once, so that a check looks up what each machine gains and loses.

ghost use Rattle.std.specs.Prelude.{◌≡◌, ◌<◌, ◌+◌, ◌^◌, ℕ, cond, length, count_by, IfOk, OnOk};
ghost use Rattle.std.specs.BTreeMap.{is_at};
ghost use Rattle.fm_records.specs.Options.{passes};
ghost use Rattle.fm_records.specs.Facts.{holder_of};
ghost use Rattle.fm_tally.specs.Tallies.{TallyIsFor};
ghost use Rattle.fm_planner.specs.inner.Counts.{count_in, pairs_in, arriving_in, leaving_in, pair_of, moved_machine, AreCounts, CountsMore};

use crate::claim::Claim;
use fm_know::knowledge::Knowledge;
use fm_lattice::chain::Chain;
use fm_lattice::join::OutOfMemory;
use fm_records::ids::{MachineId, TaskId};
use fm_tally::tally::Tally;
use fm_tally::way::Way;
use std::alloc::Global;
use std::collections::BTreeMap;

/// Of some moves: how many go over each request to each machine, how many take a slot of each machine, and how many
/// leave it.
#[derive(Drop)]
pub(crate) struct Counts {
    pub(crate) pairs: BTreeMap<(u32, MachineId), u64>,
    pub(crate) arriving: BTreeMap<MachineId, u64>,
    pub(crate) leaving: BTreeMap<MachineId, u64>,
}

impl Counts {
    /// The counts of the moves, which are the claim's. The caller must pass the tally of what is known. O(n log n).
    pub(crate) fn of(
        alloc: Global,
        knowledge: &Knowledge,
        tally: &Tally,
        claim: &Claim,
        moves: &[(TaskId, Way)],
    ) -> Result<Counts, OutOfMemory>
        requires { TallyIsFor knowledge.now tally.now }
        ensures { IfOk result (AreCounts knowledge.now moves.now) }
    {
        let mut counts = Counts {
            pairs: BTreeMap::new(alloc),
            arriving: BTreeMap::new(alloc),
            leaving: BTreeMap::new(alloc),
        };
        let mut number = 0usize;
        for (task, way) in moves {
            let holder = holder_of(knowledge, tally, claim, number, *task);
            counts.add(holder, way)?;
            number = number.saturating_add(1);
        }
        Ok(counts)
    }

    // Counts one more, of a task that the machine holds, if there is one.
    fn add(&mut self, holder: Option<MachineId>, way: &Way) -> Result<(), OutOfMemory>
        requires pairs { (r m : ℕ) → pairs_in self.old r m + 1 < 2 ^ 64 }
        requires arriving { (m : ℕ) → arriving_in self.old m + 1 < 2 ^ 64 }
        requires leaving { (m : ℕ) → leaving_in self.old m + 1 < 2 ^ 64 }
        ensures { OnOk result (CountsMore holder way.now self.old self.new) }
    {
        let pair = pair_of(way);
        count(&mut self.pairs, &pair)?;
        let machine = machine_of(way);
        count(&mut self.arriving, &machine)?;
        count(&mut self.leaving, &holder)?;
        Ok(())
    }

    /// How many go over the request to the machine. O(log n), as each reader here.
    pub(crate) fn pair(&self, request: u32, machine: MachineId) -> u64
        ensures { result ≡ pairs_in self.now request machine }
    {
        self.pairs.get(&(request, machine)).copied().unwrap_or(0)
    }

    /// How many take a slot of the machine.
    pub(crate) fn arriving(&self, machine: MachineId) -> u64
        ensures { result ≡ arriving_in self.now machine }
    {
        self.arriving.get(&machine).copied().unwrap_or(0)
    }

    /// How many tasks that the machine holds move.
    pub(crate) fn leaving(&self, machine: MachineId) -> u64
        ensures { result ≡ leaving_in self.now machine }
    {
        self.leaving.get(&machine).copied().unwrap_or(0)
    }
}

// The machine that holds the task, of which the move has that number: by the tally, if the task is in it.
fn holder_of(
    knowledge: &Knowledge,
    tally: &Tally,
    claim: &Claim,
    number: usize,
    task: TaskId,
) -> Option<MachineId>
    requires { TallyIsFor knowledge.now tally.now }
    ensures { result ≡ holder_of knowledge.now task }
{
    match claim.moved(tally, number, task) {
        Some(live) => live.holder,
        None => knowledge.holder(task),
    }
}

// The request and the machine of a way over a request.
fn pair_of(way: &Way) -> Option<(u32, MachineId)>
    ensures { result ≡ pair_of way.now }
{
    match *way {
        Way::ByRequest(request, machine) => Some((request, machine)),
        _ => None,
    }
}

// The machine of which the way takes a slot.
fn machine_of(way: &Way) -> Option<MachineId>
    ensures { result ≡ moved_machine way.now }
{
    match *way {
        Way::ToJob(_) => None,
        Way::ByRequest(_, machine) => Some(machine),
        Way::Straight(machine) => Some(machine),
    }
}

// Adds one at the key, if there is one.
fn count<K: Chain>(counts: &mut BTreeMap<K, u64>, key: &Option<K>) -> Result<(), OutOfMemory>
    requires { (q : K) → count_in K.cmp counts.old q + 1 < 2 ^ 64 }
    ensures { OnOk result ((q : K) → count_in K.cmp counts.new q
        ≡ count_in K.cmp counts.old q + cond (passes (λ p. is_at (K.cmp p) q) key.now) 1 0) }
{
    let Some(key) = *key else {
        return Ok(());
    };
    let before = counts.get(&key).copied().unwrap_or(0);
    counts.insert(key, before + 1)?;
    Ok(())
}
