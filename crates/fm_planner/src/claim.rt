//! What a search claims to be a plan of a least flow: moves of tasks, with the prices by which that can be checked.

ghost use Rattle.std.specs.Prelude.{◌≡◌};
ghost use Rattle.std.specs.Ordering.{nat_cmp};
ghost use Rattle.fm_lattice.specs.Maps.{lookup};
ghost use Rattle.fm_planner.specs.inner.Claims.{rise_of, offer_of};

use crate::machine_index::{NONE, Numbers};
use fm_lattice::sorted_vec::get_hinted;
use fm_records::ids::{MachineId, TaskId};
use fm_tally::sorted::Sorted;
use fm_tally::tally::{LiveTask, OpenMachine, Tally};
use fm_tally::way::Way;

/// The tasks that move, each with its way, and prices at which these are to be the cheapest.
#[derive(Drop)]
pub(crate) struct Claim {
    pub(crate) moves: Sorted<TaskId, Way>,
    /// By how much the price of a machine is above its load, if it is.
    pub(crate) rises: Sorted<MachineId, u64>,
    /// What the units of a request pay for a machine, if anything.
    pub(crate) offers: Sorted<u32, u64>,
    pub(crate) places: Places,
}

/// Where a check may find what it looks up. It compares what stands there, and searches if it is something else.
#[derive(Drop)]
pub(crate) struct Places {
    /// The machines by id, which stand so in the tally, and among the rises.
    pub(crate) machines: Numbers,
    /// Of each task of the tally, where its machine stands, if it is held, and else its move, if it has one.
    pub(crate) tasks: Vec<usize>,
    /// Of each move, where its task stands in the tally.
    pub(crate) moves: Vec<usize>,
}

// The place of that number.
fn place_at(places: &[usize], number: usize) -> usize {
    places.get(number).copied().unwrap_or(NONE)
}

impl Claim {
    /// By how much the price of the machine is above its load. Each reader here takes O(1) if what it reads stands where it may,
    /// and else O(log n).
    pub(crate) fn rise(&self, machine: MachineId) -> u64
        ensures { result ≡ rise_of self.now machine }
    {
        self.rise_near(self.places.machines.near(machine), machine)
    }

    /// The same of a machine that may stand at the place near.
    pub(crate) fn rise_near(&self, near: usize, machine: MachineId) -> u64
        ensures { result ≡ rise_of self.now machine }
    {
        get_hinted(self.rises.pairs(), near, &machine).unwrap_or(0)
    }

    /// The same of the machine that holds the task of that number in the tally.
    pub(crate) fn rise_at(&self, task: usize, machine: MachineId) -> u64
        ensures { result ≡ rise_of self.now machine }
    {
        self.rise_near(place_at(&self.places.tasks, task), machine)
    }

    /// What the units of the request pay for a machine.
    pub(crate) fn offer(&self, request: u32) -> u64
        ensures { result ≡ offer_of self.now request }
    {
        self.offers.get(&request).unwrap_or(0)
    }

    /// The way of the task, which has that number in the tally, if it moves.
    pub(crate) fn way(&self, number: usize, task: TaskId) -> Option<Way>
        ensures { result ≡ lookup nat_cmp task self.now.moves }
    {
        get_hinted(
            self.moves.pairs(),
            place_at(&self.places.tasks, number),
            &task,
        )
    }

    /// The machine in the tally.
    pub(crate) fn machine(&self, tally: &Tally, machine: MachineId) -> Option<OpenMachine>
        ensures { result ≡ lookup nat_cmp machine tally.now.machines }
    {
        let near = self.places.machines.near(machine);
        tally.machines.get_near(near, &machine)
    }

    /// The task in the tally, of which the move has that number.
    pub(crate) fn moved(&self, tally: &Tally, number: usize, task: TaskId) -> Option<LiveTask>
        ensures { result ≡ lookup nat_cmp task tally.now.tasks }
    {
        let near = place_at(&self.places.moves, number);
        tally.tasks.get_near(near, &task)
    }
}
