//! What an open machine has left: how many tasks of a request fit there, and what each costs.
//!
//! Slots and spare bandwidth both bound how many fit. Each costs its request and the load of the machine, so that tasks
//! go to machines with a lower load first.

ghost use Rattle.std.specs.Prelude.{◌≡◌, ◌≤◌, ◌+◌, ◌-◌, IfSome};
ghost use Rattle.fm_know.specs.Limits.{StateWithin};
ghost use Rattle.fm_policy.specs.Building.{IsWithinArcs};
ghost use Rattle.fm_policy.specs.Rooms.{room_of, spare_in, fitting_tasks, fit_in, RoomWithin};
ghost use Rattle.fm_policy.specs.inner.Inputs.{room_on, SpareFits};

use fm_records::records::MachineReg;
use fm_tally::tally::OpenMachine;

/// An open machine whose load is within its bandwidth: what it has for tasks, and what they cost there.
#[derive(Debug, Clone, Copy, Drop)]
pub struct Room {
    slots: u32,
    load: u32,
    bandwidth: u32,
}

impl Room {
    /// The room on an open machine with this state and this load; none if the load is greater than the bandwidth.
    pub fn new(state: &MachineReg, load: u128) -> Option<Room>
        ensures room { result ≡ room_of state.now load }
        ensures within { StateWithin state.now → IfSome result RoomWithin }
    {
        if load > u128::from(state.nic) {
            return None;
        }
        Some(Room {
            slots: state.slots,
            load: load as u32,
            bandwidth: state.nic,
        })
    }

    /// The room on a machine of a tally; none if its load is greater than its bandwidth.
    pub(crate) fn on(machine: &OpenMachine) -> Option<Room>
        requires { SpareFits machine.now }
        ensures { result ≡ room_on machine.now }
    {
        let spare = machine.spare?;
        let load = machine.load as u32;
        Some(Room {
            slots: machine.slots,
            load,
            bandwidth: load + spare,
        })
    }

    /// How many tasks of the request fit, at most 2^32 - 1, and what each costs, which is the request and the load; none
    /// if the request is greater than what the load leaves of the bandwidth.
    pub fn fit(&self, request: u32) -> Option<(u64, u32)>
        ensures fit { result ≡ fit_in self.now request }
        ensures within { RoomWithin self.now → IfSome result IsWithinArcs }
    {
        let spare = self.spare();
        if request > spare {
            return None;
        }
        let count = fitting_tasks(self.slots, spare, request);
        Some((u64::from(count), request + self.load))
    }

    // What the load leaves of the bandwidth.
    fn spare(&self) -> u32
        ensures { result ≡ spare_in self.now }
    {
        self.bandwidth.saturating_sub(self.load)
    }
}

/// How many tasks of the request fit into so many slots and so much spare bandwidth.
pub fn fitting_tasks(slots: u32, spare: u32, request: u32) -> u32
    ensures { result ≡ fitting_tasks slots spare request }
{
    if request == 0 {
        slots
    } else {
        slots.min(spare / request)
    }
}
