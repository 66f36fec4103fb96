//! Labels: lower bounds of what a unit costs from a request or a machine to a slot.
//!
//! Prices only rise while tasks are placed. So a label that was worked out once holds from then on, and searches become
//! narrower: what Hungarian labels are for the assignment problem.

use crate::Tried;
use crate::assignment::Destination;
use crate::board::Board;
use crate::costs::{NONE, cost_at, lower};
use crate::movable::{Entry, Successor};

impl Board {
    /// What a unit of the request costs at least.
    pub(crate) fn request_label(&self, request: usize) -> i64 {
        cost_at(&self.request_labels, request)
    }

    /// What a unit at the machine costs at least.
    pub(crate) fn machine_label(&self, machine: usize) -> i64 {
        cost_at(&self.machine_labels, machine)
    }

    /// The node to which a step of such a cost leads. Requests are the first nodes, and machines come behind them.
    pub(crate) fn successor(&self, node: usize, cost: i64) -> Successor {
        let label = match node.checked_sub(self.instance.requests.len()) {
            Some(machine) => self.machine_label(machine),
            None => self.request_label(node),
        };
        Successor {
            node,
            cost,
            least: cost.saturating_add(label),
        }
    }

    /// What the machine's next unit costs at least: its next slot, or sending on what was placed there.
    pub(crate) fn floor(&self, machine: usize) -> i64 {
        let slots = self.slots_of(machine);
        if slots.full == NONE {
            return slots.price;
        }
        let mut least = slots.price.min(cost_at(&self.movable.lows, slots.full));
        for share in self.shares_of(machine) {
            if share.units > 0 {
                least = least.min(self.request_label(share.request));
            }
        }
        least
    }

    /// What it costs at least to send the task, which prefers machines, elsewhere than where it is.
    pub(crate) fn elsewhere(&self, task: usize) -> i64 {
        let preferring = self.instance.task(task);
        let destination = self.movable.destination(task);
        let mut least = preferring.worth;
        if destination != Destination::ByRequest {
            least = least.min(self.request_label(preferring.request));
        }
        for choice in self.instance.choices_of(&preferring) {
            if destination != Destination::Straight(choice.machine) {
                least = least.min(
                    self.machine_label(choice.machine)
                        .saturating_sub(choice.gain),
                );
            }
        }
        least
    }

    /// The entry of a task that prefers machines, and saves so much where it is.
    pub(crate) fn entry_of(&self, task: usize, gain: i64) -> Entry {
        let preferring = self.instance.task(task);
        let destination = self.movable.destination(task);
        let mut entry = Entry::new(task, gain, gain.saturating_add(preferring.worth));
        if destination != Destination::ByRequest {
            entry.add(self.successor(preferring.request, gain));
        }
        let requests = self.instance.requests.len();
        for choice in self.instance.choices_of(&preferring) {
            if destination != Destination::Straight(choice.machine) {
                let node = requests.saturating_add(choice.machine);
                entry.add(self.successor(node, gain.saturating_sub(choice.gain)));
            }
        }
        entry.renew_key();
        entry
    }

    /// Moves a task that prefers machines to the destination.
    pub(crate) fn move_task(&mut self, task: usize, destination: Destination) -> Tried<()> {
        let request = self.instance.task(task).request;
        self.movable.take_out(task, request);
        self.movable.set_destination(task, destination);
        let gain = match destination {
            Destination::Straight(machine) => self.instance.gain(task, machine),
            _ => 0,
        };
        let entry = self.entry_of(task, gain);
        let key = entry.key;
        self.movable.put_in(request, entry)?;
        match destination {
            Destination::Nowhere => (),
            Destination::ByRequest => lower(&mut self.movable.by_request, request, key),
            Destination::Straight(machine) => self.come_to(machine, key)?,
        }
        Ok(())
    }

    // A task with the key came to the machine.
    fn come_to(&mut self, machine: usize, key: i64) -> Tried<()> {
        let full = self.full_number(machine);
        if full == NONE {
            return self.fill(machine);
        }
        lower(&mut self.movable.lows, full, key);
        lower(&mut self.movable.blocks, full / 64, key);
        Ok(())
    }
}
