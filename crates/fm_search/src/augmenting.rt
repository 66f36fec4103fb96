//! Units are sent over a path that was found (augmenting: Ford and Fulkerson, 1956), as many as fit.
//!
//! The slot at the end is taken last. Until then no label may be worked out, since the rows of the machines on the path
//! are half written.

use crate::Tried;
use crate::assignment::Destination;
use crate::costs::NONE;
use crate::path_search::{End, Paths, Step};

impl Paths {
    /// Sends as many units as fit over the path, of so many. Answers how many.
    pub(crate) fn send(&mut self, most: i64) -> Tried<i64> {
        let count = self.fitting(most);
        let slot = self.send_end(count)?;
        let mut node = self.last;
        for _ in 0..self.nodes.len() {
            if node == NONE {
                break;
            }
            let step = self.step_to(node);
            self.send_step(step, node, count)?;
            node = step.from;
        }
        if slot != NONE {
            self.board.take(slot, count)?;
        }
        Ok(count)
    }

    // How many units of so many fit over the path.
    fn fitting(&self, most: i64) -> i64 {
        let End::Slot(machine) = self.end else {
            return most.min(1);
        };
        let free = self.board.slots_of(machine).free.max(1);
        let mut count = most.min(free).min(self.board.room(self.last, machine));
        let mut node = self.last;
        for _ in 0..self.nodes.len() {
            let step = self.step_to(node);
            if count <= 1 || step.from == NONE {
                break;
            }
            if step.over == NONE {
                return count.min(1);
            }
            count = count
                .min(self.board.room(step.from, step.over))
                .min(self.board.units(node, step.over));
            node = step.from;
        }
        count
    }

    // Takes the end of the path. Answers the machine with the slot that is yet to be taken.
    fn send_end(&mut self, count: i64) -> Tried<usize> {
        match self.end {
            End::Slot(machine) => {
                self.board.add_units(self.last, machine, count)?;
                return Ok(machine);
            }
            End::Here => return Ok(self.machine_at(self.last).unwrap_or(NONE)),
            End::Unplace => self.board.unplace(self.last),
            End::Leave(task) => self.board.move_task(task, Destination::Nowhere)?,
            End::Stay => (),
        }
        Ok(NONE)
    }

    // Sends units over the step to the node.
    fn send_step(&mut self, step: Step, node: usize, count: i64) -> Tried<()> {
        let machine = self.machine_at(node);
        if step.task != NONE {
            let destination = match machine {
                Some(machine) => Destination::Straight(machine),
                None => Destination::ByRequest,
            };
            return self.board.move_task(step.task, destination);
        }
        if step.from == NONE {
            return Ok(());
        }
        match (self.machine_at(step.from), machine) {
            (Some(machine), _) => self.board.add_units(node, machine, -1),
            (None, Some(machine)) => self.board.add_units(step.from, machine, 1),
            (None, None) => {
                self.board.add_units(step.from, step.over, count)?;
                self.board
                    .add_units(node, step.over, count.saturating_neg())
            }
        }
    }
}
