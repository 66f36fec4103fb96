//! Where a unit goes on to, from a request, a full machine, or a task that prefers machines.
//!
//! A request leads to each full machine with room for it, and so to the requests with tasks there, and to the tasks
//! there that prefer machines. It reaches nothing new over a machine to which another request led at no more cost. So
//! only new words of its row of bits are looked at, and only requests that are not reached yet.

use crate::Tried;
use crate::assignment::Destination;
use crate::bit_set::{first_of, has_bit, without_first};
use crate::costs::{FAR, NONE, cost_at};
use crate::movable::Successor;
use crate::path_search::{End, Paths, Step};

// A step from the node over a machine, where that is not the next node itself.
fn step_over(from: usize, over: usize) -> Step {
    Step {
        from,
        over,
        task: NONE,
    }
}

// The bits of a word to which none led before, or all of them if they are led to for less. From now on all are near.
fn fresh_bits(near: &mut u64, room: u64, is_cheaper: bool) -> u64 {
    let bits = if is_cheaper { room } else { room & !*near };
    *near |= room;
    bits
}

// Adds those of the words of a row, each with its number. Answers how many bits are set there.
fn add_fresh(
    fresh: &mut Vec<(usize, u64)>,
    near: &mut [u64],
    row: &[u64],
    is_cheaper: bool,
) -> Tried<usize> {
    let mut count = 0usize;
    for (word, room) in row.iter().enumerate() {
        let Some(near) = near.get_mut(word) else {
            break;
        };
        let bits = fresh_bits(near, *room, is_cheaper);
        if bits != 0 {
            count = count.saturating_add(bits.count_ones() as usize);
            fresh.push((word, bits))?;
        }
    }
    Ok(count)
}

// Leaves a request out of the rest.
fn leave_out(rest: &mut Vec<usize>, at: usize) {
    let Some(last) = rest.pop() else {
        return;
    };
    if let Some(request) = rest.get_mut(at) {
        *request = last;
    }
}

impl Paths {
    /// Goes on from a request.
    pub(crate) fn leave_request(&mut self, request: usize, cost: i64) -> Tried<()> {
        self.board.look(request);
        let is_cheaper = cost < self.near_cost;
        if is_cheaper {
            self.renew_rest()?;
        }
        let count = self.find_fresh(request, is_cheaper)?;
        self.near_cost = self.near_cost.max(cost);
        self.leave_for(request, cost, count)
    }

    // Goes on from a request that leads to so many fresh machines.
    fn leave_for(&mut self, request: usize, cost: i64, count: usize) -> Tried<()> {
        if count > 0 {
            self.go_to_requests(request, cost, count)?;
            self.go_to_movable(request, cost)?;
        }
        self.leave_placed(request, cost)
    }

    // Goes on from the tasks of a request that prefer machines and went where it sends them.
    fn leave_placed(&mut self, request: usize, cost: i64) -> Tried<()> {
        let movable = &self.board.movable;
        if cost.saturating_add(movable.request_low(request)) >= self.best {
            return Ok(());
        }
        let list = movable.request_list(request);
        let low = self.leave_list(list, cost, request)?;
        self.board.movable.set_request_low(request, low);
        Ok(())
    }

    // Finds the full machines with room for the request: those to which no request led before, or all of them if it leads there for less.
    // Answers how many there are.
    fn find_fresh(&mut self, request: usize, is_cheaper: bool) -> Tried<usize> {
        self.fresh.clear();
        let row = self.board.full.room.row(request, self.near.len());
        add_fresh(&mut self.fresh, &mut self.near, row, is_cheaper)
    }

    // Goes on to the requests with tasks on the fresh machines, of which there are so many: by a look at each request of the rest, or at
    // each machine if these are fewer.
    fn go_to_requests(&mut self, request: usize, cost: i64, count: usize) -> Tried<()> {
        if count < self.rest.len() {
            return self.go_by_machines(request, cost);
        }
        let mut at = 0usize;
        for _ in 0..self.rest.len() {
            let Some(other) = self.rest.get(at).copied() else {
                break;
            };
            if other == request || self.go_to_request(request, other, cost)? {
                leave_out(&mut self.rest, at);
            } else {
                at = at.saturating_add(1);
            }
        }
        Ok(())
    }

    // Goes on to a request, if it has tasks on a fresh machine. Answers whether it needs no further look.
    fn go_to_request(&mut self, request: usize, other: usize, cost: i64) -> Tried<bool> {
        if self.is_too_dear(other, cost) {
            return Ok(true);
        }
        let Some(full) = self.board.full.units.meets(other, &self.fresh) else {
            return Ok(false);
        };
        let step = step_over(request, self.board.full.machine(full));
        self.reach_request(other, cost, step)?;
        Ok(true)
    }

    // Goes on over each fresh machine to the requests with tasks there.
    fn go_by_machines(&mut self, request: usize, cost: i64) -> Tried<()> {
        for place in 0..self.fresh.len() {
            let (word, mut bits) = self.fresh.get(place).copied().unwrap_or((0, 0));
            for _ in 0..bits.count_ones() {
                let machine = self.board.full.machine(first_of(word, bits));
                bits = without_first(bits);
                self.go_over(machine, cost, request, machine)?;
            }
        }
        Ok(())
    }

    // Goes on over a machine to the requests with tasks there, from a node.
    fn go_over(&mut self, machine: usize, cost: i64, from: usize, over: usize) -> Tried<()> {
        for place in 0..self.board.shares_of(machine).len() {
            let share = self.board.share(machine, place);
            if share.units > 0 && share.request != from {
                let step = step_over(from, over);
                self.reach_request(share.request, cost, step)?;
            }
        }
        Ok(())
    }

    // Goes on to the fresh machines from which tasks that prefer machines may move on.
    fn go_to_movable(&mut self, request: usize, cost: i64) -> Tried<()> {
        for place in 0..self.fresh.len() {
            let (word, bits) = self.fresh.get(place).copied().unwrap_or((0, 0));
            if cost.saturating_add(cost_at(&self.board.movable.blocks, word)) < self.best {
                self.go_to_word(request, cost, word, bits)?;
                self.board.movable.renew_block(word);
            }
        }
        Ok(())
    }

    // The same of the machines of a word.
    fn go_to_word(&mut self, request: usize, cost: i64, word: usize, bits: u64) -> Tried<()> {
        let mut bits = bits;
        for _ in 0..bits.count_ones() {
            let full = first_of(word, bits);
            bits = without_first(bits);
            if cost.saturating_add(self.board.movable.low(full)) < self.best {
                let machine = self.board.full.machine(full);
                self.reach_machine(machine, cost, step_over(request, NONE))?;
            }
        }
        Ok(())
    }

    /// Goes on from a full machine.
    pub(crate) fn leave_machine(&mut self, machine: usize, cost: i64) -> Tried<()> {
        let node = self.machine_node(machine);
        self.go_over(machine, cost, node, NONE)?;
        self.leave_straight(machine, cost, node)
    }

    // Goes on from the tasks at a full machine that prefer it.
    fn leave_straight(&mut self, machine: usize, cost: i64, node: usize) -> Tried<()> {
        let full = self.board.full_number(machine);
        if cost.saturating_add(self.board.movable.low(full)) >= self.best {
            return Ok(());
        }
        let low = self.leave_list(machine, cost, node)?;
        self.board.movable.set_low(full, low);
        Ok(())
    }

    // Goes on from the tasks of a list, which prefer machines. Answers the least key there.
    fn leave_list(&mut self, list: usize, cost: i64, from: usize) -> Tried<i64> {
        let mut low = FAR;
        for place in 0..self.board.movable.entries(list).len() {
            let mut key = match self.board.movable.entries(list).get(place) {
                Some(entry) => entry.key,
                None => FAR,
            };
            if cost.saturating_add(key) < self.best {
                key = self.leave_entry(list, place, cost, from)?;
            }
            low = low.min(key);
        }
        Ok(low)
    }

    // Goes on from a task of a list: to its two cheapest successors alone, if no other one is of use. Answers its key.
    fn leave_entry(&mut self, list: usize, place: usize, cost: i64, from: usize) -> Tried<i64> {
        let Some(entry) = self.board.movable.entries(list).get(place).copied() else {
            return Ok(FAR);
        };
        let mut entry = entry;
        if cost.saturating_add(entry.rest) < self.best {
            self.leave_task(entry.task, cost.saturating_add(entry.gain), from)?;
            entry = self.board.entry_of(entry.task, entry.gain);
        } else {
            entry.first = self.go_to_successor(entry.first, entry.task, cost, from)?;
            entry.second = self.go_to_successor(entry.second, entry.task, cost, from)?;
            entry.renew_key();
        }
        self.board.movable.set_entry(list, place, entry);
        Ok(entry.key)
    }

    // Sends the task on to the successor, if that is of use. Answers the successor with what it costs at least now.
    fn go_to_successor(
        &mut self,
        next: Successor,
        task: usize,
        cost: i64,
        from: usize,
    ) -> Tried<Successor> {
        if cost.saturating_add(next.least) >= self.best {
            return Ok(next);
        }
        let there = cost.saturating_add(next.cost);
        let step = Step {
            from,
            over: NONE,
            task,
        };
        match self.machine_at(next.node) {
            Some(machine) => self.go_to_machine(machine, there, step)?,
            None => self.reach_request(next.node, there, step)?,
        }
        Ok(self.board.successor(next.node, next.cost))
    }

    /// Goes on from a task that prefers machines, or begins with it.
    pub(crate) fn leave_task(&mut self, task: usize, cost: i64, from: usize) -> Tried<()> {
        let preferring = self.board.instance.task(task);
        if from != NONE {
            let end = cost.saturating_add(preferring.worth);
            self.take_end(end, from, End::Leave(task));
        }
        let step = Step {
            from,
            over: NONE,
            task,
        };
        if self.board.movable.destination(task) != Destination::ByRequest {
            self.reach_request(preferring.request, cost, step)?;
        }
        for number in preferring.first..preferring.end {
            self.go_straight(number, cost, step)?;
        }
        Ok(())
    }

    // Sends the task of the step to a machine of its choice, unless it is there.
    fn go_straight(&mut self, choice: usize, cost: i64, step: Step) -> Tried<()> {
        let Some(choice) = self.board.instance.choices.get(choice).copied() else {
            return Ok(());
        };
        if self.board.movable.destination(step.task) == Destination::Straight(choice.machine) {
            return Ok(());
        }
        self.go_to_machine(choice.machine, cost.saturating_sub(choice.gain), step)
    }

    // Sends the task of the step to a machine, unless a request leads there at no more cost.
    fn go_to_machine(&mut self, machine: usize, cost: i64, step: Step) -> Tried<()> {
        let least = cost.saturating_add(self.board.machine_label(machine));
        let is_led_to = cost >= self.near_cost
            && has_bit(&self.near, self.board.full_number(machine));
        if least >= self.best || is_led_to {
            return Ok(());
        }
        self.reach_machine(machine, cost, step)
    }
}
