//! Where tasks are listed, and their sums, so that a delta leads to its tasks without a walk over all of them.
//!
//! Tasks are listed by job, by their winner's machine and, while they wait, by each machine that they prefer. The sums
//! are the live tasks of a job, the tasks that wait for a request, and the requests that a machine holds. A task leaves
//! or enters all of these in O(log n).

ghost use Rattle.std.specs.Prelude.{◌≡◌, ℕ, Bool, ◌+◌, ◌-◌, ◌<◌, ◌^◌, ◌&&◌, true, false, is_some, [], cond, length, min, OnOk};
ghost use Rattle.fm_records.specs.Know.{table_of};
ghost use Rattle.std.specs.Ordering.{is_eq, nat_cmp};
ghost use Rattle.fm_lattice.specs.Maps.{lookup};
ghost use Rattle.fm_records.specs.Options.{passes};
ghost use Rattle.fm_records.specs.Rising.{Rises};
ghost use Rattle.fm_records.specs.Table.{Table};
ghost use Rattle.fm_records.specs.Ranges.{CanBe};
ghost use Rattle.fm_net.specs.declared.node.Node.{Node as NodeName};
ghost use Rattle.fm_net.specs.Nodes.{node_cmp};
ghost use Rattle.fm_edit.specs.CacheModel.{Sight, sight_of, seen_in, prefers_in};
ghost use Rattle.fm_edit.specs.inner.CachedNodes.{IsSeenTask};
ghost use Rattle.fm_edit.specs.Dirty.{has_id};
ghost use Rattle.fm_edit.specs.EditorState.{none_out, Counts};
ghost use Rattle.fm_edit.specs.TaskIndex.{is_indexed, listed_cmp, lists, lists_preferred, sum_in};
ghost use Rattle.fm_edit.specs.inner.TaskIndexParts.{amount_at};

use crate::record_cache::{CachedTask, RecordCache};
use fm_lattice::join::OutOfMemory;
use fm_net::node::Node;
use fm_records::ids::{MachineId, TaskId};
use fm_records::prefer::Prefer;
use std::alloc::Global;
use std::collections::{BTreeMap, BTreeSet};

/// The tasks by job, by their winner's machine, and, while they wait, by each machine that they prefer; and of each job
/// how many live tasks it has, of each request how many wait for it, and of each machine the sum of the requests of the
/// tasks that it holds, if these are not 0. It counts the tasks that were taken out.
#[derive(Drop)]
pub(crate) struct TaskIndex {
    pub(crate) listed: BTreeSet<(Node, TaskId)>,
    pub(crate) preferred: BTreeSet<(MachineId, TaskId)>,
    pub(crate) sums: BTreeMap<Node, u128>,
    pub(crate) taken: u64,
}

impl TaskIndex {
    /// Of no tasks.
    pub(crate) fn new(alloc: Global) -> TaskIndex
        ensures { (out : ℕ → Bool) → Counts out (table_of []) result }
    {
        TaskIndex {
            listed: BTreeSet::new(alloc),
            preferred: BTreeSet::new(alloc),
            sums: BTreeMap::new(alloc),
            taken: 0,
        }
    }

    /// The sum at the node. O(log n).
    pub(crate) fn sum(&self, node: &Node) -> u128
        ensures { result ≡ sum_in self.now node.now }
    {
        self.sums.get(node).copied().unwrap_or(0)
    }

    // Sets the sum at the node.
    fn set_sum(&mut self, node: Node, sum: u128) -> Result<(), OutOfMemory>
        ensures sums { OnOk result ((n : NodeName)
            → sum_in self.new n ≡ cond (is_eq (node_cmp node n)) sum (sum_in self.old n)) }
        ensures lists { self.new.listed ≡ self.old.listed }
        ensures preferred { self.new.preferred ≡ self.old.preferred }
        ensures taken { self.new.taken ≡ self.old.taken }
    {
        if sum == 0 {
            self.sums.remove(&node);
        } else {
            self.sums.insert(node, sum)?;
        }
        Ok(())
    }

    // Adds to the sum at the node. It fits: tasks in memory are fewer than 2^64, and each adds less than 2^32.
    fn raise(&mut self, node: Node, by: u128) -> Result<(), OutOfMemory>
        ensures sums { OnOk result ((n : NodeName) → sum_in self.old n + cond (is_eq (node_cmp node n)) by 0 < 2 ^ 128
            → sum_in self.new n ≡ sum_in self.old n + cond (is_eq (node_cmp node n)) by 0) }
        ensures lists { self.new.listed ≡ self.old.listed }
        ensures preferred { self.new.preferred ≡ self.old.preferred }
        ensures taken { self.new.taken ≡ self.old.taken }
    {
        let sum = self.sum(&node).saturating_add(by);
        self.set_sum(node, sum)
    }

    // Takes from the sum at the node.
    fn lower(&mut self, node: Node, by: u128) -> Result<(), OutOfMemory>
        ensures sums { OnOk result ((n : NodeName)
            → sum_in self.new n ≡ sum_in self.old n - cond (is_eq (node_cmp node n)) by 0) }
        ensures lists { self.new.listed ≡ self.old.listed }
        ensures preferred { self.new.preferred ≡ self.old.preferred }
        ensures taken { self.new.taken ≡ self.old.taken }
    {
        let sum = self.sum(&node).saturating_sub(by);
        self.set_sum(node, sum)
    }

    // Puts the task into the list at the node, if there is one.
    fn list_at(&mut self, node: Option<Node>, task: TaskId) -> Result<(), OutOfMemory>
        ensures lists { OnOk result ((n : NodeName) (t : ℕ)
            → lists self.new n t
            ≡ cond (passes (λ x. is_eq (listed_cmp (x, task) (n, t))) node) true (lists self.old n t)) }
        ensures sums { self.new.sums ≡ self.old.sums }
        ensures preferred { self.new.preferred ≡ self.old.preferred }
        ensures taken { self.new.taken ≡ self.old.taken }
    {
        if let Some(node) = node {
            self.listed.insert((node, task))?;
        }
        Ok(())
    }

    // Takes the task from the list at the node, if there is one.
    fn unlist_at(&mut self, node: Option<Node>, task: TaskId)
        ensures lists { (n : NodeName) (t : ℕ) → lists self.new n t
            ≡ cond (passes (λ x. is_eq (listed_cmp (x, task) (n, t))) node) false (lists self.old n t) }
        ensures sums { self.new.sums ≡ self.old.sums }
        ensures preferred { self.new.preferred ≡ self.old.preferred }
        ensures taken { self.new.taken ≡ self.old.taken }
    {
        if let Some(node) = node {
            self.listed.remove(&(node, task));
        }
    }

    // Lists the task at its job and at its winner's machine, as it was seen.
    fn list(&mut self, found: &CachedTask, task: TaskId) -> Result<(), OutOfMemory>
        ensures lists { OnOk result ((s : Sight) → IsSeenTask s task found.now → (n : NodeName) (t : ℕ)
            → lists self.new n t ≡ cond (is_eq (nat_cmp task t) && is_indexed s n t) true (lists self.old n t)) }
        ensures preferred { self.new.preferred ≡ self.old.preferred }
        ensures sums { self.new.sums ≡ self.old.sums }
        ensures taken { self.new.taken ≡ self.old.taken }
    {
        self.list_at(found.job, task)?;
        self.list_at(found.spot, task)?;
        Ok(())
    }

    // Removes the task from the lists of its job and its winner's machine, as it was seen.
    fn unlist(&mut self, found: &CachedTask, task: TaskId)
        ensures lists { (s : Sight) → IsSeenTask s task found.now → (n : NodeName) (t : ℕ)
            → lists self.new n t ≡ cond (is_eq (nat_cmp task t) && is_indexed s n t) false (lists self.old n t) }
        ensures preferred { self.new.preferred ≡ self.old.preferred }
        ensures sums { self.new.sums ≡ self.old.sums }
        ensures taken { self.new.taken ≡ self.old.taken }
    {
        self.unlist_at(found.job, task);
        self.unlist_at(found.spot, task);
    }

    // Puts the task into the lists of the machines.
    fn list_preferred(&mut self, prefer: &Prefer, task: TaskId) -> Result<(), OutOfMemory>
        ensures preferred { OnOk result ((m t : ℕ)
            → lists_preferred self.new m t ≡ cond (is_eq (nat_cmp task t)
            && is_some (lookup nat_cmp m prefer.now)) true (lists_preferred self.old m t)) }
        ensures lists { self.new.listed ≡ self.old.listed }
        ensures sums { self.new.sums ≡ self.old.sums }
        ensures taken { self.new.taken ≡ self.old.taken }
    {
        for entry in prefer.entries() {
            self.preferred.insert((entry.0, task))?;
        }
        Ok(())
    }

    // Takes the task from the lists of the machines.
    fn unlist_preferred(&mut self, prefer: &Prefer, task: TaskId)
        ensures preferred { (m t : ℕ) → lists_preferred self.new m t
            ≡ cond (is_eq (nat_cmp task t)
            && is_some (lookup nat_cmp m prefer.now)) false (lists_preferred self.old m t) }
        ensures lists { self.new.listed ≡ self.old.listed }
        ensures sums { self.new.sums ≡ self.old.sums }
        ensures taken { self.new.taken ≡ self.old.taken }
    {
        for entry in prefer.entries() {
            self.preferred.remove(&(entry.0, task));
        }
    }

    // Counts the task at its job, and at its request or the machine that holds it, if it is live.
    fn count(&mut self, found: &CachedTask) -> Result<(), OutOfMemory>
        ensures sums { OnOk result ((s : Sight) (t : ℕ) → IsSeenTask s t found.now → (n : NodeName)
            → sum_in self.old n + amount_at s n t < 2 ^ 128 → sum_in self.new n ≡ sum_in self.old n + amount_at s n t) }
        ensures lists { self.new.listed ≡ self.old.listed }
        ensures preferred { self.new.preferred ≡ self.old.preferred }
        ensures taken { self.new.taken ≡ self.old.taken }
    {
        let Some(spec) = found.live else {
            return Ok(());
        };
        self.raise(Node::Unscheduled(spec.job), 1)?;
        match found.holder {
            Some(machine) => self.raise(Node::Machine(machine), u128::from(spec.request)),
            None => self.raise(Node::Request(spec.request), 1),
        }
    }

    // No longer counts the task.
    fn uncount(&mut self, found: &CachedTask) -> Result<(), OutOfMemory>
        ensures sums { OnOk result ((s : Sight) (t : ℕ) → IsSeenTask s t found.now → (n : NodeName)
            → sum_in self.new n ≡ sum_in self.old n - amount_at s n t) }
        ensures lists { self.new.listed ≡ self.old.listed }
        ensures preferred { self.new.preferred ≡ self.old.preferred }
        ensures taken { self.new.taken ≡ self.old.taken }
    {
        let Some(spec) = found.live else {
            return Ok(());
        };
        self.lower(Node::Unscheduled(spec.job), 1)?;
        match found.holder {
            Some(machine) => self.lower(Node::Machine(machine), u128::from(spec.request)),
            None => self.lower(Node::Request(spec.request), 1),
        }
    }

    /// Lists and counts the task, as it was seen. O(log n).
    fn put_back(&mut self, seen: &RecordCache, task: TaskId) -> Result<(), OutOfMemory>
        ensures lists { OnOk result ((n : NodeName) (t : ℕ)
            → lists self.new n t ≡ cond (is_eq (nat_cmp task t)
            && is_indexed (seen_in seen.now) n t) true (lists self.old n t)) }
        ensures preferred { OnOk result ((m t : ℕ)
            → lists_preferred self.new m t ≡ cond (is_eq (nat_cmp task t)
            && prefers_in (seen_in seen.now) m t) true (lists_preferred self.old m t)) }
        ensures sums { OnOk result ((n : NodeName) → sum_in self.old n + amount_at (seen_in seen.now) n task < 2 ^ 128
            → sum_in self.new n ≡ sum_in self.old n + amount_at (seen_in seen.now) n task) }
        ensures taken { OnOk result (self.new.taken ≡ self.old.taken) }
    {
        let found = seen.task(task);
        self.list(&found, task)?;
        self.list_preferred(&found.preferred(), task)?;
        self.count(&found)
    }

    /// No longer lists and counts the task, as it was seen: it is taken out. O(log n).
    fn take_out(&mut self, seen: &RecordCache, task: TaskId) -> Result<(), OutOfMemory>
        ensures lists { OnOk result ((n : NodeName) (t : ℕ)
            → lists self.new n t ≡ cond (is_eq (nat_cmp task t)
            && is_indexed (seen_in seen.now) n t) false (lists self.old n t)) }
        ensures preferred { OnOk result ((m t : ℕ)
            → lists_preferred self.new m t ≡ cond (is_eq (nat_cmp task t)
            && prefers_in (seen_in seen.now) m t) false (lists_preferred self.old m t)) }
        ensures sums { OnOk result ((n : NodeName)
            → sum_in self.new n ≡ sum_in self.old n - amount_at (seen_in seen.now) n task) }
        ensures taken { OnOk result (self.new.taken ≡ min (self.old.taken + 1) (2 ^ 64 - 1)) }
    {
        let found = seen.task(task);
        self.unlist(&found, task);
        self.unlist_preferred(&found.preferred(), task);
        self.taken = self.taken.saturating_add(1);
        self.uncount(&found)
    }

    /// Takes out the tasks, given by rising ids, and counts them. O(m log n).
    pub(crate) fn take_out_all(
        &mut self,
        seen: &RecordCache,
        tasks: &[TaskId],
    ) -> Result<(), OutOfMemory>
        requires { Rises nat_cmp tasks.now }
        ensures counts { OnOk result ((k : Table) → CanBe k → seen_in seen.now ≡ sight_of k → Counts none_out k self.old
            → Counts (has_id tasks.now) k self.new) }
        ensures taken { OnOk result (self.new.taken ≡ min (self.old.taken + length tasks.now) (2 ^ 64 - 1)) }
    {
        for task in tasks {
            self.take_out(seen, *task)?;
        }
        Ok(())
    }

    /// Puts back the tasks, given by rising ids, which are all that are out. O(m log n).
    pub(crate) fn put_back_all(
        &mut self,
        seen: &RecordCache,
        tasks: &[TaskId],
    ) -> Result<(), OutOfMemory>
        requires { Rises nat_cmp tasks.now }
        ensures counts { OnOk result ((k : Table) → CanBe k → length k.tasks < 2 ^ 63 → seen_in seen.now ≡ sight_of k
            → Counts (has_id tasks.now) k self.old → Counts none_out k self.new) }
        ensures taken { OnOk result (self.new.taken ≡ self.old.taken) }
    {
        for task in tasks {
            self.put_back(seen, *task)?;
        }
        Ok(())
    }
}
