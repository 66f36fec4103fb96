//! The nodes and pairs of nodes that a delta touches: nothing else differs between the networks before and after it.
//!
//! Dirty tasks are touched with where their arcs lead, once as they were seen before the delta and once as they are
//! after it. What is touched and does not differ gives no edit, so touching more than what differs costs time alone.

ghost use Rattle.std.specs.Prelude.{◌≡◌, ◌⊎◌, ℕ, true, false, is_some, Some, OnOk};
ghost use Rattle.std.specs.Ordering.{nat_cmp};
ghost use Rattle.fm_lattice.specs.Maps.{lookup};
ghost use Rattle.fm_records.specs.Rising.{Rises};
ghost use Rattle.fm_net.specs.Nodes.{node_cmp, ends_cmp};
ghost use Rattle.fm_net.specs.declared.node.Node.{Node as NodeName};
ghost use Rattle.fm_edit.specs.Dirty.{has_id};
ghost use Rattle.fm_edit.specs.CacheModel.{seen_in};
ghost use Rattle.fm_edit.specs.inner.Affected.{has_touched, has_pair, AffectedGrows, AffectsEnd, TouchesTask, IsNodeOf, IsTaskEnd, IsEndOf};

use crate::record_cache::RecordCache;
use fm_lattice::join::OutOfMemory;
use fm_net::node::Node;
use fm_records::ids::{JobId, MachineId, TaskId};
use fm_records::prefer::Prefer;
use std::alloc::Global;
use std::collections::BTreeSet;

/// Nodes that may come or go, and pairs of nodes of which the arc may come, go or differ; each in order.
#[derive(Drop)]
pub(crate) struct Touched {
    pub(crate) nodes: BTreeSet<Node>,
    pub(crate) pairs: BTreeSet<(Node, Node)>,
}

impl Touched {
    /// Nothing is touched.
    pub(crate) fn new(alloc: Global) -> Touched
        ensures nodes { (n : NodeName) → has_touched result n ≡ false }
        ensures pairs { (a b : NodeName) → has_pair result a b ≡ false }
    {
        Touched {
            nodes: BTreeSet::new(alloc),
            pairs: BTreeSet::new(alloc),
        }
    }

    /// What is known of what was touched: nodes and pairs rise.
    pub(crate) fn known(&self)
        ensures nodes { Rises node_cmp self.now.nodes.keys }
        ensures pairs { Rises ends_cmp self.now.pairs.keys }
    {
        let _nodes = self.nodes.len();
        let _pairs = self.pairs.len();
    }

    /// Touches a node. O(log n).
    pub(crate) fn node(&mut self, node: &Node) -> Result<(), OutOfMemory>
        ensures grows { OnOk result (AffectedGrows self.old self.new) }
        ensures has { OnOk result (has_touched self.new node.now ≡ true) }
        ensures only { OnOk result ((n : NodeName) → has_touched self.new n ≡ true → (has_touched self.old n ≡ true)
            ⊎ (node.now ≡ n)) }
        ensures pairs { self.new.pairs ≡ self.old.pairs }
    {
        self.nodes.insert(*node)?;
        Ok(())
    }

    /// Touches a pair. O(log n).
    pub(crate) fn pair(&mut self, from: &Node, to: &Node) -> Result<(), OutOfMemory>
        ensures grows { OnOk result (AffectedGrows self.old self.new) }
        ensures has { OnOk result (has_pair self.new from.now to.now ≡ true) }
        ensures only { OnOk result ((a b : NodeName) → has_pair self.new a b ≡ true → (has_pair self.old a b ≡ true)
            ⊎ ((from.now ≡ a) × (to.now ≡ b))) }
        ensures nodes { self.new.nodes ≡ self.old.nodes }
    {
        self.pairs.insert((*from, *to))?;
        Ok(())
    }

    // Touches the node, if there is one, and the pair of the task and it.
    fn lead(&mut self, task: TaskId, end: Option<Node>) -> Result<(), OutOfMemory>
        ensures grows { OnOk result (AffectedGrows self.old self.new) }
        ensures leads { OnOk result (AffectsEnd self.new task end) }
        ensures only { OnOk result ((n : NodeName) → has_touched self.new n ≡ true → (has_touched self.old n ≡ true)
            ⊎ (end ≡ Some n)) }
        ensures starts { OnOk result ((a b : NodeName) → has_pair self.new a b ≡ true → (has_pair self.old a b ≡ true)
            ⊎ (NodeName.Task task ≡ a)) }
    {
        if let Some(end) = end {
            self.node(&end)?;
            self.pair(&Node::Task(task), &end)?;
        }
        Ok(())
    }

    // Touches the task, and where its arcs can lead as it was seen.
    fn task(&mut self, seen: &RecordCache, task: TaskId) -> Result<(), OutOfMemory>
        ensures grows { OnOk result (AffectedGrows self.old self.new) }
        ensures touches { OnOk result (TouchesTask (seen_in seen.now) task self.new) }
        ensures only { OnOk result ((n : NodeName) → has_touched self.new n ≡ true → (has_touched self.old n ≡ true)
            ⊎ IsTaskEnd (seen_in seen.now) task n) }
        ensures starts { OnOk result ((a b : NodeName) → has_pair self.new a b ≡ true → (has_pair self.old a b ≡ true)
            ⊎ (NodeName.Task task ≡ a)) }
    {
        let found = seen.task(task);
        self.node(&Node::Task(task))?;
        self.lead(task, found.job)?;
        self.lead(task, found.request)?;
        self.lead(task, found.holder_node())?;
        self.preferred(task, &found.preferred())
    }

    // Touches the pairs of the task and the machines.
    fn preferred(&mut self, task: TaskId, prefer: &Prefer) -> Result<(), OutOfMemory>
        ensures grows { OnOk result (AffectedGrows self.old self.new) }
        ensures has { OnOk result ((m : ℕ) → is_some (lookup nat_cmp m prefer.now) ≡ true
            → has_pair self.new (NodeName.Task task) (NodeName.Machine m) ≡ true) }
        ensures nodes { self.new.nodes ≡ self.old.nodes }
        ensures starts { OnOk result ((a b : NodeName) → has_pair self.new a b ≡ true → (has_pair self.old a b ≡ true)
            ⊎ (NodeName.Task task ≡ a)) }
    {
        for entry in prefer.entries() {
            self.pair(&Node::Task(task), &Node::Machine(entry.0))?;
        }
        Ok(())
    }

    /// Touches the tasks, and where their arcs can lead as they were seen. O(m log m + m log n).
    pub(crate) fn tasks(&mut self, seen: &RecordCache, tasks: &[TaskId]) -> Result<(), OutOfMemory>
        ensures grows { OnOk result (AffectedGrows self.old self.new) }
        ensures touches { OnOk result ((t : ℕ) → has_id tasks.now t ≡ true
            → TouchesTask (seen_in seen.now) t self.new) }
        ensures only { OnOk result ((n : NodeName) → has_touched self.new n ≡ true → (has_touched self.old n ≡ true)
            ⊎ IsEndOf (seen_in seen.now) tasks.now n) }
        ensures starts { OnOk result ((a b : NodeName) → has_pair self.new a b ≡ true → (has_pair self.old a b ≡ true)
            ⊎ IsNodeOf NodeName.Task tasks.now a) }
    {
        for task in tasks {
            self.task(seen, *task)?;
        }
        Ok(())
    }

    /// Touches the jobs.
    pub(crate) fn jobs(&mut self, jobs: &[JobId]) -> Result<(), OutOfMemory>
        ensures grows { OnOk result (AffectedGrows self.old self.new) }
        ensures touches { OnOk result ((j : ℕ) → has_id jobs.now j ≡ true
            → has_touched self.new (NodeName.Unscheduled j) ≡ true) }
        ensures only { OnOk result ((n : NodeName) → has_touched self.new n ≡ true → (has_touched self.old n ≡ true)
            ⊎ IsNodeOf NodeName.Unscheduled jobs.now n) }
        ensures pairs { self.new.pairs ≡ self.old.pairs }
    {
        for job in jobs {
            self.node(&Node::Unscheduled(*job))?;
        }
        Ok(())
    }

    /// Touches the machines.
    pub(crate) fn machines(&mut self, machines: &[MachineId]) -> Result<(), OutOfMemory>
        ensures grows { OnOk result (AffectedGrows self.old self.new) }
        ensures touches { OnOk result ((m : ℕ) → has_id machines.now m ≡ true
            → has_touched self.new (NodeName.Machine m) ≡ true) }
        ensures only { OnOk result ((n : NodeName) → has_touched self.new n ≡ true → (has_touched self.old n ≡ true)
            ⊎ IsNodeOf NodeName.Machine machines.now n) }
        ensures pairs { self.new.pairs ≡ self.old.pairs }
    {
        for machine in machines {
            self.node(&Node::Machine(*machine))?;
        }
        Ok(())
    }
}
