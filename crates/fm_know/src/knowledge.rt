//! The replicated state and its joins: coordinators that received the same operations know the same.
//!
//! Packets come late, twice or in another order, so a state that depended on the order would differ from one
//! coordinator to the next. Here each record only merges, and what a set of operations amounts to depends on the set
//! alone (a state-based CRDT: Shapiro, Preguica, Baquero and Zawirski, 2011). All four maps are joined, or none.

ghost use Rattle.std.specs.Prelude.{◌≡◌, ◌↔◌, [], ◌++◌, List, IsTrue, IfOk, OnOk, OnErr};
ghost use Rattle.fm_records.specs.declared.ops.Op.{Op};
ghost use Rattle.fm_records.specs.Know.{table_of};
ghost use Rattle.fm_records.specs.Joined.{table_join};

use fm_lattice::constructors::{Max, Min};
use fm_lattice::join::{Join, OutOfMemory};
use fm_lattice::map::{JoinMap, join_four};
use fm_records::ids::{CoordId, JobId, MachineId, TaskId};
use fm_records::records::{JobReg, MachineRec, Spot, TaskRec};
use std::alloc::Global;
use std::marker::Model;

/// What a set of operations amounts to: the records of jobs, tasks, machines and proposals. It changes by joins
/// alone, so it depends on which operations were merged, and not on their order, their grouping, or how often each
/// arrived.
#[derive(Drop)]
pub struct Knowledge {
    pub(crate) jobs: JoinMap<JobId, Max<JobReg>>,
    pub(crate) tasks: JoinMap<TaskId, TaskRec>,
    pub(crate) machines: JoinMap<MachineId, MachineRec>,
    pub(crate) proposals: JoinMap<(TaskId, u32), JoinMap<CoordId, Min<Spot>>>,
}

impl Model for Knowledge {
    ghost use Rattle.fm_records.specs.Table.{Table};
    ghost use Rattle.fm_records.specs.Ranges.{CanBe};

    ghost Value = { Table };

    ghost view = { λ k. record { jobs = k.jobs; tasks = k.tasks; machines = k.machines; proposals = k.proposals } };

    ghost invariant = { λ k. CanBe (record {
      jobs = k.jobs;
      tasks = k.tasks;
      machines = k.machines;
      proposals = k.proposals;
    }) };
}

impl Knowledge {
    /// The knowledge of no operations. It allocates nothing.
    pub fn empty(alloc: Global) -> Knowledge
        ensures { result ≡ table_of [] }
    {
        Knowledge {
            jobs: JoinMap::new(alloc),
            tasks: JoinMap::new(alloc),
            machines: JoinMap::new(alloc),
            proposals: JoinMap::new(alloc),
        }
    }

    /// The registers of jobs, by id.
    pub fn jobs(&self) -> &JoinMap<JobId, Max<JobReg>>
        ensures { result.now ≡ self.now.jobs }
    {
        &self.jobs
    }

    /// The specs and progress of tasks, by id.
    pub fn tasks(&self) -> &JoinMap<TaskId, TaskRec>
        ensures { result.now ≡ self.now.tasks }
    {
        &self.tasks
    }

    /// The states and reports of machines at their greatest incarnations, by id.
    pub fn machines(&self) -> &JoinMap<MachineId, MachineRec>
        ensures { result.now ≡ self.now.machines }
    {
        &self.machines
    }

    /// The proposals for each attempt of a task, by coordinator.
    pub fn proposals(&self) -> &JoinMap<(TaskId, u32), JoinMap<CoordId, Min<Spot>>>
        ensures { result.now ≡ self.now.proposals }
    {
        &self.proposals
    }

    /// Joins the other in, all or nothing, each of its maps at the cost of `JoinMap::join_into`: so a knowledge of
    /// few entries costs O(m log n), and moves within blocks of bounded length. If memory runs out, nothing has
    /// changed.
    pub fn join_into(&mut self, other: &Knowledge) -> Result<(), OutOfMemory>
        ensures ok { OnOk result (self.new ≡ table_join self.old other.now) }
        ensures union { (S T : List Op) → self.old ≡ table_of S → other.now ≡ table_of T
            → OnOk result (self.new ≡ table_of (S ++ T)) }
        ensures err { OnErr result (self.new ≡ self.old) }
    {
        self.take_in(other)
    }

    // Joins the other in, map by map.
    fn take_in(&mut self, other: &Knowledge) -> Result<(), OutOfMemory>
        ensures ok { OnOk result (self.new ≡ table_join self.old other.now) }
        ensures err { OnErr result (self.new ≡ self.old) }
    {
        join_four(
            &mut self.jobs,
            &other.jobs,
            &mut self.tasks,
            &other.tasks,
            &mut self.machines,
            &other.machines,
            &mut self.proposals,
            &other.proposals,
        )
    }

    /// The same knowledge. What is already shared costs a pointer for each block of records, and the rest is copied:
    /// O(n) if nothing was shared.
    pub fn copy(&self) -> Result<Knowledge, OutOfMemory>
        ensures { IfOk result (λ k. k ≡ self.now) }
    {
        Ok(Knowledge {
            jobs: self.jobs.copy()?,
            tasks: self.tasks.copy()?,
            machines: self.machines.copy()?,
            proposals: self.proposals.copy()?,
        })
    }

    /// The same knowledge, which shares its records with this one: none is copied until one of both is written, and
    /// then those of the blocks that are written. O(n / 32), and memory for each block written in since it was last
    /// shared. If memory runs out, nothing is known more or less than before.
    pub fn share(&mut self) -> Result<Knowledge, OutOfMemory>
        ensures ok { IfOk result (λ k. k ≡ self.old) }
        ensures same { self.new ≡ self.old }
    {
        Ok(Knowledge {
            jobs: self.jobs.share()?,
            tasks: self.tasks.share()?,
            machines: self.machines.share()?,
            proposals: self.proposals.share()?,
        })
    }
}

impl Join for Knowledge {
    ghost use Rattle.fm_records.specs.Ranges.{CanBe};
    ghost use Rattle.fm_records.specs.Joined.{table_join};
    ghost use Rattle.fm_records.proofs.JoinedLaws.{table_laws};

    ghost is_value = { CanBe };

    ghost join = { table_join };

    fn known(&self) {
        let _ = &self.jobs;
    }

    /// The join of both. O(n + m).
    fn joined(&self, other: &Knowledge) -> Result<Knowledge, OutOfMemory> {
        Ok(Knowledge {
            jobs: self.jobs.joined(&other.jobs)?,
            tasks: self.tasks.joined(&other.tasks)?,
            machines: self.machines.joined(&other.machines)?,
            proposals: self.proposals.joined(&other.proposals)?,
        })
    }

    /// Whether the other knows all of this. One walk along both, O(n + m).
    fn leq(&self, other: &Knowledge) -> bool {
        self.jobs.leq(&other.jobs)
            && self.tasks.leq(&other.tasks)
            && self.machines.leq(&other.machines)
            && self.proposals.leq(&other.proposals)
    }

    ghost laws = { table_laws };
}

impl PartialEq for Knowledge {
    ghost use Rattle.fm_know.specs.KnowledgeEquality.{same_table};
    ghost use Rattle.fm_know.specs.laws.KnowledgeEqualityLaws.{table_equivalence};

    ghost eq = { same_table };

    ghost laws = { table_equivalence };

    /// Whether both know the same. One walk along both, which ends at the first difference: O(n).
    fn eq(&self, other: &Self) -> bool
        ensures value { result ≡ same_table self.now other.now }
        ensures exact { IsTrue result ↔ (self.now ≡ other.now) }
    {
        self.jobs.equals(&other.jobs)
            && self.tasks.equals(&other.tasks)
            && self.machines.equals(&other.machines)
            && self.proposals.equals(&other.proposals)
    }
}
