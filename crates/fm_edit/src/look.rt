//! Looking up records, and storing their keys, so that contracts can say what an edit looks up, and what it does not.

ghost use Rattle.std.specs.Prelude.{◌≡◌, List, [], ◌∷◌, ◌++◌, option_map, IfOk, OnOk, OnErr};
ghost use Rattle.std.specs.Ordering.{nat_cmp};
ghost use Rattle.fm_lattice.specs.Maps.{lookup};
ghost use Rattle.fm_records.specs.Table.{Table};
ghost use Rattle.fm_records.specs.Facts.{job_of, winner_of};
ghost use Rattle.fm_know.specs.Winners.{as_winner};
ghost use Rattle.fm_edit.specs.declared.look.Key.{Key as KeyName};

use fm_know::facts::Winner;
use fm_know::knowledge::Knowledge;
use fm_lattice::join::OutOfMemory;
use fm_records::ids::{JobId, MachineId, TaskId};
use fm_records::records::{JobReg, MachineRec, TaskRec};
use std::alloc::Global;
use std::marker::Model;

/// A key: of the record of a job, a task or a machine, or of the winner of an attempt of a task.
#[derive(Debug, Clone, Copy, PartialEq, Eq, Drop)]
pub enum Key {
    Job(JobId),
    Task(TaskId),
    Machine(MachineId),
    Winner(TaskId, u32),
}

/// Looks up records in what is known, and stores the key of each. If memory runs out, no key is stored.
pub trait Look: Drop {
    /// The table in which it looks.
    ghost table: { Self → Table };

    /// The keys that were looked up, in turn.
    ghost keys: { Self → List KeyName };

    /// The register of the job, if it is known.
    fn job(&mut self, job: JobId) -> Result<Option<JobReg>, OutOfMemory>
        ensures record { IfOk result (λ r. r ≡ job_of (table self.old) job) }
        ensures key { OnOk result (keys self.new ≡ keys self.old ++ KeyName.Job job ∷ []) }
        ensures same { table self.new ≡ table self.old }
        ensures err { OnErr result (keys self.new ≡ keys self.old) };

    /// The spec and the progress of the task, if one of them is known.
    fn task(&mut self, task: TaskId) -> Result<Option<TaskRec>, OutOfMemory>
        ensures record { IfOk result (λ r. r ≡ lookup nat_cmp task (table self.old).tasks) }
        ensures key { OnOk result (keys self.new ≡ keys self.old ++ KeyName.Task task ∷ []) }
        ensures same { table self.new ≡ table self.old }
        ensures err { OnErr result (keys self.new ≡ keys self.old) };

    /// The state and the report of the machine at its greatest incarnation, if one is known.
    fn machine(&mut self, machine: MachineId) -> Result<Option<MachineRec>, OutOfMemory>
        ensures record { IfOk result (λ r. r ≡ lookup nat_cmp machine (table self.old).machines) }
        ensures key { OnOk result (keys self.new ≡ keys self.old ++ KeyName.Machine machine ∷ []) }
        ensures same { table self.new ≡ table self.old }
        ensures err { OnErr result (keys self.new ≡ keys self.old) };

    /// The entry that wins the attempt of the task, if there is one.
    fn winner(&mut self, task: TaskId, attempt: u32) -> Result<Option<Winner>, OutOfMemory>
        ensures record { IfOk result (λ r. r ≡ option_map as_winner (winner_of (table self.old) task attempt)) }
        ensures key { OnOk result (keys self.new ≡ keys self.old ++ KeyName.Winner task attempt ∷ []) }
        ensures same { table self.new ≡ table self.old }
        ensures err { OnErr result (keys self.new ≡ keys self.old) };
}

/// Looks up records in a knowledge. Each look-up is O(log n).
#[derive(Drop)]
pub struct KnowLook<'a> {
    knowledge: &'a Knowledge,
    keys: Vec<Key>,
}

impl<'a> Model for KnowLook<'a> {
    ghost use Rattle.fm_edit.specs.Lookups.{Looked};

    ghost Value = { Looked };

    ghost view = { λ l. record { table = l.knowledge.now; keys = l.keys.items } };
}

impl<'a> KnowLook<'a> {
    /// Nothing is looked up yet. It allocates nothing.
    pub fn new(alloc: Global, knowledge: &'a Knowledge) -> KnowLook<'a>
        ensures table { result.table ≡ knowledge.now }
        ensures keys { result.keys ≡ [] }
    {
        KnowLook {
            knowledge,
            keys: Vec::new(alloc),
        }
    }

    /// The keys that were looked up, in turn.
    pub fn keys(&self) -> &[Key]
        ensures { result.now ≡ self.now.keys }
    {
        self.keys.as_slice()
    }
}

impl<'a> Look for KnowLook<'a> {
    ghost table = { λ l. l.table };

    ghost keys = { λ l. l.keys };

    fn job(&mut self, job: JobId) -> Result<Option<JobReg>, OutOfMemory> {
        self.keys.push(Key::Job(job))?;
        Ok(self.knowledge.job(job))
    }

    fn task(&mut self, task: TaskId) -> Result<Option<TaskRec>, OutOfMemory> {
        self.keys.push(Key::Task(task))?;
        Ok(self.knowledge.tasks().get(&task).copied())
    }

    fn machine(&mut self, machine: MachineId) -> Result<Option<MachineRec>, OutOfMemory> {
        self.keys.push(Key::Machine(machine))?;
        Ok(self.knowledge.machines().get(&machine).copied())
    }

    fn winner(&mut self, task: TaskId, attempt: u32) -> Result<Option<Winner>, OutOfMemory> {
        self.keys.push(Key::Winner(task, attempt))?;
        Ok(self.knowledge.winner(task, attempt))
    }
}
