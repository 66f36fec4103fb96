//! A coordinator's next operations after what it knows: delta mutators (Almeida, Shoker and Baquero, 2018).
//!
//! A record at a version below the known one would be lost in the merge. So these look up the known version or attempt,
//! and return the operation with the next one, which prevails where the same is known. After the greatest there is
//! none. None of these allocates.

ghost use Rattle.std.specs.Prelude.{◌≡◌, ◌≤◌, ◌∷◌, [], Some, IfOk, IfSome};
ghost use Rattle.std.specs.Option.{ok_or};
ghost use Rattle.fm_records.specs.Know.{table_of, job_in, progress_in, state_in, initial_progress};
ghost use Rattle.fm_records.specs.Facts.{job_of, progress_of, incarnation_of, machine_state};
ghost use Rattle.fm_records.specs.Joined.{table_join};
ghost use Rattle.fm_know.specs.Mutators.{next_version, job_version, state_version, next_job_op, next_machine_op, next_attempt_op};

use crate::knowledge::Knowledge;
use fm_lattice::join::Join;
use fm_records::ids::{JobId, MachineId, TaskId};
use fm_records::ops::{Op, Phase};
use fm_records::refusal::Refusal;

impl Knowledge {
    /// The job's record at the version after the known one, or at version 1. Told to the same knowledge, it becomes
    /// what is known of the job. VersionsSpent if the known version is the greatest u64. O(log n), as all here.
    pub fn next_job(
        &self,
        id: JobId,
        writer: u8,
        withdrawn: bool,
        wait: u32,
        preempt: u32,
    ) -> Result<Op, Refusal>
        ensures op { result ≡ ok_or (next_job_op self.now id writer withdrawn wait preempt) Refusal.VersionsSpent }
        ensures told { IfOk result (λ o. job_of (table_join self.now (table_of (o ∷ []))) id ≡ job_in id o) }
    {
        self.known();
        let version = next_version(self.job_version(id))?;
        Ok(Op::Job {
            id,
            version,
            writer,
            withdrawn,
            wait,
            preempt,
        })
    }

    /// The state of the machine at the incarnation, at the version after that of its known state if that incarnation
    /// is the present one, else at version 1. Told to the same knowledge, it becomes the machine's present state if no
    /// later incarnation is known. VersionsSpent if the known version is the greatest u64.
    pub fn next_machine(
        &self,
        id: MachineId,
        incarnation: u64,
        writer: u8,
        up: bool,
        slots: u32,
        nic: u32,
    ) -> Result<Op, Refusal>
        ensures op { result
            ≡ ok_or (next_machine_op self.now id incarnation writer up slots nic) Refusal.VersionsSpent }
        ensures told { IfSome (incarnation_of self.now id) (λ i. i ≤ incarnation)
            → IfOk result (λ o. machine_state (table_join self.now (table_of (o ∷ []))) id
            ≡ state_in id incarnation o) }
        ensures present { IfSome (incarnation_of self.now id) (λ i. i ≤ incarnation)
            → IfOk result (λ o. incarnation_of (table_join self.now (table_of (o ∷ []))) id ≡ Some incarnation) }
    {
        self.known();
        let version = next_version(self.state_version(id, incarnation))?;
        Ok(Op::Machine {
            id,
            incarnation,
            version,
            writer,
            up,
            slots,
            nic,
        })
    }

    /// The task at the attempt after the known one, pending. Told to the same knowledge, it becomes the progress of the
    /// task. AttemptsSpent if the known attempt is the greatest u32.
    pub fn next_attempt(&self, id: TaskId) -> Result<Op, Refusal>
        ensures op { result ≡ ok_or (next_attempt_op self.now id) Refusal.AttemptsSpent }
        ensures told { IfOk result (λ o. Some (progress_of (table_join self.now (table_of (o ∷ []))) id)
            ≡ progress_in id o) }
    {
        self.known();
        let attempt = self.attempt(id).attempt;
        if attempt == u32::MAX {
            return Err(Refusal::AttemptsSpent);
        }
        Ok(Op::Progress {
            id,
            attempt: attempt + 1,
            phase: Phase::Pending,
        })
    }

    // The version of what is known of the job.
    fn job_version(&self, id: JobId) -> Option<u64>
        ensures { result ≡ job_version self.now id }
    {
        match self.jobs.get(&id) {
            Some(register) => Some(register.0.version),
            None => None,
        }
    }

    // The version of the machine's state, if the incarnation is the present one and its state is known.
    fn state_version(&self, id: MachineId, incarnation: u64) -> Option<u64>
        ensures { result ≡ state_version self.now id incarnation }
    {
        let record = self.machines.get(&id)?;
        match &record.1.0.0 {
            Some(state) if record.0 == incarnation => Some(state.0.version),
            _ => None,
        }
    }
}

// The version after the known one, or 1.
fn next_version(known: Option<u64>) -> Result<u64, Refusal>
    ensures { result ≡ ok_or (next_version known) Refusal.VersionsSpent }
{
    match known {
        None => Ok(1),
        Some(u64::MAX) => Err(Refusal::VersionsSpent),
        Some(version) => Ok(version + 1),
    }
}
