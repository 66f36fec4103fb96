//! How many live tasks each job has, counted in one walk over a tally.

ghost use Rattle.std.specs.Prelude.{◌≡◌, ◌==◌, ◌<◌, ◌+◌, ◌^◌, ℕ, cond, IfOk, OnOk};
ghost use Rattle.fm_net.specs.Network.{live_tasks};
ghost use Rattle.fm_tally.specs.Tallies.{TallyIsFor};
ghost use Rattle.fm_tally.specs.JobCounts.{job_count};

use crate::guide::{Guide, upper};
use crate::sorted::Sorted;
use crate::tally::Tally;
use fm_know::knowledge::Knowledge;
use fm_know::laws::law_can_be;
use fm_lattice::join::OutOfMemory;
use fm_records::ids::JobId;
use std::alloc::Global;

/// How many live tasks each job has, of all that are known: 0 also of those that are withdrawn. The caller must pass the tally of what
/// is known. One walk over its tasks, with a guess for the job of each: O(n) if ids are spread evenly, else O(n log n).
pub fn job_counts(
    alloc: Global,
    knowledge: &Knowledge,
    tally: &Tally,
) -> Result<Sorted<JobId, u64>, OutOfMemory>
    requires { TallyIsFor knowledge.now tally.now }
    ensures { IfOk result (λ counts. (j : ℕ) → job_count counts j ≡ live_tasks knowledge.now j) }
{
    law_can_be(knowledge);
    let mut counts = no_counts(alloc, knowledge)?;
    let guide = Guide::of_jobs(alloc, counts.pairs())?;
    let pairs = tally.tasks.pairs();
    for entry in pairs {
        let job = entry.1.job;
        count(&mut counts, guide.guess(upper(job.value())), job)?;
    }
    Ok(counts)
}

// The jobs that are known, none with a task.
fn no_counts(alloc: Global, knowledge: &Knowledge) -> Result<Sorted<JobId, u64>, OutOfMemory>
    ensures { IfOk result (λ counts. (j : ℕ) → job_count counts j ≡ 0) }
{
    let mut found = Vec::with_capacity(alloc, knowledge.jobs().len())?;
    for (job, _) in knowledge.jobs().iter() {
        found.push((*job, 0))?;
    }
    Ok(Sorted::of(found))
}

// Counts a task for the job, of which the place is near.
fn count(counts: &mut Sorted<JobId, u64>, near: usize, job: JobId) -> Result<(), OutOfMemory>
    requires fits { job_count counts.old job + 1 < 2 ^ 64 }
    ensures { OnOk result ((j : ℕ) → job_count counts.new j ≡ job_count counts.old j + cond (job == j) 1 0) }
{
    match counts.index_near(near, &job) {
        Some(at) => {
            let before = counts.value(at, &job);
            counts.replace(at, job, before + 1);
        }
        None => {
            counts.put(job, 1)?;
        }
    }
    Ok(())
}
