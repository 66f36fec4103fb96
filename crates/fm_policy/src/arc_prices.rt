//! The rules of the policy over single values, so that whoever builds or edits a network has one price for an arc.

ghost use Rattle.std.specs.Prelude.{◌≡◌, ◌≤◌, ◌-◌, max};
ghost use Rattle.fm_records.specs.declared.ops.TheConstants.{MOST_PRICE};
ghost use Rattle.fm_know.specs.Limits.{JobWithin};
ghost use Rattle.fm_policy.specs.Rules.{job_price};

use fm_records::ids::MachineId;
use fm_records::records::JobReg;

/// The price of a live task's arc to its job: that of a preemption if a machine holds the task, else that of waiting.
pub fn job_price(job: &JobReg, holder: Option<MachineId>) -> u32
    ensures price { result ≡ job_price job.now holder }
    ensures within { JobWithin job.now → result ≤ MOST_PRICE }
{
    match holder {
        Some(_) => job.preempt,
        None => job.wait,
    }
}

/// The cost of a task's arc to a machine that it prefers: what its request costs there less the credit, and 0 if the
/// credit is greater.
pub fn preferred_cost(cost: u32, credit: u32) -> u32
    ensures { result ≡ cost - credit }
{
    cost.saturating_sub(credit)
}

/// The load of a machine: the greater of the use that it reported and the sum of the requests of the tasks that it holds.
pub fn machine_load(used: u32, held: u128) -> u128
    ensures { result ≡ max used held }
{
    u128::from(used).max(held)
}
