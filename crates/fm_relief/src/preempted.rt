//! Which tasks of one machine are preempted: the first ones, until the others fit.

ghost use Rattle.std.specs.Prelude.{◌≡◌, map, sum_by, take, IfOk};
ghost use Rattle.std.specs.Ordering.{nat_cmp};
ghost use Rattle.fm_records.specs.Rising.{Rises};
ghost use Rattle.fm_relief.specs.Relief.{preempted};
ghost use Rattle.fm_relief.specs.inner.Fronts.{front};

use crate::held_task::HeldTask;
use fm_lattice::join::OutOfMemory;
use std::cmp::Reverse;

/// Those of the tasks that are preempted so that the others fit the bandwidth, in their order. The caller must pass the tasks by
/// id, and the sum of their requests. O(n log n).
pub(crate) fn preempted(
    mut tasks: Vec<HeldTask>,
    requests: u128,
    nic: u32,
) -> Result<Vec<HeldTask>, OutOfMemory>
    requires by_id { Rises nat_cmp (map (λ e. e.task) tasks.items) }
    requires all { requests ≡ sum_by (λ e. e.request) tasks.items }
    ensures { IfOk result (λ found. found.items ≡ preempted tasks.items nic) }
{
    tasks.sort_by_key(|task| (task.price, Reverse(task.request), task.task))?;
    let count = front_len(tasks.as_slice(), requests, nic);
    tasks.truncate(count);
    Ok(tasks)
}

// How many tasks are before the first that fits with all behind it. The caller must pass the sum of the requests.
fn front_len(tasks: &[HeldTask], requests: u128, nic: u32) -> usize
    requires { requests ≡ sum_by (λ e. e.request) tasks.now }
    ensures { take result tasks.now ≡ front nic tasks.now }
{
    let mut left = requests;
    for (index, task) in tasks.iter().enumerate() {
        if left <= u128::from(nic) {
            return index;
        }
        left -= u128::from(task.request);
    }
    tasks.len()
}
