//! Laws of reliefs. Each function does nothing: its contract is the law.

ghost use Rattle.std.specs.Prelude.{◌≡◌, ◌↔◌, ◌≤◌, ◌<◌, ◌+◌, ◌++◌, ◌∷◌, [], ℕ, List, Some, true, false};
ghost use Rattle.fm_records.specs.OpsOfTable.{IsTable};
ghost use Rattle.fm_records.specs.Rising.{Rises};
ghost use Rattle.fm_records.specs.Sets.{IsMember};
ghost use Rattle.fm_records.specs.Table.{Table};
ghost use Rattle.fm_relief.specs.declared.held_task.HeldTask.{HeldTask};
ghost use Rattle.fm_relief.specs.declared.relief.OverfullMachine.{OverfullMachine};
ghost use Rattle.fm_relief.specs.Relief.{held_task_at, tasks_on, preempt_cmp, comes_before, requests_from, is_preempted, preempted, requests_left, overfull_at};

/// The tasks of a machine are just those that it holds.
pub fn law_held()
    ensures { (k : Table) (m : ℕ) (e : HeldTask) → IsMember e (tasks_on k m) ↔ (held_task_at k m e.task ≡ Some e) }
{}

/// Of these just the ones are preempted that do not fit with those behind them, each before the next.
pub fn law_just()
    ensures members { (k : Table) (m nic : ℕ) (e : HeldTask) → IsMember e (preempted (tasks_on k m) nic)
        ↔ (IsMember e (tasks_on k m) × (nic < requests_from (tasks_on k m) e)) }
    ensures order { (k : Table) (m nic : ℕ) → IsTable k → Rises preempt_cmp (preempted (tasks_on k m) nic) }
{}

/// What a relief leaves on a machine fits the bandwidth.
pub fn law_fits()
    ensures { (k : Table) (m nic : ℕ) → IsTable k → requests_left (tasks_on k m) nic ≤ nic }
{}

/// No task is preempted in vain: if the last of them stayed too, the tasks would not fit.
pub fn law_least()
    ensures { (k : Table) (m nic : ℕ) (es : List HeldTask) (e : HeldTask) → IsTable k
        → preempted (tasks_on k m) nic ≡ es ++ e ∷ [] → nic < requests_left (tasks_on k m) nic + e.request }
{}

/// Each task that is preempted comes before each task of the machine that stays.
pub fn law_first()
    ensures { (k : Table) (m nic : ℕ) (e u : HeldTask) → IsTable k → IsMember e (preempted (tasks_on k m) nic)
        → IsMember u (tasks_on k m) → is_preempted (tasks_on k m) nic u ≡ false → comes_before e u ≡ true }
{}

/// A machine that is listed has a task to preempt.
pub fn law_some()
    ensures { (k : Table) (m : ℕ) (r : OverfullMachine) → IsTable k → overfull_at k m ≡ Some r
        → (e : HeldTask) × IsMember e r.preempts }
{}
