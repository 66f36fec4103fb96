//! The tally of what a coordinator knows, kept between calls, so that a round does not look up all tasks again.
//!
//! What is told drops the tally, but not the unfinished tasks from which it was made, which do not depend on jobs and
//! machines. The keys of the deltas since are kept, and the next tally looks up only the tasks that changed
//! (incremental view maintenance). If there are more keys than a quarter of the tasks, a walk over all costs less, and
//! nothing is kept.

ghost use Rattle.std.specs.Prelude.{◌≡◌, true, IfOk, IfSome};
ghost use Rattle.fm_records.specs.Table.{Table as Known};
ghost use Rattle.fm_policy.specs.Keeping.{FollowsAfter};
ghost use Rattle.fm_tally.specs.Tallies.{TallyIsFor};
ghost use Rattle.fm_tally.specs.Unfinished.{AreUnfinished};
ghost use Rattle.fm_coord.specs.inner.TallyCache.{IsTalliedFor};

use fm_know::knowledge::Knowledge;
use fm_know::laws::law_can_be;
use fm_lattice::join::OutOfMemory;
use fm_lattice::shared::Shared;
use fm_policy::changed::Changed;
use fm_policy::laws::law_joined_keys;
use fm_policy::stale_keys::Pending;
use fm_records::ids::TaskId;
use fm_tally::sorted::Sorted;
use fm_tally::tally::Tally;
use fm_tally::unfinished::{UnfinishedTask, unfinished_after, unfinished_of};
use std::alloc::Global;

// If more than this share of the tasks changed, a walk over all of them costs less than their look-ups.
const TASKS_PER_CHANGE: usize = 4;

/// The tally, if it is that of what is known now; else the unfinished tasks of an earlier state and the keys of what was told since,
/// from which the next tally is made; or nothing.
#[derive(Drop)]
pub(crate) struct Tallied {
    pub(crate) tasks: Option<Sorted<TaskId, UnfinishedTask>>,
    pub(crate) pending: Pending,
    pub(crate) tally: Option<Shared<Tally>>,
}

impl Tallied {
    /// Nothing. It allocates nothing.
    pub(crate) fn new(alloc: Global) -> Tallied
        ensures { (k : Known) → IsTalliedFor k result }
    {
        Tallied {
            tasks: None,
            pending: Pending::new(alloc),
            tally: None,
        }
    }

    /// The tally, if there is one.
    pub(crate) fn tally(&self) -> Option<&Tally>
        ensures { (k : Known) → IsTalliedFor k self.now → IfSome result (λ tally. TallyIsFor k tally.now) }
    {
        match &self.tally {
            Some(tally) => Some(tally.get()),
            None => None,
        }
    }

    /// Takes in the keys of a delta. The tasks are dropped if so many changed that a walk over all of them costs less, or if memory runs
    /// out. O(m log n) for m keys.
    pub(crate) fn absorb(&mut self, alloc: Global, changed: &Changed)
        ensures { (now : Known) → FollowsAfter true (λ k. IsTalliedFor k self.old) now changed.now
            → IsTalliedFor now self.new }
    {
        law_joined_keys();
        self.tally = None;
        let Some(tasks) = &self.tasks else {
            return;
        };
        let few = tasks.pairs().len() / TASKS_PER_CHANGE;
        if self.pending.add(changed).is_err() || self.pending.len() > few {
            *self = Tallied::new(alloc);
        }
    }

    /// The tally of what is known, for one more owner: made if there is none, and kept. If memory runs out, nothing changes.
    pub(crate) fn refresh(
        &mut self,
        alloc: Global,
        knowledge: &Knowledge,
    ) -> Result<Shared<Tally>, OutOfMemory>
        requires { IsTalliedFor knowledge.now self.old }
        ensures tally { IfOk result (TallyIsFor knowledge.now) }
        ensures kept { IsTalliedFor knowledge.now self.new }
    {
        if let Some(tally) = &self.tally {
            return tally.share();
        }
        let tasks = self.next_tasks(alloc, knowledge)?;
        let made = Tally::with(alloc, knowledge, &tasks)?;
        let tally = Shared::new(alloc, made)?;
        law_can_be(knowledge);
        *self = Tallied {
            tasks: Some(tasks),
            pending: Pending::new(alloc),
            tally: Some(tally.share()?),
        };
        Ok(tally)
    }

    // The unfinished tasks of what is known, from those that are kept or by a walk.
    fn next_tasks(
        &self,
        alloc: Global,
        knowledge: &Knowledge,
    ) -> Result<Sorted<TaskId, UnfinishedTask>, OutOfMemory>
        requires { IsTalliedFor knowledge.now self.now }
        ensures { IfOk result (AreUnfinished knowledge.now) }
    {
        let Some(earlier) = &self.tasks else {
            return unfinished_of(alloc, knowledge);
        };
        let changed = self.pending.changed(alloc)?;
        unfinished_after(alloc, earlier, knowledge, changed.tasks())
    }
}
