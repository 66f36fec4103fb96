//! What an Editor remembers, and how it follows a delta: dirty tasks leave as they were, and come back as they are.

ghost use Rattle.std.specs.Prelude.{◌≡◌, ◌<◌, ◌^◌, ◌++◌, [], true, length, IfOk, OnOk};
ghost use Rattle.fm_records.specs.Know.{table_of};
ghost use Rattle.fm_records.specs.Table.{Table};
ghost use Rattle.fm_net.specs.Network.{net_of};
ghost use Rattle.fm_net.specs.Touched.{Touches};
ghost use Rattle.fm_records.specs.Ranges.{CanBe};
ghost use Rattle.fm_policy.specs.Changes.{changed_keys};
ghost use Rattle.fm_policy.specs.Keeping.{FollowsAfter};
ghost use Rattle.fm_edit.specs.Dirty.{CountsDirtyTasks};
ghost use Rattle.fm_edit.specs.Lookups.{looks_of};
ghost use Rattle.fm_edit.specs.EditorState.{Remembers, IsEditorState};
ghost use Rattle.fm_edit.specs.inner.Affected.{TouchesOnlyDirty};

use crate::affected::Touched;
use crate::affected_pairs::touch_pairs;
use crate::cache_updates::{machines_now, see};
use crate::dirty::{dirty_tasks, turned};
use crate::look::Look;
use crate::record_cache::RecordCache;
use crate::task_index::TaskIndex;
use fm_lattice::join::OutOfMemory;
use fm_net::network::Network;
use fm_policy::changed::Changed;
use std::alloc::Global;

/// The records as they were last seen, and where their tasks are listed and counted.
#[derive(Drop)]
pub(crate) struct EditorState {
    pub(crate) seen: RecordCache,
    pub(crate) index: TaskIndex,
}

impl EditorState {
    /// Of nothing known. It allocates nothing.
    pub(crate) fn new(alloc: Global) -> EditorState
        ensures { Remembers (table_of []) result }
    {
        EditorState {
            seen: RecordCache::new(alloc),
            index: TaskIndex::new(alloc),
        }
    }

    /// The memory of the table: the keys are those of all its records, and each is looked up.
    pub(crate) fn of<L: Look>(
        alloc: Global,
        look: &mut L,
        all: &Changed,
    ) -> Result<EditorState, OutOfMemory>
        requires can_be { CanBe (L.table look.old) }
        requires all { all.now ≡ changed_keys (L.table look.old) }
        ensures { IfOk result (λ m. Remembers (L.table look.old) m) }
    {
        let mut memory = EditorState::new(alloc);
        let machines = machines_now(alloc, look, all.machines())?;
        see(&mut memory.seen, look, all, machines.as_slice())?;
        memory.seen.known();
        memory.index.put_back_all(&memory.seen, all.tasks())?;
        Ok(memory)
    }

    /// Follows the table after a delta was merged into it, and returns the nodes and pairs of nodes that it touched:
    /// nothing else differs between the network of the earlier knowledge and that of the present one. It looks up
    /// only the delta's records, and takes out and puts back only dirty tasks. After a refusal no clause speaks of the
    /// memory.
    pub(crate) fn follow<L: Look>(
        &mut self,
        alloc: Global,
        network: &Network,
        look: &mut L,
        changed: &Changed,
    ) -> Result<Touched, OutOfMemory>
        requires { FollowsAfter true (IsEditorState self.old network.now) (L.table look.old) changed.now }
        ensures remembers { OnOk result (Remembers (L.table look.old) self.new) }
        ensures touches { IfOk result (λ x. Touches network.now (net_of (L.table look.old)) x.nodes.keys x.pairs.keys) }
        ensures only { (k : Table) → Remembers k self.old
            → IfOk result (TouchesOnlyDirty k (L.table look.old) changed.now) }
        ensures taken { (k : Table) → Remembers k self.old
            → OnOk result (CountsDirtyTasks k (L.table look.old) changed.now self.old.index.taken
            self.new.index.taken) }
        ensures small { OnOk result (length (L.table look.old).tasks < 2 ^ 63) }
        ensures keys { OnOk result (L.keys look.new ≡ L.keys look.old ++ looks_of (L.table look.old) changed.now) }
        ensures same { L.table look.new ≡ L.table look.old }
    {
        let machines = machines_now(alloc, look, changed.machines())?;
        let turned = turned(alloc, &self.seen, machines.as_slice())?;
        let dirty = dirty_tasks(alloc, &self.index, changed, turned.as_slice())?;
        let mut touched = Touched::new(alloc);
        touched.jobs(changed.jobs())?;
        touched.machines(changed.machines())?;
        touched.tasks(&self.seen, dirty.as_slice())?;
        self.index.take_out_all(&self.seen, dirty.as_slice())?;
        see(&mut self.seen, look, changed, machines.as_slice())?;
        self.seen.known();
        self.index.put_back_all(&self.seen, dirty.as_slice())?;
        touched.tasks(&self.seen, dirty.as_slice())?;
        touch_pairs(alloc, &mut touched, self, network)?;
        touched.known();
        Ok(touched)
    }
}
