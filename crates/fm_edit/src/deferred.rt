//! A keeper that collects keys, and edits or builds when its network is read (deferred view maintenance).
//!
//! An edit after each delta is wasted if nobody reads, and after many deltas building is cheaper than edits. So this
//! keeper waits for a read: few changed records are edited in, and after many the network is built. The Editor's memory
//! is made only once reads with few changes came in a row. After each Editor that made few edits the wait is twice as
//! long, at most 64 reads. Deferred view maintenance is that of Colby, Griffin, Libkin, Mumick and Trickey (1996).

ghost use Rattle.std.specs.Prelude.{◌≡◌, [], true, false, None, is_some, IsTrue, IfOk, OnOk, OnErr};
ghost use Rattle.fm_records.specs.Know.{table_of};
ghost use Rattle.fm_net.specs.Network.{net_of};
ghost use Rattle.fm_policy.specs.Changes.{no_keys};
ghost use Rattle.fm_policy.specs.Keeping.{FollowsAfter};
ghost use Rattle.fm_edit.specs.EditorModel.{one_more};
ghost use Rattle.fm_edit.specs.DeferredModel.{is_fresh_deferred, DeferredIsFor, DeferredFollows};
ghost use Rattle.fm_edit.specs.inner.DeferredAbsorbs.{DeferredAbsorbs};

use crate::editor::Editor;
use fm_know::knowledge::Knowledge;
use fm_know::laws::law_can_be;
use fm_lattice::join::OutOfMemory;
use fm_lattice::shared::Shared;
use fm_net::network::Network;
use fm_policy::build::build;
use fm_policy::changed::Changed;
use fm_policy::keeper::NetKeeper;
use fm_policy::laws::{law_joined_keys, law_no_keys};
use fm_policy::stale_keys::Pending;
use std::alloc::Global;

// An edit for one record touches an arc for each size of request, as many as a machine has. As measured, an edit of one
// record costs what building the arcs of some 30 machines costs.
const MACHINES_PER_RECORD: usize = 32;

// Tasks that count as much as a machine: a machine has an arc for each size of request, a task two.
const TASKS_PER_MACHINE: usize = 25;

// This many keys are edited in any network: in a small one both ways take microseconds.
const ALWAYS_FEW: usize = 8;

// An Editor that made this many edits before it was dropped was worth its memory.
const WORTH: u64 = 8;

// The greatest number of reads with few changes to wait for.
const LONGEST_WAIT: u32 = 64;

/// A keeper that collects the keys of deltas, and updates its network when it is read (deferred incremental view
/// maintenance): by one edit for all keys if few records changed, else by building. A caller that reads seldom, or
/// tells much between two reads, pays for no edits. A caller that reads often after few changes pays for these.
///
/// How many are few depends on the size of the cluster. An Editor, which remembers all records, is made at a read
/// with few changes since the last one. It is dropped when many changed; if it had made few edits, the next one waits
/// for twice as many such reads in a row.
#[derive(Drop)]
pub struct Deferred {
    editor: Option<Editor>,
    network: Shared<Network>,
    built: bool,
    pending: Pending,
    few: usize,
    much: bool,
    calm: u32,
    wait: u32,
    edits: u64,
    builds: u64,
}

impl Deferred {
    /// Fresh, with the network of nothing known.
    pub fn new(alloc: Global) -> Result<Deferred, OutOfMemory>
        ensures fresh { IfOk result (λ d. IsTrue (is_fresh_deferred d)) }
        ensures nothing { IfOk result (λ d. DeferredIsFor d (table_of [])) }
        ensures follows { IfOk result (λ d. DeferredFollows d (table_of [])) }
    {
        Ok(Deferred {
            editor: None,
            network: Shared::new(alloc, Network::new(alloc)?)?,
            built: true,
            pending: Pending::new(alloc),
            few: ALWAYS_FEW,
            much: false,
            calm: 0,
            wait: 1,
            edits: 0,
            builds: 0,
        })
    }

    /// How many reads made an edit, and how many built the network; each at most 2^64 - 1.
    pub fn counts(&self) -> (u64, u64)
        ensures { result ≡ (self.now.edits, self.now.builds) }
    {
        (self.edits, self.builds)
    }

    // How many reads with few changes are waited for until the next Editor is made.
    fn wait_after(&self) -> u32 {
        match &self.editor {
            Some(editor) if editor.edits() < WORTH => self.wait.saturating_mul(2).min(LONGEST_WAIT),
            Some(_) => 1,
            None => self.wait,
        }
    }

    // Drops all that was kept, so that the next read builds.
    fn forget(&mut self, alloc: Global)
        ensures editor { self.new.editor ≡ None }
        ensures built { self.new.built ≡ false }
        ensures pending { self.new.pending ≡ no_keys }
        ensures edits { self.new.edits ≡ self.old.edits }
        ensures builds { self.new.builds ≡ self.old.builds }
    {
        self.wait = self.wait_after();
        self.editor = None;
        self.built = false;
        self.pending = Pending::new(alloc);
        self.much = true;
        self.calm = 0;
    }

    // Edits by the pending keys. After a refusal no clause speaks of the Editor.
    fn edit(&mut self, alloc: Global, now: &Knowledge) -> Result<(), OutOfMemory>
        requires editor { is_some self.old.editor ≡ true }
        requires follows { DeferredFollows self.old now.now }
        ensures fresh { OnOk result (IsTrue (is_fresh_deferred self.new)) }
        ensures given { OnOk result (DeferredIsFor self.new now.now) }
        ensures edits { OnOk result (self.new.edits ≡ one_more self.old.edits) }
        ensures builds { self.new.builds ≡ self.old.builds }
        ensures err { OnErr result (self.new.edits ≡ self.old.edits) }
    {
        let changed = self.pending.changed(alloc)?;
        if let Some(editor) = &mut self.editor {
            editor.absorb(alloc, now, &changed)?;
        }
        self.pending = Pending::new(alloc);
        self.few = few_of(now);
        self.edits = self.edits.saturating_add(1);
        Ok(())
    }

    // Keeps the network that was built, as an Editor or alone.
    fn keep(
        &mut self,
        alloc: Global,
        network: Network,
        now: &Knowledge,
        edits: bool,
    ) -> Result<(), OutOfMemory>
        requires network { network ≡ net_of now.now }
        requires editor { self.old.editor ≡ None }
        requires built { self.old.built ≡ false }
        requires pending { self.old.pending ≡ no_keys }
        ensures fresh { OnOk result (IsTrue (is_fresh_deferred self.new)) }
        ensures given { OnOk result (DeferredIsFor self.new now.now) }
        ensures edits { self.new.edits ≡ self.old.edits }
        ensures builds { self.new.builds ≡ self.old.builds }
        ensures none { OnErr result (self.new.editor ≡ None) }
        ensures stale { OnErr result (self.new.built ≡ false) }
    {
        if edits {
            self.editor = Some(Editor::of(alloc, network, now)?);
            return Ok(());
        }
        self.network = Shared::new(alloc, network)?;
        self.built = true;
        Ok(())
    }

    // Builds, and begins to edit if few records changed at this many reads. After a refusal nothing is kept.
    fn build(&mut self, alloc: Global, now: &Knowledge) -> Result<(), OutOfMemory>
        ensures fresh { OnOk result (IsTrue (is_fresh_deferred self.new)) }
        ensures given { OnOk result (DeferredIsFor self.new now.now) }
        ensures builds { OnOk result (self.new.builds ≡ one_more self.old.builds) }
        ensures edits { self.new.edits ≡ self.old.edits }
        ensures none { OnErr result (self.new.editor ≡ None) }
        ensures stale { OnErr result (self.new.built ≡ false) }
        ensures err { OnErr result (self.new.builds ≡ self.old.builds) }
    {
        let calm = if self.much {
            0
        } else {
            self.calm.saturating_add(1)
        };
        self.forget(alloc);
        // The old network goes first, so that there are never two.
        self.network = Shared::new(alloc, Network::new(alloc)?)?;
        let network = build(alloc, now)?;
        self.keep(alloc, network, now, calm >= self.wait)?;
        self.few = few_of(now);
        self.much = false;
        self.calm = calm;
        self.builds = self.builds.saturating_add(1);
        Ok(())
    }

    // Edits if there is an Editor, and else builds. After a refusal no clause speaks of what is kept.
    fn renew(&mut self, alloc: Global, now: &Knowledge) -> Result<(), OutOfMemory>
        requires { DeferredFollows self.old now.now }
        ensures fresh { OnOk result (IsTrue (is_fresh_deferred self.new)) }
        ensures given { OnOk result (DeferredIsFor self.new now.now) }
        ensures edits { is_some self.old.editor ≡ true
            → OnOk result ((self.new.edits ≡ one_more self.old.edits) × (self.new.builds ≡ self.old.builds)) }
        ensures builds { self.old.editor ≡ None → OnOk result ((self.new.edits ≡ self.old.edits)
            × (self.new.builds ≡ one_more self.old.builds)) }
    {
        match &self.editor {
            Some(_) => self.edit(alloc, now),
            None => self.build(alloc, now),
        }
    }
}

// How many keys are few in what is known.
fn few_of(now: &Knowledge) -> usize {
    let size = now
        .machines()
        .len()
        .max(now.tasks().len() / TASKS_PER_MACHINE);
    ALWAYS_FEW.max(size / MACHINES_PER_RECORD)
}

impl NetKeeper for Deferred {
    ghost use Rattle.fm_edit.specs.DeferredModel.{is_fresh_deferred, DeferredIsFor, DeferredFollows};
    ghost use Rattle.fm_edit.specs.inner.DeferredAbsorbs.{DeferredAbsorbs};
    ghost use Rattle.fm_edit.specs.laws.DeferringLaws.{fresh_deferred_follows};

    ghost fresh = { is_fresh_deferred };

    ghost is_for = { DeferredIsFor };

    ghost follows = { DeferredFollows };

    ghost fresh_follows = { fresh_deferred_follows };

    ghost absorbs = { DeferredAbsorbs };

    fn absorb(
        &mut self,
        alloc: Global,
        _now: &Knowledge,
        changed: &Changed,
    ) -> Result<(), OutOfMemory> {
        law_joined_keys();
        law_no_keys();
        match self.pending.add(changed) {
            Ok(()) => {
                if self.pending.len() > self.few {
                    self.forget(alloc);
                }
                Ok(())
            }
            Err(refused) => {
                self.forget(alloc);
                Err(refused)
            }
        }
    }

    fn rebuild(&mut self, alloc: Global, now: &Knowledge) -> Result<(), OutOfMemory> {
        self.build(alloc, now)
    }

    /// A fresh one is unchanged. One with an Editor edits, and any other builds.
    fn refresh(&mut self, alloc: Global, now: &Knowledge) -> Result<(), OutOfMemory>
        requires { DeferredFollows self.old now.now }
        ensures fresh { OnOk result (IsTrue (is_fresh_deferred self.new)) }
        ensures given { OnOk result (DeferredIsFor self.new now.now) }
        ensures err { OnErr result (is_fresh_deferred self.new ≡ false) }
        ensures follows { DeferredFollows self.new now.now }
        ensures same { IsTrue (is_fresh_deferred self.old) → self.new ≡ self.old }
        ensures edits { is_fresh_deferred self.old ≡ false → is_some self.old.editor ≡ true
            → OnOk result ((self.new.edits ≡ one_more self.old.edits) × (self.new.builds ≡ self.old.builds)) }
        ensures builds { is_fresh_deferred self.old ≡ false → self.old.editor ≡ None
            → OnOk result ((self.new.edits ≡ self.old.edits) × (self.new.builds ≡ one_more self.old.builds)) }
    {
        law_no_keys();
        law_can_be(now);
        if self.is_fresh() {
            return Ok(());
        }
        match self.renew(alloc, now) {
            Ok(()) => Ok(()),
            Err(refused) => {
                self.forget(alloc);
                Err(refused)
            }
        }
    }

    fn is_fresh(&self) -> bool {
        let was_fresh = match &self.editor {
            Some(editor) => editor.is_fresh(),
            None => self.built,
        };
        was_fresh && self.pending.is_empty()
    }

    fn network(&self) -> &Network {
        match &self.editor {
            Some(editor) => editor.network(),
            None => self.network.get(),
        }
    }

    fn share(&self) -> Result<Shared<Network>, OutOfMemory> {
        match &self.editor {
            Some(editor) => editor.share(),
            None => self.network.share(),
        }
    }
}
