//! Keepers of any kind in one type, so that coordinators with different ones can be in one world.

use crate::deferred::Deferred;
use crate::editor::Editor;
use fm_know::knowledge::Knowledge;
use fm_lattice::join::OutOfMemory;
use fm_lattice::shared::Shared;
use fm_net::network::Network;
use fm_policy::changed::Changed;
use fm_policy::keeper::NetKeeper;
use fm_policy::rebuilder::Rebuilder;
use std::alloc::Global;

/// A keeper that edits at each delta, one that rebuilds, or one that edits or builds when it is read: so coordinators
/// of all kinds can be in one world.
#[derive(Drop)]
pub enum Keeper {
    Edits(Editor),
    Builds(Rebuilder),
    Defers(Deferred),
}

impl NetKeeper for Keeper {
    ghost use Rattle.fm_edit.specs.inner.Keepers.{is_fresh_keeper, KeeperIsFor, KeeperFollows};
    ghost use Rattle.fm_edit.specs.laws.KeeperLaws.{fresh_keeper_follows};

    ghost fresh = { is_fresh_keeper };

    ghost is_for = { KeeperIsFor };

    ghost follows = { KeeperFollows };

    ghost fresh_follows = { fresh_keeper_follows };

    ghost absorbs = { λ _ _ _. Unit {0} };

    fn absorb(
        &mut self,
        alloc: Global,
        now: &Knowledge,
        changed: &Changed,
    ) -> Result<(), OutOfMemory> {
        match self {
            Keeper::Edits(editor) => editor.absorb(alloc, now, changed),
            Keeper::Builds(rebuilder) => rebuilder.absorb(alloc, now, changed),
            Keeper::Defers(deferred) => deferred.absorb(alloc, now, changed),
        }
    }

    fn rebuild(&mut self, alloc: Global, now: &Knowledge) -> Result<(), OutOfMemory> {
        match self {
            Keeper::Edits(editor) => editor.rebuild(alloc, now),
            Keeper::Builds(rebuilder) => rebuilder.rebuild(alloc, now),
            Keeper::Defers(deferred) => deferred.rebuild(alloc, now),
        }
    }

    fn refresh(&mut self, alloc: Global, now: &Knowledge) -> Result<(), OutOfMemory> {
        match self {
            Keeper::Edits(editor) => editor.refresh(alloc, now),
            Keeper::Builds(rebuilder) => rebuilder.refresh(alloc, now),
            Keeper::Defers(deferred) => deferred.refresh(alloc, now),
        }
    }

    fn is_fresh(&self) -> bool {
        match self {
            Keeper::Edits(editor) => editor.is_fresh(),
            Keeper::Builds(rebuilder) => rebuilder.is_fresh(),
            Keeper::Defers(deferred) => deferred.is_fresh(),
        }
    }

    fn network(&self) -> &Network {
        match self {
            Keeper::Edits(editor) => editor.network(),
            Keeper::Builds(rebuilder) => rebuilder.network(),
            Keeper::Defers(deferred) => deferred.network(),
        }
    }

    fn share(&self) -> Result<Shared<Network>, OutOfMemory> {
        match self {
            Keeper::Edits(editor) => editor.share(),
            Keeper::Builds(rebuilder) => rebuilder.share(),
            Keeper::Defers(deferred) => deferred.share(),
        }
    }
}
