//! A keeper that holds its coordinator up.
ghost use Rattle.std.specs.Prelude.{◌≡◌, Some, false, is_some, IsTrue};
ghost use Rattle.fm_net.specs.Network.{net_of};

use fm_fleet::round::Gate;
use fm_know::knowledge::Knowledge;
use fm_lattice::join::OutOfMemory;
use fm_lattice::shared::Shared;
use fm_net::network::Network;
use fm_policy::changed::Changed;
use fm_policy::keeper::NetKeeper;
use fm_policy::rebuilder::Rebuilder;
use std::alloc::Global;

/// Rebuilds, and calls a gate when it takes the first delta in.
#[derive(Drop)]
pub(crate) struct Held<G: Gate> {
    pub(crate) rebuilder: Rebuilder,
    pub(crate) gate: Option<G>,
}

impl<G: Gate + Drop> NetKeeper for Held<G> {
    ghost fresh = { λ k. is_some k.rebuilder };

    ghost is_for = { λ k t. k.rebuilder ≡ Some (net_of t) };

    ghost follows = { λ k t. IsTrue (is_some k.rebuilder) → k.rebuilder ≡ Some (net_of t) };

    ghost fresh_follows = { λ _ _ _ _ given _. given };

    ghost absorbs = { λ _ _ new. is_some new.rebuilder ≡ false };

    fn absorb(
        &mut self,
        alloc: Global,
        now: &Knowledge,
        changed: &Changed,
    ) -> Result<(), OutOfMemory> {
        if let Some(mut gate) = self.gate.take() {
            gate.hold();
        }
        self.rebuilder.absorb(alloc, now, changed)
    }

    fn rebuild(&mut self, alloc: Global, now: &Knowledge) -> Result<(), OutOfMemory> {
        self.rebuilder.rebuild(alloc, now)
    }

    fn refresh(&mut self, alloc: Global, now: &Knowledge) -> Result<(), OutOfMemory> {
        self.rebuilder.refresh(alloc, now)
    }

    fn is_fresh(&self) -> bool {
        self.rebuilder.is_fresh()
    }

    fn network(&self) -> &Network {
        self.rebuilder.network()
    }

    fn share(&self) -> Result<Shared<Network>, OutOfMemory> {
        self.rebuilder.share()
    }
}
