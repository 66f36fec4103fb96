//! A keeper that rebuilds: any delta makes it stale, and the next read builds the complete network.
//!
//! It remembers nothing but the network, and suits a coordinator that is told much between two reads.

ghost use Rattle.std.specs.Prelude.{◌≡◌, [], Some, false, is_some, IsTrue, IfOk};
ghost use Rattle.fm_records.specs.Know.{table_of};
ghost use Rattle.fm_net.specs.Network.{net_of};

use crate::build::build;
use crate::changed::Changed;
use crate::keeper::NetKeeper;
use fm_know::knowledge::Knowledge;
use fm_lattice::join::OutOfMemory;
use fm_lattice::shared::Shared;
use fm_net::network::Network;
use std::alloc::Global;
use std::marker::Model;

/// A keeper that any delta makes stale, and that builds the complete network on demand.
#[derive(Debug, Drop)]
pub struct Rebuilder {
    network: Shared<Network>,
    fresh: bool,
}

impl Model for Rebuilder {
    ghost use Rattle.std.specs.Prelude.{Option, Some, None, cond};
    ghost use Rattle.fm_net.specs.Net.{Net};

    ghost Value = { Option Net };

    ghost view = { λ r. cond r.fresh (Some r.network) None };
}

impl Rebuilder {
    /// Fresh, with the network of nothing known.
    pub fn new(alloc: Global) -> Result<Rebuilder, OutOfMemory>
        ensures { IfOk result (λ r. r ≡ Some (net_of (table_of []))) }
    {
        Ok(Rebuilder {
            network: Shared::new(alloc, Network::new(alloc)?)?,
            fresh: true,
        })
    }
}

// The network of what is known, with one owner.
fn network_of(alloc: Global, now: &Knowledge) -> Result<Shared<Network>, OutOfMemory>
    ensures { IfOk result (λ network. network ≡ net_of now.now) }
{
    Shared::new(alloc, build(alloc, now)?)
}

impl NetKeeper for Rebuilder {
    ghost fresh = { λ r. is_some r };

    ghost is_for = { λ r k. r ≡ Some (net_of k) };

    ghost follows = { λ r k. IsTrue (is_some r) → r ≡ Some (net_of k) };

    ghost fresh_follows = { λ _ _ _ _ given _. given };

    ghost absorbs = { λ _ _ new. is_some new ≡ false };

    fn absorb(
        &mut self,
        _alloc: Global,
        _now: &Knowledge,
        _changed: &Changed,
    ) -> Result<(), OutOfMemory> {
        self.fresh = false;
        Ok(())
    }

    fn rebuild(&mut self, alloc: Global, now: &Knowledge) -> Result<(), OutOfMemory> {
        let built = network_of(alloc, now);
        self.fresh = built.is_ok();
        self.network = built?;
        Ok(())
    }

    fn refresh(&mut self, alloc: Global, now: &Knowledge) -> Result<(), OutOfMemory> {
        if self.fresh {
            return Ok(());
        }
        self.rebuild(alloc, now)
    }

    fn is_fresh(&self) -> bool {
        self.fresh
    }

    fn network(&self) -> &Network {
        self.network.get()
    }

    fn share(&self) -> Result<Shared<Network>, OutOfMemory> {
        self.network.share()
    }
}
