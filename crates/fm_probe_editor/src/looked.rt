//! Two coordinators that are told the same and read together: one edits its network or builds it, the other builds it.

use fm_coord::coordinator::Coordinator;
use fm_coord::shared::Shared;
use fm_coord::view::View;
use fm_dimacs::out::Over;
use fm_edit::deferred::Deferred;
use fm_net::network::Network;
use fm_policy::keeper::NetKeeper;
use fm_policy::rebuilder::Rebuilder;
use fm_records::ids::CoordId;
use fm_records::ops::Op;
use fm_records::refusal::Refusal;
use std::alloc::Global;

// How many entries their histories may have.
const LIMIT: usize = 1_000_000;

/// The two.
#[derive(Drop)]
pub(crate) struct Looked {
    deferring: Coordinator<Deferred>,
    building: Coordinator<Rebuilder>,
}

/// What was seen: whether both networks are equal, how many looks at the first were edits and builds, and its text.
#[derive(Drop)]
pub(crate) struct Sight {
    pub(crate) is_same: bool,
    pub(crate) edits: u64,
    pub(crate) builds: u64,
    pub(crate) text: Vec<u8>,
}

impl Looked {
    /// Nothing is known.
    pub(crate) fn new(alloc: Global) -> Result<Looked, Refusal> {
        let deferring = deferring(alloc)?;
        let building = building(alloc)?;
        Ok(Looked {
            deferring,
            building,
        })
    }

    /// Tells both the operation.
    pub(crate) fn tell(&mut self, op: &Op) -> Result<(), Refusal> {
        self.deferring.tell(0, *op)?;
        self.building.tell(0, *op)
    }

    /// Looks at both.
    pub(crate) fn look(&mut self, alloc: Global) -> Result<Sight, Refusal> {
        let is_same = self.is_same()?;
        let (edits, builds) = self.deferring.keeper().counts();
        let text = text(alloc, &mut self.deferring)?;
        Ok(Sight {
            is_same,
            edits,
            builds,
            text,
        })
    }

    // Whether both see equal networks.
    fn is_same(&mut self) -> Result<bool, Refusal> {
        let network = seen(&mut self.deferring)?;
        is_seen(&mut self.building, network.get())
    }
}

fn deferring(alloc: Global) -> Result<Coordinator<Deferred>, Refusal> {
    let number = number()?;
    let keeper = Deferred::new(alloc)?;
    Ok(Coordinator::new(alloc, number, LIMIT, keeper))
}

fn building(alloc: Global) -> Result<Coordinator<Rebuilder>, Refusal> {
    let number = number()?;
    let keeper = Rebuilder::new(alloc)?;
    Ok(Coordinator::new(alloc, number, LIMIT, keeper))
}

fn number() -> Result<CoordId, Refusal> {
    match CoordId::new(1) {
        Some(number) => Ok(number),
        None => Err(Refusal::NoCoordinator),
    }
}

// The network that it sees.
fn seen<N: NetKeeper>(coordinator: &mut Coordinator<N>) -> Result<Shared<Network>, Refusal> {
    let View { network, .. } = coordinator.view(0)?;
    Ok(network)
}

// Whether this is the network that it sees.
fn is_seen<N: NetKeeper>(
    coordinator: &mut Coordinator<N>,
    network: &Network,
) -> Result<bool, Refusal> {
    let seen = seen(coordinator)?;
    Ok(are_same(seen.get(), network))
}

fn are_same(one: &Network, other: &Network) -> bool {
    one == other
}

// The text of its network.
fn text<N: NetKeeper>(alloc: Global, coordinator: &mut Coordinator<N>) -> Result<Vec<u8>, Refusal> {
    let mut out = Over::new(Vec::new(alloc));
    coordinator.dump(&mut out)?;
    Ok(out.into_inner())
}
