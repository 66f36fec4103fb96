//! Members of a fleet.
ghost use Rattle.std.specs.Prelude.{◌≡◌, []};
ghost use Rattle.fm_gossip.specs.Members.{member};

use fm_coord::coordinator::Coordinator;
use fm_policy::keeper::NetKeeper;
use fm_records::ops::Op;
use std::marker::Model;

/// A coordinator that is to run, what it is to be told, and the gate of its rounds. Contracts see its
/// number, the limit of its history, and the operations.
#[derive(Drop)]
pub struct Member<N: NetKeeper, G> {
    pub(crate) coordinator: Coordinator<N>,
    pub(crate) tells: Vec<Op>,
    pub(crate) gate: G,
}

impl<N: NetKeeper, G> Model for Member<N, G> {
    ghost use Rattle.std.specs.Prelude.{◌≡◌, []};
    ghost use Rattle.fm_gossip.specs.Members.{MemberModel, member};

    ghost Value = { MemberModel };

    ghost view = { λ m. member m.coordinator.state.number m.coordinator.state.limit m.tells.items };

    ghost invariant = { λ m. m.coordinator.state.history ≡ [] };
}

impl<N: NetKeeper, G> Member<N, G> {
    /// A coordinator to which nothing happened yet, with what it is to be told and the gate of its rounds.
    pub fn new(coordinator: Coordinator<N>, tells: Vec<Op>, gate: G) -> Member<N, G>
        requires { coordinator.state.history ≡ [] }
        ensures { result ≡ member coordinator.state.number coordinator.state.limit tells.items }
    {
        Member {
            coordinator,
            tells,
            gate,
        }
    }
}
