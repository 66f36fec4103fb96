//! Threads alone: afterwards it is checked what they did to a coordinator that they shared.

ghost use Rattle.std.specs.Prelude.{◌≡◌, IfOk};
ghost use Rattle.fm_fleet.specs.Audits.{StandInOne};

use fm_fleet::audit::audit;
use fm_fleet::closing::{Closed, close};
use fm_fleet::node::Node;
use fm_fleet::seat::{NodeName, Seat};
use fm_policy::keeper::NetKeeper;
use fm_records::refusal::Refusal;

/// Closes a node after its threads gave all seats back: then the calls of all seats, with the answers that they got,
/// form one legal history, each once and in each seat's order. Refused for the least seat that is missing, or that
/// the audit names.
pub fn settled<N: NetKeeper, L: NodeName>(
    node: Node<N, L>,
    seats: Vec<Seat<L>>,
) -> Result<Closed<N>, Refusal>
    ensures { IfOk result (λ closed. StandInOne closed.coordinator.state closed.base closed.logs.items) }
{
    match close(node, seats) {
        Ok(closed) => {
            audit(&closed)?;
            Ok(closed)
        }
        Err(kept) => Err(kept.refusal),
    }
}
