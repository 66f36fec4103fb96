//! What calls return.

use crate::view::View;
use fm_delta::packet::Packet;
use fm_lattice::shared::Shared;
use fm_round::plan::Admitted;

/// What an accepted call returns. The history keeps it as a `Reply`, which has no network.
#[derive(Drop)]
pub enum CallOutput {
    /// Nothing: the call is done.
    Done,
    /// The packet of a cut.
    Packet(Shared<Packet>),
    /// What a view shows.
    View(View),
    /// What was admitted of a plan.
    Admitted(Shared<Admitted>),
}
