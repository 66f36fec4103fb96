//! What views show.

use fm_know::knowledge::Knowledge;
use fm_lattice::shared::Shared;
use fm_net::network::Network;
use fm_tally::tally::Tally;

/// What was known at a point of a history: the count of entries before it, the knowledge, and its network.
#[derive(Drop)]
pub struct View {
    pub at: usize,
    pub knowledge: Shared<Knowledge>,
    pub network: Shared<Network>,
}

/// The same with the tally in place of the network.
#[derive(Drop)]
pub struct TallyView {
    pub at: usize,
    pub knowledge: Shared<Knowledge>,
    pub tally: Shared<Tally>,
}

// The same with neither.
#[derive(Drop)]
pub(crate) struct KnownAt {
    pub(crate) at: usize,
    pub(crate) knowledge: Shared<Knowledge>,
}
