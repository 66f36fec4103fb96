//! What a coordinator decides of a plan before it carries it out.

use fm_know::knowledge::Knowledge;
use fm_lattice::shared::Shared;
use fm_round::plan::{Admitted, Plan};

/// A plan, what is admitted of it, and the delta by which that is carried out: `Coordinator::decide` makes it, and `accept` of a coordinator
/// that knows the same takes it in. One that is not accepted changes nothing.
#[derive(Drop)]
pub struct Decision {
    pub plan: Plan,
    pub admitted: Shared<Admitted>,
    pub delta: Knowledge,
}
