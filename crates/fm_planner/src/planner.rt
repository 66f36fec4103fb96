//! Plans of what is known, from a tally of it: a search, and a proved check of what it found.
//!
//! A network has an arc for each request and each machine with room for it, and here none is built. The search need not
//! be right, since a claim that fails the check gives no plan.

ghost use Rattle.std.specs.Prelude.{IfOk, IfSome};
ghost use Rattle.fm_round.specs.Schedules.{IsPlanOf};
ghost use Rattle.fm_tally.specs.Tallies.{TallyIsFor};

use crate::checking::passes;
use crate::claim::Claim;
use crate::claim_of_assignment::claim_of;
use crate::move_counts::Counts;
use crate::plan_of_moves::plan_of;
use crate::tally_instance::{Names, instance_of};
use fm_know::knowledge::Knowledge;
use fm_know::laws::law_can_be;
use fm_lattice::join::OutOfMemory;
use fm_paths::laws::law_moves;
use fm_round::plan::Plan;
use fm_search::assignment::Assignment;
use fm_search::search::search;
use fm_tally::tally::Tally;
use std::alloc::Global;

/// A plan of a least flow of the network of what is known, which is not built. The caller must pass the tally of what is known.
/// A search comes to moves and prices, and a check decides whether these make a least flow, by complementary slackness. There is
/// no plan if the check decides that they do not, or if the search gives up: if it would look at more than 4,096 nodes for each task,
/// machine and request, or if there are more than 2^26 pairs of a request and a machine. Then a plan of the network is for the caller
/// to make. Only memory is refused. O(n log n) in the tasks and machines, a bit for each machine and request, and a search over
/// requests and full machines for about each machine that fills up.
pub fn plan_of_tally(
    alloc: Global,
    tally: &Tally,
    knowledge: &Knowledge,
) -> Result<Option<Plan>, OutOfMemory>
    requires { TallyIsFor knowledge.now tally.now }
    ensures { IfOk result (λ found. IfSome found (IsPlanOf knowledge.now)) }
{
    match claim_for(alloc, tally, knowledge)? {
        Some(claim) => plan_by(alloc, tally, knowledge, &claim),
        None => Ok(None),
    }
}

// The plan of the moves of the claim. None if it does not pass the check.
fn plan_by(
    alloc: Global,
    tally: &Tally,
    knowledge: &Knowledge,
    claim: &Claim,
) -> Result<Option<Plan>, OutOfMemory>
    requires { TallyIsFor knowledge.now tally.now }
    ensures { IfOk result (λ found. IfSome found (IsPlanOf knowledge.now)) }
{
    law_can_be(knowledge);
    law_moves();
    // The tasks are in memory, so there are fewer than 2^63: the check counts them.
    let _few = knowledge.tasks().len();
    let moves = claim.moves.pairs();
    let counts = Counts::of(alloc, knowledge, tally, claim, moves)?;
    if !passes(alloc, knowledge, tally, claim, &counts)? {
        return Ok(None);
    }
    let plan = plan_of(alloc, knowledge, moves)?;
    Ok(Some(plan))
}

// The claim that a search finds. None if it gives up.
fn claim_for(
    alloc: Global,
    tally: &Tally,
    knowledge: &Knowledge,
) -> Result<Option<Claim>, OutOfMemory> {
    let (instance, names) = instance_of(alloc, knowledge, tally)?;
    claim_found(alloc, tally, search(alloc, instance), names)
}

// The claim of what the search found, if it found something.
fn claim_found(
    alloc: Global,
    tally: &Tally,
    found: Result<Option<Assignment>, OutOfMemory>,
    names: Names,
) -> Result<Option<Claim>, OutOfMemory> {
    let Some(assignment) = found? else {
        return Ok(None);
    };
    let claim = claim_of(alloc, tally, &assignment, names)?;
    Ok(Some(claim))
}
