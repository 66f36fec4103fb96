//! The share of a plan that need not be kept.

ghost use Rattle.std.specs.Prelude.{◌≡◌, IfOk};
ghost use Rattle.fm_share.specs.Shares.{share_of};

use crate::share::{Share, share_of};
use fm_know::knowledge::Knowledge;
use fm_lattice::join::OutOfMemory;
use fm_round::plan::Plan;
use std::alloc::Global;

/// The share of the plan, as `share_of` has it. Refused only if memory runs out. A whole share is the plan as it is, at
/// no cost; another costs what `share_of` does.
pub fn part_of(
    alloc: Global,
    knowledge: &Knowledge,
    share: &Share,
    plan: Plan,
) -> Result<Plan, OutOfMemory>
    ensures { IfOk result (λ part. part ≡ share_of knowledge.now share.now plan) }
{
    match (&share.writers, share.each) {
        (None, None) => Ok(plan),
        _ => share_of(alloc, knowledge, share, &plan),
    }
}
