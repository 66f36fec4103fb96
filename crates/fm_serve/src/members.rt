//! The members of the fleet that a script of tells asks for, and the first of its tells that would be refused.
//!
//! What a thread is refused is named by no step. So the coordinator and the ranges of each tell are checked before any
//! thread is started, and the first one at fault is named.

ghost use Rattle.std.specs.Prelude.{◌≡◌, ◌++◌, None, Some, IfOk, IfErr, OnOk};
ghost use Rattle.fm_serve.specs.Musters.{tell_fault, first_refused, told_at, members_of};

use crate::counter::RoundCounter;
use crate::fault::Fault;
use fm_edit::keepers::Keeper;
use fm_gossip::member::Member;
use fm_lattice::join::OutOfMemory;
use fm_records::ids::CoordId;
use fm_records::ops::Op;
use fm_records::refusal::Refusal;
use fm_script::coordinators::{coordinator_at, is_listed};
use fm_script::script::Tell;
use std::alloc::Global;
use std::sync::atomic::AtomicU64;

/// The first tell that is refused, if one is: no coordinator of its number is listed, or else a field of its operation is out
/// of range.
pub(crate) fn first_refused(listed: &[CoordId], tells: &[Tell]) -> Option<Fault>
    ensures { result ≡ first_refused listed.now 1 tells.now }
{
    for (place, tell) in tells.iter().enumerate() {
        if let Err(refusal) = check(listed, *tell) {
            return Some(Fault {
                refusal,
                step: Some(place + 1),
            });
        }
    }
    None
}

// Whether a coordinator can be told so.
fn check(listed: &[CoordId], tell: Tell) -> Result<(), Refusal>
    ensures ok { OnOk result (tell_fault listed.now tell ≡ None) }
    ensures err { IfErr result (λ refusal. tell_fault listed.now tell ≡ Some refusal) }
{
    let Tell { at, op } = tell;
    if !is_listed(listed, at) {
        return Err(Refusal::NoCoordinator);
    }
    op.check()
}

/// A member for each coordinator that is listed, with what it is to be told. Their rounds are counted.
pub(crate) fn members<'a>(
    alloc: Global,
    listed: &[CoordId],
    tells: &[Tell],
    rounds_done: &'a AtomicU64,
) -> Result<Vec<Member<Keeper, RoundCounter<'a>>>, OutOfMemory>
    ensures { IfOk result (λ members. members.items ≡ members_of listed.now tells.now) }
{
    let mut members = Vec::with_capacity(alloc, listed.len())?;
    for number in listed {
        let coordinator = coordinator_at(alloc, *number, members.len())?;
        let told = told_at(alloc, *number, tells)?;
        members.push(Member::new(coordinator, told, RoundCounter::new(rounds_done)))?;
    }
    Ok(members)
}

// What the coordinator is told, in order.
fn told_at(alloc: Global, number: CoordId, tells: &[Tell]) -> Result<Vec<Op>, OutOfMemory>
    ensures { IfOk result (λ told. told.items ≡ told_at number tells.now) }
{
    let mut told = Vec::new(alloc);
    for tell in tells {
        let Tell { at, op } = *tell;
        if at == number.value() {
            told.push(op)?;
        }
    }
    Ok(told)
}
