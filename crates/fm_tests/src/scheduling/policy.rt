//! The keys of a delta, and a keeper that rebuilds.

use crate::samples::PROPOSAL;
use crate::told::delta;
use fm_know::knowledge::Knowledge;
use fm_policy::changed::{Changed, changed_of};
use fm_policy::keeper::NetKeeper;
use fm_policy::rebuilder::Rebuilder;
use fm_records::ids::TaskId;
use std::alloc::Global;
use std::test::Fail;

// The tests are of what is answered; what that is, contracts say.
fn changed(alloc: Global, delta: &Knowledge) -> Result<Changed, Fail> {
    Ok(changed_of(alloc, delta)?)
}

fn rebuilt(alloc: Global, known: &Knowledge) -> Result<Rebuilder, Fail> {
    let mut keeper = Rebuilder::new(alloc)?;
    keeper.rebuild(alloc, known)?;
    Ok(keeper)
}

#[test]
fn a_proposal_changes_its_task_alone(rt: HostRuntime) -> Result<(), Fail> {
    let keys = changed(rt.alloc(), &delta(rt.alloc(), &PROPOSAL.op())?)?;
    assert_eq!(rt; keys.tasks(), [TaskId::new(17)].as_slice());
    assert!(rt; keys.jobs().is_empty());
    assert!(rt; keys.machines().is_empty());
    Ok(())
}

#[test]
fn a_rebuilt_network_is_fresh(rt: HostRuntime) -> Result<(), Fail> {
    let known = delta(rt.alloc(), &PROPOSAL.op())?;
    let keeper = rebuilt(rt.alloc(), &known)?;
    assert!(rt; keeper.is_fresh());
    assert_eq!(rt; keeper.network().nodes_len(), 1);
    Ok(())
}
