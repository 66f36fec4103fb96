//! Coordinators that run in threads, exchange all that they know, and are counted.
//!
//! Threads run in any order, so what they did is checked afterwards: each node is audited, and all histories are
//! gathered into one list of steps. Between the two all exchange what they know, and then know the same. A check that
//! fails is a refusal, and nothing is counted.

ghost use Rattle.std.specs.Prelude.{◌≡◌, None, map, IfOk, IfErr};
ghost use Rattle.fm_coord.specs.Numbers.{AreDistinct};
ghost use Rattle.fm_world.specs.Represents.{state_of};
ghost use Rattle.fm_serve.specs.Musters.{calls_of, IsMustered, IsStopped, StopsMuster};

use crate::counts::{Calls, Counts};
use crate::fault::Fault;
use crate::members::{first_refused, members};
use fm_coord::coordinator::Coordinator;
use fm_edit::keepers::Keeper;
use fm_gossip::agreeing::{law_exchanged, law_senders};
use fm_gossip::exchange::exchange;
use fm_gossip::member_threads::run_fleet;
use fm_lattice::join::OutOfMemory;
use fm_records::refusal::Refusal;
use fm_script::script::Tells;
use fm_world::gather::gather;
use std::alloc::Global;
use std::sync::Wait;
use std::sync::atomic::AtomicU64;
use std::thread::Threads;

/// Runs the coordinators that the script lists at the same time: each is told its operations and runs the given
/// number of rounds, in two threads, and merges what the others knew after they were told theirs. Then they are
/// closed and audited, exchange all that they know, and their histories are gathered into one list of steps. The
/// caller must ensure that no two of them have one number. Each round that is done adds 1 to the counter, for
/// observers. The first tell whose coordinator is not listed, or a field of which is out of range, is named, and then
/// no thread was started: NoCoordinator, BadOp. Else no step is named: OutOfMemory, also if a thread cannot be made;
/// HistoryFull; InboxFull; NotMine if an audit fails, or a packet is left; Stuck.
pub fn muster<R: Threads + Wait + Sync>(
    rt: &R,
    alloc: Global,
    script: &Tells,
    rounds: u32,
    rounds_done: &AtomicU64,
) -> Result<Counts, Fault>
    requires { AreDistinct script.now.coordinators.items }
    ensures ok { IfOk result (λ counts. IsMustered script.now.coordinators.items script.now.tells.items rounds counts) }
    ensures err { IfErr result (λ stop. IsStopped script.now.coordinators.items script.now.tells.items stop) }
    ensures cause { IfErr result (λ stop. stop.step ≡ None → StopsMuster stop.refusal) }
{
    if let Some(stop) = first_refused(&script.coordinators, &script.tells) {
        return Err(stop);
    }
    match run(rt, alloc, script, rounds, rounds_done) {
        Ok(counts) => Ok(counts),
        Err(refusal) => Err(Fault::from(refusal)),
    }
}

// Runs, closes, audits and counts.
fn run<R: Threads + Wait + Sync>(
    rt: &R,
    alloc: Global,
    script: &Tells,
    rounds: u32,
    rounds_done: &AtomicU64,
) -> Result<Counts, Refusal>
    requires { AreDistinct script.now.coordinators.items }
    ensures ok { IfOk result (λ counts. IsMustered script.now.coordinators.items script.now.tells.items rounds counts) }
    ensures cause { IfErr result StopsMuster }
{
    let members = members(alloc, &script.coordinators, &script.tells, rounds_done)?;
    let mut closed = match run_fleet(rt, alloc, members, rounds) {
        Ok(closed) => closed,
        Err(fault) => return Err(fault.refusal),
    };
    let calls = calls_of(alloc, &closed)?;
    law_exchanged(&closed);
    exchange(alloc, &mut closed)?;
    law_senders(&closed);
    match gather(alloc, &closed) {
        Ok(steps) => Ok(Counts {
            calls,
            steps: steps.len(),
        }),
        Err(fault) => Err(fault.refusal),
    }
}

// How many calls each accepted.
fn calls_of(alloc: Global, closed: &[Coordinator<Keeper>]) -> Result<Vec<Calls>, OutOfMemory>
    ensures { IfOk result (λ calls. calls.items ≡ map calls_of (map state_of closed.now)) }
{
    let mut calls = Vec::with_capacity(alloc, closed.len())?;
    for coordinator in closed {
        calls.push(Calls {
            coordinator: coordinator.number(),
            count: coordinator.history().len(),
        })?;
    }
    Ok(calls)
}
