//! Rounds: what a coordinator's second thread does, while the first one exchanges packets.
//!
//! Before each round it looks whether the fleet is stopped, so that a fleet ends in time; a round that is refused stops
//! it.
ghost use Rattle.std.specs.Prelude.{◌≡◌, None, IsTrue, IfErr, IfSome, OnOk};
ghost use Rattle.fm_round.specs.declared.plan.Admitted.{Admitted as WhatCame};
ghost use Rattle.fm_fleet.specs.Rounds.{IsRound};
ghost use Rattle.fm_gossip.specs.Served.{AreRounds};
ghost use Rattle.fm_gossip.specs.inner.EarlyEnds.{may_end};

use crate::early::Early;
use crate::stop_signal::StopSignal;
use fm_fleet::node::Node;
use fm_fleet::round::{Gate, run_round};
use fm_fleet::seat::{NodeName, Seat};
use fm_policy::keeper::NetKeeper;
use std::alloc::Global;
use std::snapshot::Snapshot;
use std::sync::Wait;
use std::thread::Promise;

/// The seat of rounds when they ended, and why they ended early, if they did.
#[derive(Drop)]
pub(crate) struct Ran<L: NodeName> {
    pub(crate) seat: Seat<L>,
    pub(crate) early: Option<Early>,
}

/// Runs so many rounds. If one is refused, the fleet is stopped. If that is stopped before a round, they end too.
pub(crate) fn run_rounds<N: NetKeeper, L: NodeName, G: Gate + Drop, R: Wait>(
    rt: &R,
    alloc: Global,
    node: &Node<N, L>,
    mut seat: Seat<L>,
    mut gate: G,
    rounds: u32,
    halt: &StopSignal,
) -> Ran<L>
    ensures ran { result.early ≡ None → AreRounds L.base rounds seat result.seat }
    ensures number { result.seat.number ≡ seat.number }
    ensures cause { IfSome result.early (λ early. IsTrue (may_end early)) }
{
    for _i in 0..rounds {
        if let Err(early) = next_round(rt, alloc, node, &mut seat, &mut gate, halt) {
            return Ran {
                seat,
                early: Some(early),
            };
        }
    }
    Ran { seat, early: None }
}

// Runs a round, unless the fleet is stopped. If it is refused, the fleet is stopped.
#[tactic(auto, using(crate::proofs::Stopping::round_stops, crate::proofs::Stopping::round_number))]
fn next_round<N: NetKeeper, L: NodeName, G: Gate, R: Wait>(
    rt: &R,
    alloc: Global,
    node: &Node<N, L>,
    seat: &mut Seat<L>,
    gate: &mut G,
    halt: &StopSignal,
) -> Result<(), Early>
    ensures ok { OnOk result ((admitted : WhatCame) × IsRound L.base seat.old seat.new admitted) }
    ensures number { seat.new.number ≡ seat.old.number }
    ensures cause { IfErr result (λ early. IsTrue (may_end early)) }
{
    if halt.is_stopped(rt) {
        return Err(Early::Stopped);
    }
    match run_round(rt, alloc, node, seat, gate) {
        Ok(_) => Ok(()),
        Err(refusal) => {
            halt.stop(rt);
            Err(Early::Refused(refusal))
        }
    }
}

/// That a seat comes back, after so many rounds if none was refused.
#[derive(Drop)]
pub(crate) struct Rounds<L: NodeName> {
    pub(crate) seat: Snapshot<Seat<L>>,
    pub(crate) rounds: u32,
}

impl<L: NodeName> Promise<Ran<L>> for Rounds<L> {
    ghost use Rattle.std.specs.Prelude.{◌≡◌, None, IsTrue, IfSome};
    ghost use Rattle.fm_gossip.specs.Served.{AreRounds};
    ghost use Rattle.fm_gossip.specs.inner.EarlyEnds.{may_end};

    ghost kept_by = { λ p r. (r.early ≡ None → AreRounds L.base p.rounds p.seat.value r.seat)
        × (r.seat.number ≡ p.seat.value.number) × IfSome r.early (λ early. IsTrue (may_end early)) };
}
