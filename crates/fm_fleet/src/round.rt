//! Rounds in threads: a view is planned for while the node is unlocked, and the plan, or a share of it, is committed.
//!
//! A plan may take long, and other threads go on meanwhile. What they did can make entries of the plan void, which
//! admission finds when the plan is committed: optimistic concurrency control (Kung and Robinson, 1981).
ghost use Rattle.std.specs.Prelude.{IfOk, IfErr};
ghost use Rattle.fm_fleet.specs.Rounds.{IsRound, IsRefusedRound, IsShareRound, IsRefusedShareRound};

use crate::laws::law_whole_round;
use crate::node::Node;
use crate::seat::{NodeName, Seat};
use fm_coord::shared::Shared;
use fm_planner::plan_source;
use fm_policy::keeper::NetKeeper;
use fm_records::refusal::Refusal;
use fm_round::plan::Admitted;
use fm_share::part::part_of;
use fm_share::share::Share;
use std::alloc::Global;
use std::sync::Wait;

/// What is called between the two calls of a round, when the node is unlocked.
pub trait Gate {
    fn hold(&mut self);
}

/// A gate that does not wait.
#[derive(Drop)]
pub struct NoGate;

impl Gate for NoGate {
    fn hold(&mut self) {}
}

/// A look at what is known, the gate, and the commit of the plan of a least flow of the network of what was seen. The
/// result is the commit's. The network is built only if the search for a plan without it gives up, or the plan fails
/// its check. OutOfMemory, HistoryFull; then the seat is unchanged, or has only the view.
pub fn run_round<N: NetKeeper, L: NodeName, G: Gate, R: Wait>(
    rt: &R,
    alloc: Global,
    node: &Node<N, L>,
    seat: &mut Seat<L>,
    gate: &mut G,
) -> Result<Shared<Admitted>, Refusal>
    ensures ok { IfOk result (λ admitted. IsRound L.base seat.old seat.new admitted) }
    ensures err { IfErr result (λ refusal. IsRefusedRound L.base seat.old seat.new refusal) }
{
    law_whole_round();
    run_share_round(rt, alloc, node, seat, gate, &Share::whole())
}

/// As `run_round`, but only a share of the plan is committed, by what was seen: the entries of tasks whose spec one of
/// its writers wrote, and of these places at most so many on each machine. What is planned stays the same. It costs
/// what `run_round` and `part_of` do; a whole share costs nothing more. OutOfMemory, HistoryFull; then the seat is
/// unchanged, or has only the view.
pub fn run_share_round<N: NetKeeper, L: NodeName, G: Gate, R: Wait>(
    rt: &R,
    alloc: Global,
    node: &Node<N, L>,
    seat: &mut Seat<L>,
    gate: &mut G,
    share: &Share,
) -> Result<Shared<Admitted>, Refusal>
    ensures ok { IfOk result (λ admitted. IsShareRound share.now L.base seat.old seat.new admitted) }
    ensures err { IfErr result (λ refusal. IsRefusedShareRound share.now L.base seat.old seat.new refusal) }
{
    let sight = match node.see(rt, seat) {
        Ok(sight) => sight,
        Err(refusal) => return Err(refusal),
    };
    gate.hold();
    let knowledge = sight.knowledge.get();
    let Ok(made) = plan_source::plan_for(alloc, sight.tally.get(), knowledge) else {
        return Err(Refusal::OutOfMemory);
    };
    let Ok(part) = part_of(alloc, knowledge, share, made.plan) else {
        return Err(Refusal::OutOfMemory);
    };
    node.commit(rt, seat, part)
}
