//! The plan of a flow of a knowledge's network, from the arcs that it rests on.
//!
//! Most arcs say nothing that a plan needs: those without units, and those of held tasks that stay where they are. One
//! walk over the network leaves them out, with the units of each arc looked for at its own place first.

ghost use Rattle.std.specs.Prelude.{◌≡◌, ◌∷◌, ◌++◌, [], cond, filter, IfOk, OnOk};
ghost use Rattle.fm_net.specs.Network.{net_of};
ghost use Rattle.fm_certificate.specs.Flows.{units_in, IsFeasible};
ghost use Rattle.fm_round.specs.PlanOfFlow.{units_over, plan_of_flow};
ghost use Rattle.fm_round.specs.inner.PlanArcs.{is_asked, waiting_after, is_asked_after};

use crate::from_units::plan_of;
use crate::plan::Plan;
use fm_certificate::flow::Flow;
use fm_know::knowledge::Knowledge;
use fm_lattice::join::OutOfMemory;
use fm_net::network::Network;
use fm_net::node::Node;
use fm_records::ids::TaskId;
use std::alloc::Global;

/// The plan of the flow. The caller must ensure that the network is the knowledge's and that the flow is feasible.
/// Within an aggregator of a request the i-th task by id that has a unit to it goes to the i-th machine by id, where a
/// machine is listed as often as there are units to it, at the machine's present incarnation; a held task that has a
/// unit to its job is preempted at its present attempt. Both in the order of the tasks' ids. A walk over the arcs, and
/// O(log n) for each unit, except those of tasks that stay where they are held.
pub fn plan(
    alloc: Global,
    network: &Network,
    flow: &Flow,
    knowledge: &Knowledge,
) -> Result<Plan, OutOfMemory>
    requires network { network.now ≡ net_of knowledge.now }
    requires feasible { IsFeasible network.now (units_in flow.now) }
    ensures { IfOk result (λ plan. plan ≡ plan_of_flow (units_over network.now (units_in flow.now)) knowledge.now) }
{
    network.known();
    let units = asked(alloc, network, flow)?;
    plan_of(alloc, &units, knowledge)
}

// The arcs that the plan rests on, with their units. Those of an arc are looked for first where they lie in a flow of
// exactly the network's arcs.
fn asked(
    alloc: Global,
    network: &Network,
    flow: &Flow,
) -> Result<Vec<((Node, Node), u64)>, OutOfMemory>
    ensures { IfOk result
        (λ units. units.items ≡ filter (is_asked network.now) (units_over network.now (units_in flow.now))) }
{
    network.known();
    let mut units = Vec::new(alloc);
    let mut near = 0usize;
    let mut waiting = Waiting { last: None };
    for arc in network.arcs() {
        let sent = flow.units_near(near, arc.0, arc.1).unwrap_or(0);
        waiting.pass(arc.0, arc.1);
        add_asked(&mut units, &waiting, (arc.0, arc.1), sent)?;
        near = near.saturating_add(1);
    }
    Ok(units)
}

// Adds the arc with its units, if the plan rests on it.
fn add_asked(
    units: &mut Vec<((Node, Node), u64)>,
    waiting: &Waiting,
    ends: (Node, Node),
    sent: u64,
) -> Result<(), OutOfMemory>
    ensures { OnOk result (units.new.items ≡ units.old.items
        ++ cond (is_asked_after waiting.now.last (ends, sent)) ((ends, sent) ∷ []) []) }
{
    if waiting.asks(ends.0, ends.1, sent) {
        units.push((ends, sent))?;
    }
    Ok(())
}

// In a walk over the arcs: the task of the last arc from a task to a request. A task's arc to its request comes before
// those to machines, and a task that a machine holds has none.
#[derive(Drop)]
struct Waiting {
    last: Option<TaskId>,
}

impl Waiting {
    // Goes on by an arc.
    fn pass(&mut self, from: Node, to: Node)
        ensures { self.new.last ≡ waiting_after self.old.last (from, to) }
    {
        if let Node::Task(task) = from {
            if let Node::Request(_) = to {
                self.last = Some(task);
            }
        }
    }

    // Whether the arc has units, and is none from a held task to its machine.
    fn asks(&self, from: Node, to: Node, sent: u64) -> bool
        ensures { result ≡ is_asked_after self.now.last ((from, to), sent) }
    {
        if sent == 0 {
            return false;
        }
        let Node::Task(task) = from else {
            return true;
        };
        match to {
            Node::Machine(_) => self.last == Some(task),
            _ => true,
        }
    }
}
