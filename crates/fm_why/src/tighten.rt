//! The cheapest ways to send a unit on from each node to where a task's unit goes now.
//!
//! A least flow can have many potentials, and those of a solver may give low bounds. By the costs of these ways bounds
//! are as great as can be, and the ways give flows in which the unit goes elsewhere. Arcs are relaxed (Ford, 1956;
//! Bellman, 1958), 64 times at most. Nothing is claimed of the results: checks decide whether they are what they are
//! meant to be.

use fm_certificate::flow::Flow;
use fm_certificate::potentials::Potentials;
use fm_cycles::indexed_arcs::{IndexedArc, ResidualArc};
use fm_cycles::lookup::value_or;
use fm_indexed::indexed_network::IndexedNetwork;
use fm_lattice::join::OutOfMemory;
use fm_net::network::Network;
use fm_net::node::Node;
use std::alloc::Global;

// More than any path costs. A node from which no unit gets to the goal keeps it.
const FAR: i128 = 1 << 90;

// After so many turns, each a pass over the arcs, costs that still fall are left as they are.
const TURNS: usize = 64;

// The flow's units by arc, and the potentials by node.
#[derive(Drop)]
struct Certificate {
    units: Vec<u64>,
    values: Vec<i128>,
}

// An arc over which a unit more goes, or one less.
#[derive(Debug, Clone, Copy, Drop)]
struct Leg {
    from: Node,
    to: Node,
    more: bool,
}

impl Leg {
    fn of(from: &Node, to: &Node, more: bool) -> Self {
        Leg {
            from: *from,
            to: *to,
            more,
        }
    }
}

/// An arc with its units in a flow, and in another one.
#[derive(Debug, Clone, Copy, Drop)]
pub(crate) struct Shift {
    pub(crate) from: Node,
    pub(crate) to: Node,
    pub(crate) before: u64,
    pub(crate) after: u64,
}

/// What a further unit costs from each node to the goal, and the first step of its way.
#[derive(Drop)]
pub(crate) struct Paths {
    nodes: Vec<Node>,
    numbered: IndexedNetwork,
    certificate: Certificate,
    goal: usize,
    costs: Vec<i128>,
    steps: Vec<Option<ResidualArc>>,
}

impl Paths {
    /// The cheapest ways, by reduced costs. O(arcs) for each turn until no cost falls.
    pub(crate) fn to(
        alloc: Global,
        network: &Network,
        flow: &Flow,
        potentials: &Potentials,
        goal: &Node,
    ) -> Result<Self, OutOfMemory> {
        let nodes: Vec<Node> = network.nodes().collect(alloc)?;
        let numbered = IndexedNetwork::of(alloc, network)?;
        let certificate = certificate_of(alloc, network, flow, potentials)?;
        let goal = index_of(&nodes, goal);
        let mut costs = vec![in alloc; FAR; numbered.places.end]?;
        let mut steps = vec![in alloc; None; numbered.places.end]?;
        lower(&mut costs, goal, 0);
        for _ in 0..TURNS {
            if !settle(&numbered.arcs, &certificate, &mut costs, &mut steps) {
                break;
            }
        }
        take(&numbered, &certificate, &mut costs);
        Ok(Paths {
            nodes,
            numbered,
            certificate,
            goal,
            costs,
            steps,
        })
    }

    /// The potentials, each less what a further unit costs from its node. With them a bound is exact where a unit can
    /// be sent on so. O(arcs).
    pub(crate) fn tuned(&self, alloc: Global) -> Result<Potentials, OutOfMemory> {
        let mut found = Potentials::new(alloc);
        let mut place = 0usize;
        for node in &self.nodes {
            let value = value_or(&self.certificate.values, place, 0);
            let cost = value_or(&self.costs, place, FAR);
            found.put(*node, value.saturating_sub(cost))?;
            place = place.saturating_add(1);
        }
        Ok(found)
    }

    /// The arcs on which the flow's units change if the task's unit goes to the last node, over the other one if there
    /// is one, in place of the arc to the goal, and a unit is sent on from the last node to the goal; none if there is
    /// no such way. O(nodes log arcs).
    pub(crate) fn moved(
        &self,
        alloc: Global,
        flow: &Flow,
        task: &Node,
        goal: &Node,
        via: Option<Node>,
        last: &Node,
    ) -> Result<Option<Vec<Shift>>, OutOfMemory> {
        let mut legs = Vec::new(alloc);
        legs.push(Leg::of(task, goal, false))?;
        match via {
            Some(via) => {
                legs.push(Leg::of(task, &via, true))?;
                legs.push(Leg::of(&via, last, true))?;
            }
            None => legs.push(Leg::of(task, last, true))?,
        }
        if self.send_on(&mut legs, index_of(&self.nodes, last))? {
            shifts_of(alloc, flow, &legs)
        } else {
            Ok(None)
        }
    }

    // Puts the arcs of the way from the node to the goal behind the others, and returns whether there is such a way.
    fn send_on(&self, legs: &mut Vec<Leg>, from: usize) -> Result<bool, OutOfMemory> {
        let mut node = from;
        for _ in 0..self.steps.len() {
            if node == self.goal {
                return Ok(true);
            }
            let Some(step) = value_or(&self.steps, node, None) else {
                return Ok(false);
            };
            let Some(arc) = self.numbered.arcs.get(step.arc) else {
                return Ok(false);
            };
            let (source, target) = (self.node_at(arc.from), self.node_at(arc.to));
            legs.push(Leg::of(&source, &target, step.forward))?;
            node = if step.forward { arc.to } else { arc.from };
        }
        Ok(false)
    }

    // The node at the index; the sink beyond the end.
    fn node_at(&self, place: usize) -> Node {
        value_or(&self.nodes, place, Node::Sink)
    }
}

// The arcs with their units before and after; none if one is not there, or has no unit to take away.
fn shifts_of(alloc: Global, flow: &Flow, legs: &[Leg]) -> Result<Option<Vec<Shift>>, OutOfMemory> {
    let mut shifts = Vec::new(alloc);
    for leg in legs {
        let Some(shift) = shift_of(flow, leg) else {
            return Ok(None);
        };
        shifts.push(shift)?;
    }
    Ok(Some(shifts))
}

// The arc with its units before and after, if it is there, and has a unit if one is taken away.
fn shift_of(flow: &Flow, leg: &Leg) -> Option<Shift> {
    let before = flow.units(leg.from, leg.to)?;
    let after = if leg.more {
        before.checked_add(1)?
    } else {
        before.checked_sub(1)?
    };
    Some(Shift {
        from: leg.from,
        to: leg.to,
        before,
        after,
    })
}

// The units and the values, in order.
fn certificate_of(
    alloc: Global,
    network: &Network,
    flow: &Flow,
    potentials: &Potentials,
) -> Result<Certificate, OutOfMemory> {
    let mut units = Vec::new(alloc);
    for (_, _, sent) in flow.iter() {
        units.push(sent)?;
    }
    let mut values = Vec::new(alloc);
    for node in network.nodes() {
        values.push(potentials.at(&node).unwrap_or(0))?;
    }
    Ok(Certificate { units, values })
}

// The index of the node among these; beyond the end if it is not there.
fn index_of(nodes: &[Node], goal: &Node) -> usize {
    let mut place = 0usize;
    for node in nodes {
        if node == goal {
            return place;
        }
        place = place.saturating_add(1);
    }
    place
}

// Lowers the costs at the ends of arcs with room, and backwards of arcs with units, and returns whether one fell.
fn settle(
    arcs: &[IndexedArc],
    certificate: &Certificate,
    costs: &mut [i128],
    steps: &mut [Option<ResidualArc>],
) -> bool {
    let mut falls = false;
    let mut place = 0usize;
    for (arc, sent) in arcs.iter().zip(&certificate.units) {
        let cost = reduced(arc, &certificate.values);
        if *sent < arc.capacity {
            let ahead = value_or(costs, arc.to, FAR).saturating_add(cost);
            falls = goes_by(costs, steps, arc.from, ahead, place, true) || falls;
        }
        if *sent > 0 {
            let back = value_or(costs, arc.from, FAR).saturating_sub(cost);
            falls = goes_by(costs, steps, arc.to, back, place, false) || falls;
        }
        place = place.saturating_add(1);
    }
    falls
}

// Lowers the cost at a node to this one, notes the step if it was higher, and returns whether it was.
fn goes_by(
    costs: &mut [i128],
    steps: &mut [Option<ResidualArc>],
    node: usize,
    cost: i128,
    arc: usize,
    forward: bool,
) -> bool {
    let falls = lower(costs, node, cost);
    if falls {
        if let Some(step) = steps.get_mut(node) {
            *step = Some(ResidualArc { arc, forward });
        }
    }
    falls
}

// Takes the cost of each task over the arc on which its unit is: no unit comes to a task, so that it may be as low.
fn take(numbered: &IndexedNetwork, certificate: &Certificate, costs: &mut [i128]) {
    for (arc, sent) in numbered.arcs.iter().zip(&certificate.units) {
        if *sent > 0 && arc.from >= numbered.places.tasks {
            let step = reduced(arc, &certificate.values);
            let cost = value_or(costs, arc.to, FAR).saturating_add(step);
            lower(costs, arc.from, cost);
        }
    }
}

// Lowers the cost at a node to this one, and returns whether it was higher.
fn lower(costs: &mut [i128], node: usize, cost: i128) -> bool {
    match costs.get_mut(node) {
        Some(there) if cost < *there => {
            *there = cost;
            true
        }
        _ => false,
    }
}

// What a further unit over the arc costs, with the potentials of its ends.
fn reduced(arc: &IndexedArc, values: &[i128]) -> i128 {
    i128::from(arc.cost)
        .saturating_add(value_or(values, arc.from, 0))
        .saturating_sub(value_or(values, arc.to, 0))
}
