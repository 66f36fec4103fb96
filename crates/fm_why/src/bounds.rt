//! Lower bounds on what schedules cost, from a least flow and its potentials, without another flow.
//!
//! A flow that sends units over an arc that the least flow leaves empty is dearer by the arc's reduced cost at least
//! (sensitivity analysis of linear programs). So one solution answers for all machines.

ghost use Rattle.std.specs.Prelude.{◌≡◌, ◌⊎◌, ◌<◌, ◌<ℤ◌, ◌^◌, ℕ, pos, Some, IfSome, option_map};
ghost use Rattle.fm_certificate.specs.Flows.{units_in};
ghost use Rattle.fm_certificate.specs.Certificates.{potential_in, reduced_cost, AreSmall};
ghost use Rattle.fm_records.specs.Options.{or_else};
ghost use Rattle.fm_net.specs.Net.{arc_at};
ghost use Rattle.fm_why.specs.Running.{IsDearerOver};
ghost use Rattle.fm_why.specs.MachineOptions.{cost_at};
ghost use Rattle.fm_why.specs.Bounds.{above_zero, gap_of, gap_at};
ghost use Rattle.fm_why.specs.inner.MachineWays.{IsGap};
ghost use Rattle.fm_why.specs.inner.Schedule.{IsSchedule};

use crate::tighten::Paths;
use fm_certificate::flow::Flow;
use fm_certificate::potentials::Potentials;
use fm_net::network::Network;
use fm_net::node::Node;

/// A least flow, potentials that certify it, and what it costs; and where the unit of a task goes, with the cheapest ways
/// there, of which nothing is known.
#[derive(Drop)]
pub(crate) struct CertifiedFlow {
    pub(crate) flow: Flow,
    pub(crate) potentials: Potentials,
    pub(crate) least: u128,
    pub(crate) goal: Node,
    pub(crate) paths: Paths,
}

/// What an arc costs, and how much dearer flows are that send units over it.
#[derive(Debug, Clone, Copy, Drop)]
pub(crate) struct ArcGap {
    pub(crate) cost: u32,
    pub(crate) more: u128,
}

/// The toll of the arc, if the network has it. O(log n).
pub(crate) fn toll_of(
    network: &Network,
    schedule: &CertifiedFlow,
    from: &Node,
    to: &Node,
) -> Option<ArcGap>
    requires { IsSchedule network.now schedule.now }
    ensures cost { option_map (λ e. e.cost) result ≡ cost_at network.now from.now to.now }
    ensures gap { IfSome result (λ e.
        IsGap (units_in schedule.now.flow) (potential_in schedule.now.potentials) from.now to.now e.cost e.more) }
    ensures fits { IfSome result (λ e. e.more < 2 ^ 110) }
    ensures dearer { IfSome result (λ e. IsDearerOver network.now schedule.now.least from.now to.now e.more) }
    ensures more { option_map (λ e. e.more) result ≡ gap_at network.now (units_in schedule.now.flow)
        (potential_in schedule.now.potentials) from.now to.now }
{
    network.known();
    let (_, cost) = network.arc(*from, *to)?;
    let more = gap(&schedule.flow, &schedule.potentials, from, to, cost);
    Some(ArcGap { cost, more })
}

/// How much dearer flows are that send units over the arc, at least.
pub(crate) fn more_over(network: &Network, schedule: &CertifiedFlow, from: &Node, to: &Node) -> u128
    requires { IsSchedule network.now schedule.now }
    ensures gap { (arc : ℕ × ℕ) → arc_at network.now from.now to.now ≡ Some arc
        → IsGap (units_in schedule.now.flow) (potential_in schedule.now.potentials) from.now to.now arc.1 result }
    ensures fits { result < 2 ^ 110 }
    ensures dearer { IsDearerOver network.now schedule.now.least from.now to.now result }
    ensures is { result ≡ or_else 0 (gap_at network.now (units_in schedule.now.flow)
        (potential_in schedule.now.potentials) from.now to.now) }
{
    network.known();
    match toll_of(network, schedule, from, to) {
        Some(toll) => toll.more,
        None => 0,
    }
}

// How much dearer flows are that send units over an arc of this cost: by its reduced cost, if the flow leaves it empty.
fn gap(flow: &Flow, potentials: &Potentials, from: &Node, to: &Node, cost: u32) -> u128
    requires small { AreSmall potentials.now }
    ensures gap { IsGap (units_in flow.now) (potential_in potentials.now) from.now to.now cost result }
    ensures is { result ≡ gap_of (units_in flow.now) (potential_in potentials.now) from.now to.now cost }
    ensures fits { result < 2 ^ 110 }
{
    if flow.units(*from, *to).unwrap_or(0) != 0 {
        return 0;
    }
    above_zero(reduced(potentials, from, to, cost))
}

// The number, or 0 if it is negative.
fn above_zero(number: i128) -> u128
    requires { number <ℤ pos (2 ^ 110) }
    ensures part { (result ≡ 0) ⊎ (pos result ≡ number) }
    ensures is { result ≡ above_zero number }
    ensures fits { result < 2 ^ 110 }
{
    if number < 0 { 0 } else { number as u128 }
}

// What a further unit over the arc costs, with the potentials of its ends.
fn reduced(potentials: &Potentials, from: &Node, to: &Node, cost: u32) -> i128
    requires small { AreSmall potentials.now }
    ensures is { result
        ≡ reduced_cost cost (potential_in potentials.now from.now) (potential_in potentials.now to.now) }
    ensures fits { result <ℤ pos (2 ^ 110) }
{
    i128::from(cost) + potential(potentials, from) - potential(potentials, to)
}

// The potential of the node; 0 if it has none.
fn potential(potentials: &Potentials, node: &Node) -> i128
    ensures { result ≡ potential_in potentials.now node.now }
{
    potentials.at(node).unwrap_or(0)
}
