//! The solver and the checker alone: least flows, found here or elsewhere.

ghost use Rattle.std.specs.Prelude.{◌≡◌, ℕ, IsTrue, IfOk, IfErr};
ghost use Rattle.fm_net.specs.declared.node.Node.{Node as NodeName};
ghost use Rattle.fm_certificate.specs.PolicyNetwork.{IsBuilt};
ghost use Rattle.fm_certificate.specs.Flows.{units_in, cost_of, IsLeast};

use fm_certificate::check::check;
use fm_certificate::cost::cost;
use fm_certificate::flow::Flow;
use fm_certificate::potentials::Potentials;
use fm_flow::solve::solve;
use fm_net::network::Network;
use fm_records::refusal::Refusal;
use std::alloc::Global;

/// What a least flow of the network costs. Refused only if memory runs out.
pub fn least_cost(alloc: Global, network: &Network) -> Result<u128, Refusal>
    requires { IsBuilt network.now }
    ensures least { IfOk result (λ least. (units : NodeName → NodeName → ℕ) × IsLeast network.now units
        × (least ≡ cost_of network.now units)) }
    ensures err { IfErr result (λ refusal. refusal ≡ Refusal.OutOfMemory) }
{
    let (flow, _) = solve(alloc, network)?;
    Ok(cost(network, &flow))
}

/// Whether a flow of another solver is certified as least by its potentials. If this is true, the flow is least.
pub fn may_trust(network: &Network, flow: &Flow, potentials: &Potentials) -> bool
    ensures { IsTrue result → IsLeast network.now (units_in flow.now) }
{
    check(network, flow, potentials)
}
