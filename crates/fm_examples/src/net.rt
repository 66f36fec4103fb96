//! A network alone: a machine that takes tasks.

ghost use Rattle.std.specs.Prelude.{◌≡◌, ◌≤◌, IfOk, Some};
ghost use Rattle.fm_net.specs.Net.{arc_at};
ghost use Rattle.fm_net.specs.declared.node.Node.{Node as NodeName};

use fm_lattice::join::OutOfMemory;
use fm_net::network::Network;
use fm_net::node::Node;
use fm_records::ids::MachineId;
use std::alloc::Global;

/// A network in which a machine takes as many units as it has slots, at no cost.
pub fn one_machine(alloc: Global, machine: MachineId, slots: u64) -> Result<Network, OutOfMemory>
    requires { 1 ≤ slots }
    ensures { IfOk result (λ net. arc_at net (NodeName.Machine machine) NodeName.Sink ≡ Some (slots, 0)) }
{
    let mut network = Network::new(alloc)?;
    network.put_node(Node::Machine(machine))?;
    network.put_arc(Node::Machine(machine), Node::Sink, slots, 0)?;
    Ok(network)
}
