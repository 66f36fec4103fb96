//! The policy alone: the network that some operations determine.

ghost use Rattle.std.specs.Prelude.{◌≡◌, IsTrue, IfOk, is_none};
ghost use Rattle.std.specs.List.{list_all};
ghost use Rattle.fm_records.specs.Ops.{op_fault};
ghost use Rattle.fm_records.specs.Know.{table_of};
ghost use Rattle.fm_net.specs.Network.{net_of};

use fm_know::knowledge::Knowledge;
use fm_lattice::join::OutOfMemory;
use fm_net::network::Network;
use fm_policy::build::build;
use fm_records::ops::Op;
use std::alloc::Global;

/// The flow network after the operations, in whatever order they are listed.
pub fn network_after(alloc: Global, ops: &[Op]) -> Result<Network, OutOfMemory>
    requires { IsTrue (list_all (λ op. is_none (op_fault op)) ops.now) }
    ensures { IfOk result (λ network. network ≡ net_of (table_of ops.now)) }
{
    build(alloc, &Knowledge::told(alloc, ops)?)
}
