//! Knowledge alone: a fact that some operations determine.

ghost use Rattle.std.specs.Prelude.{◌≡◌, IsTrue, IfOk, is_none};
ghost use Rattle.std.specs.List.{list_all};
ghost use Rattle.fm_records.specs.Ops.{op_fault};
ghost use Rattle.fm_records.specs.Know.{table_of};
ghost use Rattle.fm_records.specs.Facts.{holder_of};

use fm_know::knowledge::Knowledge;
use fm_lattice::join::OutOfMemory;
use fm_records::ids::{MachineId, TaskId};
use fm_records::ops::Op;
use std::alloc::Global;

/// The machine that holds the task after the operations, in whatever order they are listed, if one does.
pub fn where_held(alloc: Global, ops: &[Op], task: TaskId) -> Result<Option<MachineId>, OutOfMemory>
    requires { IsTrue (list_all (λ op. is_none (op_fault op)) ops.now) }
    ensures { IfOk result (λ machine. machine ≡ holder_of (table_of ops.now) task) }
{
    Ok(Knowledge::told(alloc, ops)?.holder(task))
}
