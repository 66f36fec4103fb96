//! Operations alone: they are checked before they are sent.

ghost use Rattle.std.specs.Prelude.{◌≡◌, ◌↔◌, IsTrue, All, None};
ghost use Rattle.fm_records.specs.Ops.{op_fault};

use fm_records::ops::Op;

/// Whether each operation is in range, so that no coordinator refuses one of them as BadOp. It allocates nothing.
pub fn may_be_told(ops: &[Op]) -> bool
    ensures { IsTrue result ↔ All (λ op. op_fault op ≡ None) ops.now }
{
    ops.iter().all(|op| op.check().is_ok())
}
