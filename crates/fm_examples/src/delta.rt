//! Deltas alone: what a peer still lacks.

ghost use Rattle.std.specs.Prelude.{◌≡◌, List, map, IfOk};
ghost use Rattle.fm_records.specs.declared.ops.Op.{Op};
ghost use Rattle.fm_records.specs.Know.{table_of};
ghost use Rattle.fm_records.specs.Sets.{union};
ghost use Rattle.fm_delta.specs.Deltas.{between, end_of};

use fm_delta::buffer::Buffer;
use fm_know::knowledge::Knowledge;
use fm_records::refusal::Refusal;

/// All deltas that were kept from place `from` on, as one delta: that of all their operations. Refused for
/// BadInterval if `from` is beyond the end, for Trimmed if it was trimmed, or if memory runs out.
pub fn since(buffer: &Buffer, from: u64) -> Result<Knowledge, Refusal>
    ensures { (Ss : List (List Op)) → between buffer.now.deltas from (end_of buffer.now.deltas) ≡ map table_of Ss
        → IfOk result (λ k. k ≡ table_of (union Ss)) }
{
    buffer.cut(from, buffer.end())
}
