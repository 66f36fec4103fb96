//! Facts of every knowledge, and of every number.

ghost use Rattle.std.specs.Prelude.{◌≡◌, ◌<◌, ◌^◌, List};
ghost use Rattle.fm_records.specs.declared.ops.Op.{Op};
ghost use Rattle.fm_records.specs.Sets.{HaveSameMembers};
ghost use Rattle.fm_records.specs.Know.{table_of};
ghost use Rattle.fm_records.specs.OpsOfTable.{ops};
ghost use Rattle.fm_records.specs.Ranges.{CanBe};

use crate::knowledge::Knowledge;
use fm_lattice::join::Join;

/// Its keys rise, nothing in it occurs without a record, and its fields are in range.
pub fn law_can_be(knowledge: &Knowledge)
    ensures { CanBe knowledge.now }
{
    knowledge.known();
}

/// It is the table of the operations that it is written out as.
pub fn law_spelled(knowledge: &Knowledge)
    ensures { table_of (ops knowledge.now) ≡ knowledge.now }
{
    knowledge.known();
}

/// Sets with the same members have the same knowledge.
pub fn law_same(left: &Knowledge, right: &Knowledge)
    ensures { (S T : List Op) → HaveSameMembers S T → left.now ≡ table_of S → right.now ≡ table_of T
        → left.now ≡ right.now }
{
    left.known();
    right.known();
}

/// A number fits its type, which a clause does not see by itself.
pub fn law_u32(number: u32)
    ensures { number < 2 ^ 32 }
{
    let _ = number;
}

/// A number fits its type, which a clause does not see by itself.
pub fn law_u64(number: u64)
    ensures { number < 2 ^ 64 }
{
    let _ = number;
}

/// A number fits its type, which a clause does not see by itself.
pub fn law_u128(number: u128)
    ensures { number < 2 ^ 128 }
{
    let _ = number;
}
