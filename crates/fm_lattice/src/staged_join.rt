//! Joins in two steps, so that a join of several maps is made in all of them or in none.
//!
//! If memory ran out between two maps, one would be changed and the other not. `plan_join` allocates all that a join
//! needs and changes no pair; `carry_out` then cannot fail. `join_four` plans for all four maps before it changes one.
//! A plan has either changes in place, or new blocks that replace the present ones.

ghost use Rattle.std.specs.Prelude.{◌≡◌, List, true, IfOk, length};
ghost use Rattle.fm_lattice.specs.Maps.{IsRising, map_join};
ghost use Rattle.fm_lattice.specs.Blocks.{pairs_of};
ghost use Rattle.fm_lattice.specs.inner.BlockOrder.{AreHeaded, IsKept};
ghost use Rattle.fm_lattice.specs.inner.StagedJoins.{IsReady, outcome};

use crate::block::Block;
use crate::blocks::copied_blocks;
use crate::chain::Chain;
use crate::join::{Join, OutOfMemory};
use crate::merging::{apply, changes, counted, is_below, merged};
use std::alloc::Global;

// Blocks that replace the present ones, or changes of these.
#[derive(Drop)]
pub(crate) struct StagedJoin<K: Chain, V: Drop> {
    pub(crate) aside: bool,
    pub(crate) whole: Vec<(K, Block<K, V>)>,
    pub(crate) len: usize,
    pub(crate) changes: Vec<((K, V), Vec<(K, V)>)>,
}

// Plans to join the other pairs in: by changes if they are no more than the blocks here, O(m log n), else by a merge
// into new blocks, O(n + m), unless nothing changes. The changes are of blocks that the map owns. If memory runs out,
// the pairs are unchanged.
#[tactic(auto, using(crate::proofs::Planned::kept_same))]
pub(crate) fn plan_join<K: Chain, V: Join>(
    blocks: &mut Vec<(K, Block<K, V>)>,
    len: usize,
    other: &[(K, Block<K, V>)],
    count: usize,
) -> Result<StagedJoin<K, V>, OutOfMemory>
    requires here { IsKept K.cmp V.is_value blocks.old.items len }
    requires there { IsKept K.cmp V.is_value other.now count }
    ensures pairs { pairs_of blocks.new.items ≡ pairs_of blocks.old.items }
    ensures kept { IsKept K.cmp V.is_value blocks.new.items len }
    ensures ready { IfOk result
        (λ plan. IsReady K.cmp blocks.new len plan.aside plan.whole.items plan.len plan.changes) }
    ensures outcome { IfOk result
        (λ plan. outcome K.cmp (pairs_of blocks.old.items) plan.aside plan.whole.items plan.changes.items
        ≡ map_join K.cmp V.join (pairs_of blocks.old.items) (pairs_of other.now)) }
{
    let alloc = *blocks.allocator();
    if blocks.is_empty() {
        return plan_copy(alloc, other, count);
    }
    if blocks.len() < count {
        if is_below(other, blocks) {
            return Ok(StagedJoin {
                aside: false,
                whole: Vec::new(alloc),
                len,
                changes: Vec::new(alloc),
            });
        }
        return plan_aside(blocks, other);
    }
    let changes = changes(blocks, other, count)?;
    if usize::MAX - len < changes.len() {
        return Err(OutOfMemory);
    }
    blocks.reserve(changes.len())?;
    Ok(StagedJoin {
        aside: false,
        whole: Vec::new(alloc),
        len,
        changes,
    })
}

// The other's pairs, by a pointer to each block that is shared.
fn plan_copy<K: Chain, V: Join>(
    alloc: Global,
    other: &[(K, Block<K, V>)],
    count: usize,
) -> Result<StagedJoin<K, V>, OutOfMemory>
    requires headed { AreHeaded other.now }
    requires counted { count ≡ length (pairs_of other.now) }
    ensures aside { IfOk result (λ plan. plan.aside ≡ true) }
    ensures headed { IfOk result (λ plan. AreHeaded plan.whole.items) }
    ensures counted { IfOk result (λ plan. plan.len ≡ length (pairs_of plan.whole.items)) }
    ensures pairs { IfOk result (λ plan. (plan.aside ≡ true) × (pairs_of plan.whole.items ≡ pairs_of other.now)) }
{
    Ok(StagedJoin {
        aside: true,
        whole: copied_blocks(alloc, other)?,
        len: count,
        changes: Vec::new(alloc),
    })
}

fn plan_aside<K: Chain, V: Join>(
    blocks: &Vec<(K, Block<K, V>)>,
    other: &[(K, Block<K, V>)],
) -> Result<StagedJoin<K, V>, OutOfMemory>
    requires here { AreHeaded blocks.now.items }
    requires there { AreHeaded other.now }
    requires rises { IsRising K.cmp (pairs_of other.now) }
    ensures aside { IfOk result (λ plan. plan.aside ≡ true) }
    ensures headed { IfOk result (λ plan. AreHeaded plan.whole.items) }
    ensures counted { IfOk result (λ plan. plan.len ≡ length (pairs_of plan.whole.items)) }
    ensures pairs { IfOk result (λ plan. pairs_of plan.whole.items
        ≡ map_join K.cmp V.join (pairs_of blocks.now.items) (pairs_of other.now)) }
{
    let alloc = *blocks.allocator();
    let whole = merged(alloc, blocks, other)?;
    let len = counted(&whole)?;
    Ok(StagedJoin {
        aside: true,
        whole,
        len,
        changes: Vec::new(alloc),
    })
}

// Carries the plan out, and returns how many pairs there are then.
pub(crate) fn carry_out<K: Chain, V: Drop>(
    blocks: &mut Vec<(K, Block<K, V>)>,
    len: usize,
    plan: StagedJoin<K, V>,
) -> usize
    requires headed { AreHeaded blocks.old.items }
    requires rising { IsRising K.cmp (pairs_of blocks.old.items) }
    requires counted { len ≡ length (pairs_of blocks.old.items) }
    requires ready { IsReady K.cmp blocks.old len plan.aside plan.whole.items plan.len plan.changes }
    ensures pairs { pairs_of blocks.new.items
        ≡ outcome K.cmp (pairs_of blocks.old.items) plan.aside plan.whole.items plan.changes.items }
    ensures headed { AreHeaded blocks.new.items }
    ensures counted { result ≡ length (pairs_of blocks.new.items) }
{
    if plan.aside {
        *blocks = plan.whole;
        return plan.len;
    }
    len + apply(blocks, plan.changes)
}
