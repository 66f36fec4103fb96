//! Pairs in order of their keys, in one array: finding a key, setting the value at one, and taking a pair out.
//!
//! Most keys come in order. One after the last is found by one comparison and pushed, in amortised O(1). Any other is
//! found by binary search, O(log n), and a new one moves the pairs after it, O(n).

ghost use Rattle.std.specs.Prelude.{◌≡◌, ◌+◌, ◌≤◌, ◌<◌, None, IfOk, IfErr, OnOk, OnErr, length, vec_len, vec_capacity};
ghost use Rattle.std.specs.List.{insert};
ghost use Rattle.std.specs.BTreeMap.{is_at};
ghost use Rattle.std.specs.Map.{remove_entry};
ghost use Rattle.fm_lattice.specs.Chains.{TellsApart};
ghost use Rattle.fm_lattice.specs.Maps.{IsRising, lookup, put, keep_new};
ghost use Rattle.fm_lattice.specs.inner.SortedVec.{HasKeyAt, IsInsertionIndex};

use crate::chain::Chain;
use crate::join::OutOfMemory;

// Where the key is, or where it would go. O(log n), and one comparison for a key after the last.
pub(crate) fn search<K: Ord + Copy, V>(pairs: &[(K, V)], key: &K) -> Result<usize, usize>
    requires exact { TellsApart K.cmp }
    requires rising { IsRising K.cmp pairs.now }
    ensures found { IfOk result (HasKeyAt K.cmp pairs.now key.now) }
    ensures absent { IfErr result (IsInsertionIndex K.cmp pairs.now key.now) }
{
    let count = pairs.len();
    if count == 0 {
        return Err(0);
    }
    if pairs[count - 1].0.cmp(key).is_lt() {
        return Err(count);
    }
    pairs.binary_search_by_key(key, |pair| pair.0)
}

/// The value at the key, if the key is there. O(log n).
pub fn get<K: Ord + Copy, V: Copy>(pairs: &[(K, V)], key: &K) -> Option<V>
    requires exact { TellsApart K.cmp }
    requires rising { IsRising K.cmp pairs.now }
    ensures { result ≡ lookup K.cmp key.now pairs.now }
{
    match search(pairs, key) {
        Ok(at) => Some(pairs[at].1),
        Err(_) => None,
    }
}

/// As `get`, and looks at the place near before it searches: if the key is there, in one comparison.
pub fn get_hinted<K: Ord + Copy, V: Copy>(pairs: &[(K, V)], near: usize, key: &K) -> Option<V>
    requires exact { TellsApart K.cmp }
    requires rising { IsRising K.cmp pairs.now }
    ensures { result ≡ lookup K.cmp key.now pairs.now }
{
    if near < pairs.len() {
        let pair = &pairs[near];
        if pair.0.cmp(key).is_eq() {
            return Some(pair.1);
        }
    }
    get(pairs, key)
}

/// Sets the value at the key, and gives the one that was there. If memory runs out, the pairs are unchanged. A
/// key after the last is pushed, in amortised O(1); a key that is there is found in O(log n); before any other new key
/// the pairs after it move, in O(n).
pub fn insert<K: Ord + Copy, V: Copy>(
    pairs: &mut Vec<(K, V)>,
    key: K,
    value: V,
) -> Result<Option<V>, OutOfMemory>
    requires exact { TellsApart K.cmp }
    requires rising { IsRising K.cmp pairs.old.items }
    ensures ok { OnOk result (pairs.new.items ≡ put K.cmp keep_new key value pairs.old.items) }
    ensures old { IfOk result (λ old. old ≡ lookup K.cmp key pairs.old.items) }
    ensures err { OnErr result (pairs.new.items ≡ pairs.old.items) }
    ensures rises { IsRising K.cmp pairs.new.items }
{
    match search(pairs, &key) {
        Ok(at) => {
            let old = pairs[at].1;
            pairs[at].1 = value;
            Ok(Some(old))
        }
        Err(at) => {
            put_in(pairs, at, (key, value))?;
            Ok(None)
        }
    }
}

// Puts a pair at the place, and moves those after it. At the end, where most come, it is pushed, which costs less.
fn put_in<T: Copy>(pairs: &mut Vec<T>, at: usize, pair: T) -> Result<(), OutOfMemory>
    requires { at ≤ length pairs.old.items }
    ensures ok { OnOk result (pairs.new.items ≡ insert pairs.old.items at pair) }
    ensures err { OnErr result (pairs.new.items ≡ pairs.old.items) }
{
    if at == pairs.len() {
        pairs.push(pair)?;
    } else {
        pairs.insert(at, pair)?;
    }
    Ok(())
}

/// As `insert`, if the key is there or there is room for it, so that nothing can fail and nothing is allocated. The caller must
/// ensure that.
pub fn set_within<K: Chain, V: Drop>(pairs: &mut Vec<(K, V)>, key: K, value: V)
    requires rising { IsRising K.cmp pairs.old.items }
    requires room { lookup K.cmp key pairs.old.items ≡ None → vec_len pairs.old < vec_capacity pairs.old }
    ensures items { pairs.new.items ≡ put K.cmp keep_new key value pairs.old.items }
    ensures keeps { vec_len pairs.old ≤ vec_len pairs.new }
    ensures grows { vec_len pairs.new ≤ vec_len pairs.old + 1 }
{
    match search(pairs, &key) {
        Ok(at) => pairs[at].1 = value,
        Err(at) => pairs.insert(at, (key, value)).unwrap(),
    }
}

/// Takes the pair at the key out, and gives its value, if the key was there. It is found in O(log n), and the pairs
/// after it move, in O(n).
pub fn remove<K: Ord + Copy, V: Copy>(pairs: &mut Vec<(K, V)>, key: &K) -> Option<V>
    requires exact { TellsApart K.cmp }
    requires rising { IsRising K.cmp pairs.old.items }
    ensures without { pairs.new.items ≡ remove_entry (is_at (K.cmp key.now)) pairs.old.items }
    ensures rises { IsRising K.cmp pairs.new.items }
    ensures stood { result ≡ lookup K.cmp key.now pairs.old.items }
{
    match search(pairs, key) {
        Ok(at) => Some(pairs.remove(at).1),
        Err(_) => None,
    }
}
