//! Pairs by rising key in one vector: a map that is quick to fill in order and to walk over.

ghost use Rattle.std.specs.Prelude.{◌≡◌, [], Some, None, IfSome, IsNone, IfOk, OnOk, OnErr};
ghost use Rattle.fm_lattice.specs.Maps.{lookup, put, keep_new, IsRising};
ghost use Rattle.fm_lattice.specs.inner.SortedVec.{HasKeyAt};

use fm_lattice::chain::Chain;
use fm_lattice::join::OutOfMemory;
use fm_lattice::sorted_vec::{get, get_hinted, insert};
use std::alloc::Global;
use std::marker::Model;

/// A map whose pairs lie in one vector, by rising key: quick to fill in order and to walk over.
#[derive(Drop)]
pub struct Sorted<K: Chain, V: Copy> {
    pairs: Vec<(K, V)>,
}

impl<K: Chain, V: Copy> Model for Sorted<K, V> {
    ghost use Rattle.std.specs.Prelude.{List};
    ghost use Rattle.fm_lattice.specs.Maps.{IsRising};

    ghost Value = { List (K × V) };

    ghost view = { λ s. s.pairs.items };

    ghost invariant = { λ s. IsRising K.cmp s.pairs.items };
}

impl<K: Chain, V: Copy> Sorted<K, V> {
    /// No pairs. It takes no memory.
    pub fn new(alloc: Global) -> Self
        ensures { result ≡ [] }
    {
        Sorted {
            pairs: Vec::new(alloc),
        }
    }

    /// The map of these pairs, whose keys must rise.
    pub fn of(pairs: Vec<(K, V)>) -> Self
        requires { IsRising K.cmp pairs.items }
        ensures { result ≡ pairs.items }
    {
        Sorted { pairs }
    }

    /// The value at the key, if it is there. O(log n).
    pub fn get(&self, key: &K) -> Option<V>
        ensures { result ≡ lookup K.cmp key.now self.now }
    {
        get(&self.pairs, key)
    }

    /// As `get`, and looks at the index near before it searches: if the key is there, in one comparison.
    pub fn get_near(&self, near: usize, key: &K) -> Option<V>
        ensures { result ≡ lookup K.cmp key.now self.now }
    {
        get_hinted(&self.pairs, near, key)
    }

    /// Where the key is, if it is there. O(log n).
    pub(crate) fn index(&self, key: &K) -> Option<usize>
        ensures found { IfSome result (HasKeyAt K.cmp self.now key.now) }
        ensures absent { IsNone result → lookup K.cmp key.now self.now ≡ None }
        ensures rising { IsRising K.cmp self.now }
    {
        match self.pairs.binary_search_by_key(key, |pair| pair.0) {
            Ok(at) => Some(at),
            Err(_) => None,
        }
    }

    /// As `index`, and looks at the index near before it searches: if the key is there, in one comparison.
    pub(crate) fn index_near(&self, near: usize, key: &K) -> Option<usize>
        ensures found { IfSome result (HasKeyAt K.cmp self.now key.now) }
        ensures absent { IsNone result → lookup K.cmp key.now self.now ≡ None }
        ensures rising { IsRising K.cmp self.now }
    {
        if near < self.pairs.len() {
            let pair = self.pairs[near];
            if pair.0.cmp(key).is_eq() {
                return Some(near);
            }
        }
        self.index(key)
    }

    /// The value at the key, of which the caller passes the index.
    pub(crate) fn value(&self, at: usize, key: &K) -> V
        requires { HasKeyAt K.cmp self.now key.now at }
        ensures { lookup K.cmp key.now self.now ≡ Some result }
    {
        self.pairs[at].1
    }

    /// Replaces the value at the key, of which the caller passes the index.
    pub(crate) fn replace(&mut self, at: usize, key: K, value: V)
        requires { HasKeyAt K.cmp self.old key at }
        ensures { self.new ≡ put K.cmp keep_new key value self.old }
    {
        self.pairs[at].1 = value;
    }

    /// Puts the value at the key, and answers the one that was there. After a refusal of memory nothing has changed. Amortised O(1)
    /// behind the last key, O(log n) at a key that is there, and O(n) before others.
    pub fn put(&mut self, key: K, value: V) -> Result<Option<V>, OutOfMemory>
        ensures ok { OnOk result (self.new ≡ put K.cmp keep_new key value self.old) }
        ensures stood { IfOk result (λ old. old ≡ lookup K.cmp key self.old) }
        ensures err { OnErr result (self.new ≡ self.old) }
    {
        insert(&mut self.pairs, key, value)
    }

    /// The pairs, by rising key.
    pub fn pairs(&self) -> &[(K, V)]
        ensures pairs { result.now ≡ self.now }
        ensures rising { IsRising K.cmp result.now }
    {
        self.pairs.as_slice()
    }
}
