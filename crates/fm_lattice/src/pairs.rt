//! The pairs of blocks, one after another.

ghost use Rattle.std.specs.Prelude.{◌≡◌, ◌∷◌, List, [], ◌++◌, drop, MatchOption};
ghost use Rattle.std.specs.Iterator.{YieldsFirstBy, item_count};
ghost use Rattle.fm_lattice.specs.Blocks.{pairs_of};
ghost use Rattle.fm_lattice.specs.inner.BlockOrder.{AreHeaded};

use crate::block::Block;
use std::marker::Model;

/// The pairs of a map that are left, with keys rising.
#[derive(Drop)]
pub struct Pairs<'a, K, V> {
    rest: &'a [(K, V)],
    later: &'a [(K, Block<K, V>)],
}

impl<'a, K, V> Model for Pairs<'a, K, V> {
    ghost Value = { List (K × V) };

    ghost view = { λ s. s.rest.now ++ pairs_of s.later.now };

    ghost invariant = { λ s. AreHeaded s.later.now };
}

impl<'a, K, V> Pairs<'a, K, V> {
    // The pairs of the blocks.
    pub(crate) fn of(blocks: &'a [(K, Block<K, V>)]) -> Pairs<'a, K, V>
        requires { AreHeaded blocks.now }
        ensures { result ≡ pairs_of blocks.now }
    {
        Pairs {
            rest: &[],
            later: blocks,
        }
    }

    // The first pair, which stays.
    pub(crate) fn first(&self) -> Option<&'a (K, V)>
        ensures { MatchOption result (self.now ≡ []) (λ pair. self.now ≡ pair.now ∷ drop 1 self.now) }
    {
        if let Some(pair) = self.rest.first() {
            return Some(pair);
        }
        let (block, _) = self.later.split_first()?;
        block.1.pairs().first()
    }

    // Goes behind the first pair.
    pub(crate) fn skip_first(&mut self)
        ensures { self.new ≡ drop 1 self.old }
    {
        if !self.rest.is_empty() {
            self.rest = &self.rest[1..];
        } else if let Some((block, later)) = self.later.split_first() {
            self.rest = &block.1.pairs()[1..];
            self.later = later;
        }
    }
}

impl<'a, K, V> Iterator for Pairs<'a, K, V> {
    type Item = (&'a K, &'a V);

    ghost next_gives = { YieldsFirstBy (λ pair. (pair.0.now, pair.1.now)) (λ s. s) };

    ghost remaining = { item_count (λ s. s) };

    fn next(&mut self) -> Option<(&'a K, &'a V)> {
        let pair = self.first()?;
        self.skip_first();
        Some((&pair.0, &pair.1))
    }
}
