//! Merges of plain values, of which the merges of records are put together.
//!
//! So no record needs a proof of its own that it merges. `Max` and `Min` are those of a total order, `Opt` adds a least
//! value, `Both` is the product, and `Lex` the lexicographic product. See Baquero, Almeida, Cunha and Ferreira,
//! "Composition in state-based replicated data types" (2017).

ghost use Rattle.std.specs.Prelude.{◌≡◌};
ghost use Rattle.fm_lattice.specs.Joins.{Any, IsOptionOf, IsPairOf, IsLexOf, max_join, min_join, option_join, pair_join, lex_join};
ghost use Rattle.fm_lattice.specs.laws.PlainLaws.{max_laws, min_laws, option_laws, pair_laws, lex_laws};

use crate::chain::Chain;
use crate::join::{Join, OutOfMemory, copied};
use std::cmp::Ordering;
use std::marker::Model;

/// Merges to the greater.
#[derive(Debug, Drop, Clone, Copy, PartialEq, Eq)]
pub struct Max<T>(pub T);

impl<T> Model for Max<T> {
    ghost use Rattle.std.specs.Prelude.{ℕ};

    ghost Value = { T };

    ghost view = { λ m. m.0 };

    ghost inverse = { λ t. record { 0 = t } };
}

impl<T: Chain> Join for Max<T> {
    ghost is_value = { Any };

    ghost join = { max_join T.cmp };

    fn known(&self) {}

    fn joined(&self, other: &Max<T>) -> Result<Max<T>, OutOfMemory> {
        Ok(Max(self.0.max(other.0)))
    }

    fn leq(&self, other: &Max<T>) -> bool {
        self.0 <= other.0
    }

    ghost laws = { max_laws T.cmp T.total T.same };
}

/// Merges to the value with the greater first part, and merges the second parts if the first are equal.
#[derive(Debug, Drop, Clone, Copy, PartialEq, Eq)]
pub struct Lex<A, B>(pub A, pub B);

impl<A, B> Model for Lex<A, B> {
    ghost use Rattle.std.specs.Prelude.{ℕ};

    ghost Value = { A × B };

    ghost view = { λ m. (m.0, m.1) };

    ghost inverse = { λ t. record { 0 = t.0; 1 = t.1 } };
}

impl<A: Chain, B: Join> Join for Lex<A, B> {
    ghost is_value = { IsLexOf B.is_value };

    ghost join = { lex_join A.cmp B.join };

    fn known(&self) {
        self.1.known();
    }

    fn joined(&self, other: &Lex<A, B>) -> Result<Lex<A, B>, OutOfMemory> {
        match self.0.cmp(&other.0) {
            Ordering::Less => Ok(Lex(other.0, copied(&other.1)?)),
            Ordering::Equal => Ok(Lex(self.0, self.1.joined(&other.1)?)),
            Ordering::Greater => Ok(Lex(self.0, copied(&self.1)?)),
        }
    }

    fn leq(&self, other: &Lex<A, B>) -> bool {
        match self.0.cmp(&other.0) {
            Ordering::Less => true,
            Ordering::Equal => self.1.leq(&other.1),
            Ordering::Greater => false,
        }
    }

    ghost laws = { lex_laws A.cmp A.total A.same B.is_value B.join B.laws };
}

/// Merges to the lesser.
#[derive(Debug, Drop, Clone, Copy, PartialEq, Eq)]
pub struct Min<T>(pub T);

impl<T> Model for Min<T> {
    ghost use Rattle.std.specs.Prelude.{ℕ};

    ghost Value = { T };

    ghost view = { λ m. m.0 };

    ghost inverse = { λ t. record { 0 = t } };
}

impl<T: Chain> Join for Min<T> {
    ghost is_value = { Any };

    ghost join = { min_join T.cmp };

    fn known(&self) {}

    fn joined(&self, other: &Min<T>) -> Result<Min<T>, OutOfMemory> {
        Ok(Min(self.0.min(other.0)))
    }

    fn leq(&self, other: &Min<T>) -> bool {
        other.0 <= self.0
    }

    ghost laws = { min_laws T.cmp T.total T.same };
}

/// A value or none, which is below all values.
#[derive(Debug, Drop, Clone, Copy, PartialEq, Eq)]
pub struct Opt<T>(pub Option<T>);

impl<T> Model for Opt<T> {
    ghost use Rattle.std.specs.Prelude.{Option};

    ghost Value = { Option T };

    ghost view = { λ m. m.0 };

    ghost inverse = { λ t. record { 0 = t } };
}

impl<T: Join> Join for Opt<T> {
    ghost is_value = { IsOptionOf T.is_value };

    ghost join = { option_join T.join };

    fn known(&self) {
        if let Some(value) = &self.0 {
            value.known();
        }
    }

    fn joined(&self, other: &Opt<T>) -> Result<Opt<T>, OutOfMemory> {
        match (&self.0, &other.0) {
            (None, None) => Ok(Opt(None)),
            (None, Some(value)) | (Some(value), None) => Ok(Opt(Some(copied(value)?))),
            (Some(here), Some(there)) => Ok(Opt(Some(here.joined(there)?))),
        }
    }

    fn leq(&self, other: &Opt<T>) -> bool {
        match (&self.0, &other.0) {
            (None, _) => true,
            (Some(_), None) => false,
            (Some(here), Some(there)) => here.leq(there),
        }
    }

    ghost laws = { option_laws T.is_value T.join T.laws };
}

/// Merges part by part.
#[derive(Debug, Drop, Clone, Copy, PartialEq, Eq)]
pub struct Both<A, B>(pub A, pub B);

impl<A, B> Model for Both<A, B> {
    ghost use Rattle.std.specs.Prelude.{ℕ};

    ghost Value = { A × B };

    ghost view = { λ m. (m.0, m.1) };

    ghost inverse = { λ t. record { 0 = t.0; 1 = t.1 } };
}

impl<A: Join, B: Join> Join for Both<A, B> {
    ghost is_value = { IsPairOf A.is_value B.is_value };

    ghost join = { pair_join A.join B.join };

    fn known(&self) {
        self.0.known();
        self.1.known();
    }

    fn joined(&self, other: &Both<A, B>) -> Result<Both<A, B>, OutOfMemory> {
        Ok(Both(self.0.joined(&other.0)?, self.1.joined(&other.1)?))
    }

    fn leq(&self, other: &Both<A, B>) -> bool {
        self.0.leq(&other.0) && self.1.leq(&other.1)
    }

    ghost laws = { pair_laws A.is_value A.join B.is_value B.join A.laws B.laws };
}
