//! Heads: whose packets a store has.
//!
//! Two clusters may use the same ids for different jobs, so what is known of one must never be merged into the other. The first record of
//! a store therefore names its cluster, by a label that the embedder chooses and by the coordinators as they were first listed. A store
//! is opened only by the same head.

ghost use Rattle.std.specs.Prelude.{◌≡◌, ◌≤◌, ◌++◌, ◌∷◌, ℕ, List, length, None, IsTrue, IfSome, IfOk, OnOk, string_bytes};
ghost use Rattle.std.specs.List.{list_all};
ghost use Rattle.fm_records.specs.Ids.{is_coordinator};
ghost use Rattle.fm_store.specs.Heads.{HeadModel, IsHead, IsHeadRecord, has_repeat, head_record};

use fm_lattice::join::OutOfMemory;
use fm_records::ids::CoordId;
use std::alloc::Global;
use std::marker::Model;

/// How many bytes a label may have.
pub const MOST_LABEL_BYTES: usize = 200;

/// How many coordinators a head may list.
pub const MOST_COORDINATORS: usize = 64;

/// A cluster: its label, and its coordinators in the order in which they were first listed.
#[derive(Drop)]
pub struct Head {
    label: String,
    numbers: Vec<CoordId>,
}

impl Model for Head {
    ghost use Rattle.std.specs.Prelude.{string_bytes};
    ghost use Rattle.fm_store.specs.Heads.{HeadModel, IsHead};

    ghost Value = { HeadModel };

    ghost view = { λ h. record { label = string_bytes h.label; numbers = h.numbers.items } };

    ghost invariant = { λ h. IsHead (record { label = string_bytes h.label; numbers = h.numbers.items }) };
}

impl Head {
    /// The head of the cluster with this label and these coordinators. None if the label has more than 200 bytes, more
    /// than 64 coordinators are listed, or one is listed twice. The label may be empty. It allocates nothing. O(n²) in
    /// the number of coordinators.
    pub fn new(label: String, numbers: Vec<CoordId>) -> Option<Head>
        ensures some { IfSome result (λ head. head ≡ record { label = string_bytes label; numbers = numbers.items }) }
        ensures valid { IfSome result (λ head. IsHead head) }
        ensures none { result ≡ None → IsHead (record { label = string_bytes label; numbers = numbers.items }) → ⊥ }
    {
        if label.as_bytes().len() > MOST_LABEL_BYTES {
            return None;
        }
        if numbers.len() > MOST_COORDINATORS {
            return None;
        }
        if has_repeat(&numbers) {
            return None;
        }
        Some(Head { label, numbers })
    }

    // The bytes of the head's record.
    pub(crate) fn to_bytes(&self, alloc: Global) -> Result<Vec<u8>, OutOfMemory>
        ensures { IfOk result (λ bytes. bytes.items ≡ head_record self.now) }
    {
        let mut bytes = Vec::new(alloc);
        bytes.push(self.numbers.len() as u8)?;
        put_numbers(&mut bytes, &self.numbers)?;
        bytes.extend_from_slice(self.label.as_bytes())?;
        Ok(bytes)
    }
}

/// What the record of a head says: its coordinators in their order, and the bytes of its label. None if the bytes are not the
/// record of a head; that the label is UTF-8 is not tested. O(n²) in the number of coordinators.
pub fn head_in(alloc: Global, bytes: &[u8]) -> Result<Option<(Vec<CoordId>, &[u8])>, OutOfMemory>
    ensures some { IfOk result (λ found. IfSome found (λ x.
        IsHeadRecord (record { label = x.1.now; numbers = x.0.items }) bytes.now)) }
    ensures none { IfOk result (λ found. found ≡ None → (head : HeadModel) → IsHeadRecord head bytes.now → ⊥) }
{
    let Some((listed, label)) = head_parts(bytes) else {
        return Ok(None);
    };
    let Some(numbers) = numbers_in(alloc, listed)? else {
        return Ok(None);
    };
    if label.len() > MOST_LABEL_BYTES || has_repeat(&numbers) {
        return Ok(None);
    }
    Ok(Some((numbers, label)))
}

// The numbers, and the bytes behind them, if the first byte says how many there are, and these are 64 at most.
fn head_parts(bytes: &[u8]) -> Option<(&[u8], &[u8])>
    ensures some { IfSome result (λ x. bytes.now ≡ length x.0.now ∷ (x.0.now ++ x.1.now)) }
    ensures few { IfSome result (λ x. length x.0.now ≤ 64) }
    ensures none { result ≡ None → (numbers rest : List ℕ) → length numbers ≤ 64
        → bytes.now ≡ length numbers ∷ (numbers ++ rest) → ⊥ }
{
    let (first, rest) = bytes.split_first()?;
    let count = usize::from(*first);
    if count > MOST_COORDINATORS || count > rest.len() {
        return None;
    }
    Some(rest.split_at(count))
}

// The coordinators of these numbers, if each number is that of one.
fn numbers_in(alloc: Global, bytes: &[u8]) -> Result<Option<Vec<CoordId>>, OutOfMemory>
    ensures some { IfOk result (λ found. IfSome found (λ numbers. numbers.items ≡ bytes.now)) }
    ensures are { IfOk result (λ found. IfSome found (λ numbers. IsTrue (list_all is_coordinator bytes.now))) }
    ensures none { IfOk result (λ found. found ≡ None → IsTrue (list_all is_coordinator bytes.now) → ⊥) }
{
    let mut numbers = Vec::new(alloc);
    for byte in bytes {
        let Some(number) = CoordId::new(*byte) else {
            return Ok(None);
        };
        numbers.push(number)?;
    }
    Ok(Some(numbers))
}

// Whether a coordinator is listed twice.
fn has_repeat(numbers: &[CoordId]) -> bool
    ensures { result ≡ has_repeat numbers.now }
{
    match numbers.split_first() {
        None => false,
        Some((first, rest)) => rest.contains(first) || has_repeat(rest),
    }
}

// Adds the numbers, each in a byte.
fn put_numbers(out: &mut Vec<u8>, numbers: &[CoordId]) -> Result<(), OutOfMemory>
    ensures { OnOk result (out.new.items ≡ out.old.items ++ numbers.now) }
{
    for number in numbers {
        out.push(number.value())?;
    }
    Ok(())
}
