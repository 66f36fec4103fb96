//! Frames: records in a file, so that a record that was not written whole is told from one that is damaged.
//!
//! A crash can leave a front of what was written last, and zeros where the file had already grown. Damage can be anywhere. A frame has
//! two sums: one of the record's length alone, so that a wrong length is not taken for a record that was cut short, and one of its bytes.
//! It ends in 255, so zeros are never the end of a frame.

ghost use Rattle.std.specs.Prelude.{◌≡◌, ◌≢◌, ◌⊎◌, ◌↔◌, ◌++◌, ◌<◌, ◌-◌, ◌+◌, ◌^◌, ℕ, List, [], ◌∷◌, length, take, get_or, IsTrue, IfOk, IfErr, IfSome, OnOk, None};
ghost use Rattle.fm_store.specs.Frames.{length_field, frame};
ghost use Rattle.fm_store.specs.Tails.{HasFrame, IsShort, AreZeros, IsTail};
ghost use Rattle.fm_store.specs.inner.Lengths.{HasLength};
ghost use Rattle.sha2.specs.Sha256.{sha256};

use fm_lattice::join::OutOfMemory;
use sha2::{Digest, Sha256};

// What each frame ends in. It is no zero, and no zero with one bit changed.
const MARK: u8 = 255;

/// Why no further record is read.
#[derive(Debug, Clone, Copy, PartialEq, Eq, Drop)]
pub enum Tail {
    /// There are no more bytes.
    Clean,
    /// A record was not written whole.
    Torn,
    /// The bytes are damaged.
    Damaged,
}

/// Adds the frame of a record with these bytes. O(n). If memory runs out, a part of the frame may have been added.
#[tactic(auto, unfolding(crate::specs::Frames::frame))]
pub fn put_frame(out: &mut Vec<u8>, bytes: &[u8]) -> Result<(), OutOfMemory>
    ensures { OnOk result (out.new.items ≡ out.old.items ++ frame bytes.now) }
{
    put_length(out, bytes.len() as u64)?;
    out.extend_from_slice(&digest_of(bytes))?;
    out.extend_from_slice(bytes)?;
    out.push(MARK)?;
    Ok(())
}

// Adds the length of a record, with its sum.
#[tactic(auto, unfolding(crate::specs::Frames::length_field))]
fn put_length(out: &mut Vec<u8>, length: u64) -> Result<(), OutOfMemory>
    ensures { OnOk result (out.new.items ≡ out.old.items ++ length_field length) }
{
    let number = length.to_be_bytes();
    out.extend_from_slice(&number)?;
    out.extend_from_slice(&sum_of(&number))?;
    Ok(())
}

// The first eight bytes of the SHA-256 of the bytes.
fn sum_of(bytes: &[u8]) -> [u8; 8]
    ensures { result ≡ take 8 (sha256 bytes.now) }
{
    let digest = digest_of(bytes);
    match digest.as_slice().first_chunk::<8>() {
        Some(front) => *front,
        None => [0; 8],
    }
}

// The SHA-256 of the bytes.
fn digest_of(bytes: &[u8]) -> [u8; 32]
    ensures { result ≡ sha256 bytes.now }
{
    Sha256::digest(bytes)
}

/// The record at the front of the bytes, and the bytes behind its frame; or why no frame is there. It allocates
/// nothing. O(n) in the bytes of the frame, or in all if there is none.
pub fn record_at(bytes: &[u8]) -> Result<(&[u8], &[u8]), Tail>
    ensures ok { IfOk result (λ x. bytes.now ≡ frame x.0.now ++ x.1.now) }
    ensures fits { IfOk result (λ x. length x.0.now < 2 ^ 64) }
    ensures err { IfErr result (IsTail bytes.now) }
{
    match whole_at(bytes) {
        Some(found) => Ok(found),
        None => Err(tail_of(bytes)),
    }
}

// The record at the front, and the bytes behind its frame, if there is a whole frame.
fn whole_at(bytes: &[u8]) -> Option<(&[u8], &[u8])>
    ensures some { IfSome result (λ x. bytes.now ≡ frame x.0.now ++ x.1.now) }
    ensures fits { IfSome result (λ x. length x.0.now < 2 ^ 64) }
    ensures none { result ≡ None → HasFrame bytes.now → ⊥ }
{
    let (count, rest) = length_at(bytes)?;
    body_at(count, rest)
}

// The length that is announced at the front, and the bytes behind it, if its sum is right.
fn length_at(bytes: &[u8]) -> Option<(u64, &[u8])>
    ensures some { IfSome result (λ x. bytes.now ≡ length_field x.0 ++ x.1.now) }
    ensures fits { IfSome result (λ x. x.0 < 2 ^ 64) }
    ensures none { result ≡ None → HasLength bytes.now → ⊥ }
{
    let (number, after) = bytes.split_first_chunk::<8>()?;
    let (sum, rest) = after.split_first_chunk::<8>()?;
    if sum_of(number) == *sum {
        Some((u64::from_be_bytes(*number), rest))
    } else {
        None
    }
}

// The record of so many bytes that is behind its digest, and the bytes behind its frame, if they are all there.
fn body_at(count: u64, bytes: &[u8]) -> Option<(&[u8], &[u8])>
    ensures some { IfSome result (λ x. length_field count ++ bytes.now ≡ frame x.0.now ++ x.1.now) }
    ensures fits { IfSome result (λ x. length x.0.now < 2 ^ 64) }
    ensures none { result ≡ None → HasFrame (length_field count ++ bytes.now) → ⊥ }
{
    let (digest, after) = bytes.split_first_chunk::<32>()?;
    if after.len() as u64 <= count {
        return None;
    }
    let (record, behind) = after.split_at(count as usize);
    let (mark, rest) = behind.split_first()?;
    if *mark != MARK {
        return None;
    }
    if digest_of(record) == *digest {
        Some((record, rest))
    } else {
        None
    }
}

// The tail that bytes are which begin with no whole frame.
fn tail_of(bytes: &[u8]) -> Tail
    requires { HasFrame bytes.now → ⊥ }
    ensures { IsTail bytes.now result }
{
    if bytes.is_empty() {
        return Tail::Clean;
    }
    let written = without_zeros(bytes);
    if written.is_empty() || is_short(written) {
        Tail::Torn
    } else {
        Tail::Damaged
    }
}

// The bytes before the zeros that they end in.
pub(crate) fn without_zeros(bytes: &[u8]) -> &[u8]
    ensures zeros { (zeros : List ℕ) × (bytes.now ≡ result.now ++ zeros) × AreZeros zeros }
    ensures last { 0 < length result.now → get_or result.now (length result.now - 1) 0 ≢ 0 }
{
    let mut written = bytes;
    while let Some((0, front)) = written.split_last() {
        written = front;
    }
    written
}

// Whether the bytes may be a front of a frame.
fn is_short(bytes: &[u8]) -> bool
    ensures { IsTrue result ↔ IsShort bytes.now }
{
    if bytes.is_empty() {
        return false;
    }
    if bytes.len() < 16 {
        return true;
    }
    match length_at(bytes) {
        Some((count, rest)) => is_less(rest, count),
        None => false,
    }
}

// Whether the bytes are fewer than are behind the length of a record of so many bytes.
fn is_less(bytes: &[u8], count: u64) -> bool
    ensures { IsTrue result ↔ (length bytes.now < 33 + count) }
{
    bytes.len() < 33 || bytes.len() as u64 - 33 < count
}
