//! Numbers as bytes, the most significant first, each with its range.
//!
//! The readers return the number and the bytes after it. At a fault they return how many bytes there are from it to the
//! end. That is 0 if they end too early, and all if the number is out of its range.

ghost use Rattle.std.specs.Prelude.{◌≡◌, ◌++◌, ◌-◌, ◌^◌, ◌≤◌, OnOk, IfOk};
ghost use Rattle.std.specs.Int.{w8, w32, w64, w128};
ghost use Rattle.fm_wire.specs.Formats.{number_at, bytes_of};
ghost use Rattle.fm_wire.specs.inner.Decoding.{DecodesTo};

use fm_lattice::join::OutOfMemory;

// The number of one byte, from least to greatest.
#[tactic(auto, unfolding(crate::specs::Formats::number_at))]
pub(crate) fn u8_at(bytes: &[u8], least: u8, greatest: u8) -> Result<(u8, &[u8]), usize>
    ensures number { DecodesTo (λ x. (x.0, x.1.now)) result (number_at w8 least greatest bytes.now) }
    ensures least { IfOk result (λ x. least ≤ x.0) }
    ensures greatest { IfOk result (λ x. x.0 ≤ greatest) }
{
    let (first, rest) = bytes.split_first().ok_or(0usize)?;
    if *first < least || *first > greatest {
        return Err(bytes.len());
    }
    Ok((*first, rest))
}

// The number of four bytes, from least to greatest.
#[tactic(auto, unfolding(crate::specs::Formats::number_at))]
pub(crate) fn u32_at(bytes: &[u8], least: u32, greatest: u32) -> Result<(u32, &[u8]), usize>
    ensures { DecodesTo (λ x. (x.0, x.1.now)) result (number_at w32 least greatest bytes.now) }
{
    let (front, rest) = bytes.split_first_chunk::<4>().ok_or(0usize)?;
    let number = u32::from_be_bytes(*front);
    if number < least || number > greatest {
        return Err(bytes.len());
    }
    Ok((number, rest))
}

// The number of eight bytes.
#[tactic(auto, unfolding(crate::specs::Formats::number_at))]
pub(crate) fn u64_at(bytes: &[u8]) -> Result<(u64, &[u8]), usize>
    ensures { DecodesTo (λ x. (x.0, x.1.now)) result (number_at w64 0 (2 ^ 64 - 1) bytes.now) }
{
    let (front, rest) = bytes.split_first_chunk::<8>().ok_or(0usize)?;
    Ok((u64::from_be_bytes(*front), rest))
}

// The number of sixteen bytes.
#[tactic(auto, unfolding(crate::specs::Formats::number_at))]
pub(crate) fn u128_at(bytes: &[u8]) -> Result<(u128, &[u8]), usize>
    ensures { DecodesTo (λ x. (x.0, x.1.now)) result (number_at w128 0 (2 ^ 128 - 1) bytes.now) }
{
    let (front, rest) = bytes.split_first_chunk::<16>().ok_or(0usize)?;
    Ok((u128::from_be_bytes(*front), rest))
}

// Adds the number at the end, as one byte.
#[tactic(auto, unfolding(crate::specs::Formats::bytes_of))]
pub(crate) fn put_u8(out: &mut Vec<u8>, number: u8) -> Result<(), OutOfMemory>
    ensures { OnOk result (out.new.items ≡ out.old.items ++ bytes_of w8 number) }
{
    out.push(number)?;
    Ok(())
}

// Adds the number at the end, as four bytes.
#[tactic(auto, unfolding(crate::specs::Formats::bytes_of))]
pub(crate) fn put_u32(out: &mut Vec<u8>, number: u32) -> Result<(), OutOfMemory>
    ensures { OnOk result (out.new.items ≡ out.old.items ++ bytes_of w32 number) }
{
    out.extend_from_slice(&number.to_be_bytes())?;
    Ok(())
}

// Adds the number at the end, as eight bytes.
#[tactic(auto, unfolding(crate::specs::Formats::bytes_of))]
pub(crate) fn put_u64(out: &mut Vec<u8>, number: u64) -> Result<(), OutOfMemory>
    ensures { OnOk result (out.new.items ≡ out.old.items ++ bytes_of w64 number) }
{
    out.extend_from_slice(&number.to_be_bytes())?;
    Ok(())
}

// Adds the number at the end, as sixteen bytes.
#[tactic(auto, unfolding(crate::specs::Formats::bytes_of))]
pub(crate) fn put_u128(out: &mut Vec<u8>, number: u128) -> Result<(), OutOfMemory>
    ensures { OnOk result (out.new.items ≡ out.old.items ++ bytes_of w128 number) }
{
    out.extend_from_slice(&number.to_be_bytes())?;
    Ok(())
}
