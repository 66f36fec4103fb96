//! Records behind their count, keys rising, so that a map has one spelling.
//!
//! Keys that fall or repeat are a fault at the key. One reader of a record serves to check all of them, without
//! allocating, and then to build the map of them.

ghost use Rattle.std.specs.Prelude.{◌≡◌, ◌<◌, ◌^◌, ◌++◌, [], length, None, OnOk};
ghost use Rattle.fm_wire.specs.declared.version.Version.TheVariants.{Fdg2};
ghost use Rattle.fm_wire.specs.Formats.{comes_after, key_at, record_at, records_at, records};
ghost use Rattle.fm_wire.specs.inner.Decoding.{DecodesTo, Builds, rest_of};

use crate::codec::{Codec, VersionedCodec};
use crate::decode_error::DecodeError;
use crate::number_codecs::{put_u64, u64_at};
use crate::version::Version;
use fm_lattice::chain::Chain;
use fm_lattice::join::{Join, OutOfMemory};
use fm_lattice::map::JoinMap;
use std::alloc::Global;

// Adds the spelling of the map: how many records there are, and each of them. O(n).
pub(crate) fn put_map<K: Chain + Codec, V: Join + VersionedCodec>(
    out: &mut Vec<u8>,
    map: &JoinMap<K, V>,
) -> Result<(), OutOfMemory>
    ensures ok { OnOk result (out.new.items ≡ out.old.items ++ (records K.cmp K.format (V.format Fdg2)).spell map.now) }
    ensures fits { length map.now < 2 ^ 64 }
{
    put_u64(out, map.len() as u64)?;
    for (key, value) in map.iter() {
        key.put(out)?;
        value.put(out)?;
    }
    Ok(())
}

// Whether the key comes after the last one, if there was one.
fn comes_after<K: Chain>(last: Option<K>, key: K) -> bool
    ensures { result ≡ comes_after K.cmp last key }
{
    match last {
        None => true,
        Some(last) => last.cmp(&key).is_lt(),
    }
}

// The key at the front, if it comes after the last one.
#[tactic(auto, unfolding(crate::specs::Formats::key_at))]
pub(crate) fn key_at<K: Chain + Codec>(last: Option<K>, bytes: &[u8]) -> Result<(K, &[u8]), usize>
    ensures { DecodesTo (λ x. (x.0, x.1.now)) result (key_at K.cmp K.format last bytes.now) }
{
    let (key, rest) = K::at(bytes)?;
    if !comes_after(last, key) {
        return Err(bytes.len());
    }
    Ok((key, rest))
}

// The record at the front, if its key comes after the last one.
#[tactic(auto, unfolding(crate::specs::Formats::record_at))]
fn record_at<K: Chain + Codec, V: Join + VersionedCodec>(
    version: Version,
    last: Option<K>,
    bytes: &[u8],
) -> Result<((K, V), &[u8]), usize>
    ensures { DecodesTo (λ x. (x.0, x.1.now)) result (record_at K.cmp K.format (V.format version) last bytes.now) }
{
    let (key, rest) = key_at(last, bytes)?;
    let (value, rest) = V::at(version, rest)?;
    Ok(((key, value), rest))
}

// Checks the records that the version spells at the front, without allocating, and returns the bytes after them or
// the first fault. O(n).
pub(crate) fn rest_of_map<K: Chain + Codec, V: Join + VersionedCodec>(
    version: Version,
    bytes: &[u8],
) -> Result<&[u8], usize>
    ensures { DecodesTo (λ rest. rest.now) result
        (rest_of ((records K.cmp K.format (V.format version)).read bytes.now)) }
{
    let (count, rest) = u64_at(bytes)?;
    rest_of_records::<K, V>(version, count, rest)
}

// Checks the given number of records.
fn rest_of_records<K: Chain + Codec, V: Join + VersionedCodec>(
    version: Version,
    count: u64,
    bytes: &[u8],
) -> Result<&[u8], usize>
    ensures { DecodesTo (λ rest. rest.now) result (rest_of
        (records_at K.cmp K.format (V.format version) count None bytes.now)) }
{
    let mut last: Option<K> = None;
    let mut rest = bytes;
    for _ in 0..count {
        let (record, after) = record_at::<K, V>(version, last, rest)?;
        last = Some(record.0);
        rest = after;
    }
    Ok(rest)
}

// The map of the records that the version spells at the front, and the bytes after them. O(n log n).
pub(crate) fn map_at<K: Chain + Codec, V: Join + VersionedCodec>(
    alloc: Global,
    version: Version,
    bytes: &[u8],
) -> Result<(JoinMap<K, V>, &[u8]), DecodeError>
    ensures { Builds (λ x. (x.0, x.1.now)) result ((records K.cmp K.format (V.format version)).read bytes.now) }
{
    let (count, rest) = u64_at(bytes)?;
    records_at(alloc, version, count, rest)
}

// The map of the given number of records.
fn records_at<K: Chain + Codec, V: Join + VersionedCodec>(
    alloc: Global,
    version: Version,
    count: u64,
    bytes: &[u8],
) -> Result<(JoinMap<K, V>, &[u8]), DecodeError>
    ensures { Builds (λ x. (x.0, x.1.now)) result (records_at K.cmp K.format (V.format version) count None bytes.now) }
{
    let mut map = JoinMap::new(alloc);
    let rest = read_records(&mut map, version, count, bytes)?;
    Ok((map, rest))
}

// Reads the given number of records into the map, which is empty, and gives the bytes after them.
fn read_records<'a, K: Chain + Codec, V: Join + VersionedCodec>(
    map: &mut JoinMap<K, V>,
    version: Version,
    count: u64,
    bytes: &'a [u8],
) -> Result<&'a [u8], DecodeError>
    requires { map.old ≡ [] }
    ensures { Builds (λ rest. (map.new, rest.now)) result
        (records_at K.cmp K.format (V.format version) count None bytes.now) }
{
    let mut last: Option<K> = None;
    let mut rest = bytes;
    for _ in 0..count {
        let ((key, value), after) = record_at::<K, V>(version, last, rest)?;
        map.put(key, value)?;
        last = Some(key);
        rest = after;
    }
    Ok(rest)
}
