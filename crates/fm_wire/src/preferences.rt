//! The machines that a task prefers, which end a spec in the version that has them.

ghost use Rattle.std.specs.Prelude.{◌≡◌, ◌≤◌, ◌++◌, None, OnOk};
ghost use Rattle.std.specs.Ordering.{nat_cmp};
ghost use Rattle.fm_wire.specs.declared.version.Version.TheVariants.{Fdg2};
ghost use Rattle.fm_wire.specs.Formats.{record_at, records_at};
ghost use Rattle.fm_wire.specs.Grammar.{id, price_field, preferences};
ghost use Rattle.fm_wire.specs.inner.Decoding.{DecodesTo};

use crate::number_codecs::{put_u8, put_u32, put_u128, u8_at, u32_at};
use crate::record_lists::key_at;
use crate::version::Version;
use fm_lattice::join::OutOfMemory;
use fm_records::ids::MachineId;
use fm_records::ops::MOST_PRICE;
use fm_records::prefer::Prefer;

// Adds the spelling: how many machines there are, and each with its credit.
#[tactic(auto, unfolding(crate::specs::Grammar::preferences))]
pub(crate) fn put_preferences(out: &mut Vec<u8>, prefer: &Prefer) -> Result<(), OutOfMemory>
    ensures { OnOk result (out.new.items ≡ out.old.items ++ (preferences Fdg2).spell prefer.now) }
{
    let entries = prefer.entries();
    put_u8(out, entries.len() as u8)?;
    for (machine, credit) in entries {
        put_u128(out, machine.value())?;
        put_u32(out, *credit)?;
    }
    Ok(())
}

// The machines that the version spells at the front.
#[tactic(auto, unfolding(crate::specs::Grammar::preferences))]
pub(crate) fn preferences_at(version: Version, bytes: &[u8]) -> Result<(Prefer, &[u8]), usize>
    ensures { DecodesTo (λ x. (x.0, x.1.now)) result ((preferences version).read bytes.now) }
{
    match version {
        Version::Fdg1 => Ok((Prefer::default(), bytes)),
        Version::Fdg2 => {
            let (count, rest) = u8_at(bytes, 0, 4)?;
            entries_at(count as usize, rest)
        }
    }
}

// So many machines with their credits, each above the one before it.
fn entries_at(count: usize, bytes: &[u8]) -> Result<(Prefer, &[u8]), usize>
    requires { count ≤ 4 }
    ensures { DecodesTo (λ x. (x.0, x.1.now)) result (records_at nat_cmp id price_field count None bytes.now) }
{
    let mut row = [(MachineId::new(0), 0); 4];
    let mut last: Option<MachineId> = None;
    let mut rest = bytes;
    for place in 0..count {
        let ((number, credit), after) = entry_at(last, rest)?;
        let machine = MachineId::new(number);
        row[place] = (machine, credit);
        last = Some(machine);
        rest = after;
    }
    Ok((Prefer::new(&row[..count]).unwrap(), rest))
}

// The number of a machine with its credit, if it is above the last one.
#[tactic(auto, unfolding(crate::specs::Formats::record_at))]
fn entry_at(last: Option<MachineId>, bytes: &[u8]) -> Result<((u128, u32), &[u8]), usize>
    ensures { DecodesTo (λ x. (x.0, x.1.now)) result (record_at nat_cmp id price_field last bytes.now) }
{
    match key_at(last, bytes) {
        Ok((machine, rest)) => {
            let (credit, rest) = u32_at(rest, 0, MOST_PRICE)?;
            Ok(((machine.value(), credit), rest))
        }
        Err(left) => Err(left),
    }
}
