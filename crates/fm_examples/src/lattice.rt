//! The lattice alone: the greatest reading of each sensor, kept by replicas that pass theirs on.

ghost use Rattle.std.specs.Prelude.{◌≡◌, OnOk, OnErr};
ghost use Rattle.std.specs.Ordering.{nat_cmp};
ghost use Rattle.fm_lattice.specs.Joins.{max_join};
ghost use Rattle.fm_lattice.specs.Maps.{put, map_join};

use fm_lattice::constructors::Max;
use fm_lattice::join::{OutOfMemory, law_assoc, law_comm};
use fm_lattice::map::JoinMap;

/// The greatest reading of each sensor.
pub type Readings = JoinMap<u64, Max<u64>>;

/// Notes a reading of a sensor; one that is not above the known one changes nothing. O(log n).
pub fn note(readings: &mut Readings, sensor: u64, value: u64) -> Result<(), OutOfMemory>
    ensures ok { OnOk result (readings.new ≡ put nat_cmp (max_join nat_cmp) sensor value readings.old) }
    ensures err { OnErr result (readings.new ≡ readings.old) }
{
    readings.put(sensor, Max(value))
}

/// Merges what two peers sent. The result is the same in the other order, and if both were merged on the way.
pub fn take_both(
    readings: &mut Readings,
    first: &Readings,
    second: &Readings,
) -> Result<(), OutOfMemory>
    ensures merged { OnOk result (readings.new
        ≡ map_join nat_cmp (max_join nat_cmp) readings.old (map_join nat_cmp (max_join nat_cmp) first.now second.now)) }
    ensures swapped { OnOk result (readings.new
        ≡ map_join nat_cmp (max_join nat_cmp) (map_join nat_cmp (max_join nat_cmp) readings.old second.now) first.now) }
{
    law_assoc(readings, first, second);
    law_assoc(readings, second, first);
    law_comm(first, second);
    readings.join_into(first)?;
    readings.join_into(second)
}
