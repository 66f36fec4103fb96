//! Where an id may stand among others, found in O(1) if ids are spread evenly, as random UUIDs are.
//!
//! A tally looks up a job and a machine for each task, and a binary search takes O(log n) steps for each. Here the
//! range of the ids is cut into parts of one width, and a table has the first place of each part: interpolation search
//! (Peterson, 1957) by a table. A guess may be wrong, so its user compares the id there, and searches if it is another.

use fm_lattice::join::OutOfMemory;
use fm_records::ids::{JobId, MachineId};
use std::alloc::Global;

/// Guesses the places of ids in a list of rising ids: interpolation search by a table. What lies between the least and the greatest
/// id is cut into parts of one width, up to two for each id. A guess may be wrong: whoever uses it compares the id at that place.
#[derive(Drop)]
pub struct Guide {
    // The upper halves of the ids, rising.
    uppers: Vec<u64>,
    least: u64,
    // A part is as wide as two to this power.
    power: u32,
    // Of each part, and of one more behind all, the place of the first id there or behind.
    firsts: Vec<usize>,
}

/// The upper half of an id.
pub fn upper(id: u128) -> u64 {
    (id >> 64) as u64
}

// How many binary digits the number has.
fn digits(number: u64) -> u32 {
    u64::BITS.saturating_sub(number.leading_zeros())
}

// How many whole parts lie below.
fn parts_in(span: u64, power: u32) -> usize {
    span.checked_shr(power).unwrap_or(0) as usize
}

impl Guide {
    /// For the ids with these upper halves, which must rise. O(n). Refused only if memory runs out.
    pub fn of(alloc: Global, uppers: Vec<u64>) -> Result<Guide, OutOfMemory> {
        let least = uppers.first().copied().unwrap_or(0);
        let span = uppers.last().copied().unwrap_or(0).saturating_sub(least);
        let power = digits(span).saturating_sub(digits(uppers.len() as u64));
        let parts = parts_in(span, power).saturating_add(1);
        let mut guide = Guide {
            firsts: vec![in alloc; 0; parts.saturating_add(1)]?,
            uppers,
            least,
            power,
        };
        guide.cut();
        Ok(guide)
    }

    /// For these jobs, whose ids must rise. O(n). Refused only if memory runs out.
    pub(crate) fn of_jobs<V: Copy>(
        alloc: Global,
        jobs: &[(JobId, V)],
    ) -> Result<Guide, OutOfMemory> {
        let mut uppers = Vec::with_capacity(alloc, jobs.len())?;
        for (job, _) in jobs {
            uppers.push(upper(job.value()))?;
        }
        Guide::of(alloc, uppers)
    }

    /// For these machines, whose ids must rise. O(n). Refused only if memory runs out.
    pub fn of_machines<V: Copy>(
        alloc: Global,
        machines: &[(MachineId, V)],
    ) -> Result<Guide, OutOfMemory> {
        let mut uppers = Vec::with_capacity(alloc, machines.len())?;
        for (machine, _) in machines {
            uppers.push(upper(machine.value()))?;
        }
        Guide::of(alloc, uppers)
    }

    // Finds the first id of each part.
    fn cut(&mut self) {
        for (place, upper) in self.uppers.iter().enumerate() {
            let behind = parts_in(upper.saturating_sub(self.least), self.power).saturating_add(1);
            if let Some(first) = self.firsts.get_mut(behind) {
                *first = place.saturating_add(1);
            }
        }
        let mut last = 0usize;
        for first in self.firsts.iter_mut() {
            last = last.max(*first);
            *first = last;
        }
    }

    /// Where the first id with this upper half stands, if there is one. O(1) if ids are spread evenly, else O(log n).
    pub fn guess(&self, upper: u64) -> usize {
        let part = parts_in(upper.saturating_sub(self.least), self.power);
        let first = self.firsts.get(part).copied().unwrap_or(0);
        let end = self
            .firsts
            .get(part.saturating_add(1))
            .copied()
            .unwrap_or(0);
        match self.uppers.get(first..end) {
            Some(there) => first.saturating_add(there.partition_point(|other| *other < upper)),
            None => first,
        }
    }
}
