//! The machines that a task prefers, in a fixed row, so that a spec is copied and compared without allocating.

ghost use Rattle.std.specs.Prelude.{◌≡◌, ◌≤◌, if◌then◌else◌, nat_le, Some, None, length, IsTrue};
ghost use Rattle.std.specs.List.{list_all};
ghost use Rattle.std.proofs.Common.{rules};
ghost use Rattle.std.specs.Cmp.Rules.{comparing};
ghost use Rattle.std.specs.Ordering.{as_partial_cmp, nat_cmp};
ghost use Rattle.fm_lattice.specs.Maps.{lookup};
ghost use Rattle.fm_records.specs.Preferences.{preferences_cmp, preferences_eq};
ghost use Rattle.fm_records.specs.Ranges.{is_id, fits_row};
ghost use Rattle.fm_records.specs.laws.PreferenceLaws.{preferences_ties, total_preferences, equal_preferences, partial_preferences};

use crate::ids::MachineId;
use std::cmp::Ordering;
use std::marker::Model;

/// Machines that a task prefers, up to four, each with a credit: by how much less it costs to run the task there. A
/// fixed row, which allocates nothing. Ordered entry by entry, each by machine and then credit; a list that begins
/// another is less.
#[derive(Debug, Clone, Copy, Drop)]
pub struct Prefer {
    // Behind the entries there are zeros.
    row: [(MachineId, u32); 4],
    len: usize,
}

impl Model for Prefer {
    ghost use Rattle.std.specs.Prelude.{ℕ, List, length, take};
    ghost use Rattle.fm_records.specs.inner.PreferenceEntries.{four_entries, IsFilled};

    ghost Value = { List (ℕ × ℕ) };

    ghost view = { λ p. take p.len p.row };

    ghost invariant = { λ p. IsFilled p.len p.row };

    ghost inverse = { λ l. record { row = four_entries l; len = length l } };
}

impl Prefer {
    /// The preferences in the order of the list; none if there are more than four. Whether the machines rise and the
    /// credits are in their range is tested by the check of an operation.
    pub fn new(entries: &[(MachineId, u32)]) -> Option<Prefer>
        ensures { result ≡ (if nat_le (length entries.now) 4 then Some entries.now else None) }
    {
        if entries.len() > 4 {
            return None;
        }
        let mut row = [(MachineId::new(0), 0); 4];
        row[..entries.len()].copy_from_slice(entries);
        Some(Prefer {
            row,
            len: entries.len(),
        })
    }

    /// The machines, each with its credit, in the order of the list: four at most.
    pub fn entries(&self) -> &[(MachineId, u32)]
        ensures entries { result.now ≡ self.now }
        ensures few { length self.now ≤ 4 }
    {
        &self.row[..self.len]
    }

    /// The credit of the machine, if it is preferred: that of its first entry. O(1), there are four at most.
    pub fn credit(&self, machine: MachineId) -> Option<u32>
        ensures { result ≡ lookup nat_cmp machine self.now }
    {
        credit_in(self.entries(), machine)
    }

    /// That the entries fit their types, which a clause does not see by itself: they are four at most, and ids have 128
    /// bits.
    pub fn law_fits(&self)
        ensures { IsTrue (fits_row self.now) }
    {
        law_ids(self.entries());
    }
}

// The credit of the first entry of the machine.
fn credit_in(entries: &[(MachineId, u32)], machine: MachineId) -> Option<u32>
    ensures { result ≡ lookup nat_cmp machine entries.now }
{
    let ((first, credit), rest) = entries.split_first()?;
    if machine == *first {
        Some(*credit)
    } else {
        credit_in(rest, machine)
    }
}

// Ids of machines have 128 bits.
fn law_ids(entries: &[(MachineId, u32)])
    ensures { IsTrue (list_all (λ entry. is_id entry.0) entries.now) }
{
    if let [(machine, _), rest @ ..] = entries {
        let _ = machine.value();
        law_ids(rest);
    }
}

impl Default for Prefer {
    ghost use Rattle.std.specs.Prelude.{◌≡◌, []};

    ghost is_default = { λ p. p ≡ [] };

    // No machines.
    fn default() -> Prefer {
        Prefer {
            row: [(MachineId::new(0), 0); 4],
            len: 0,
        }
    }
}

impl PartialEq for Prefer {
    ghost eq = { preferences_eq };

    ghost laws = { Prim.search (equal_preferences, comparing) };

    fn eq(&self, other: &Prefer) -> bool {
        self.entries() == other.entries()
    }
}

impl Eq for Prefer {
    ghost laws = { equal_preferences };
}

impl PartialOrd for Prefer {
    ghost partial_cmp = { as_partial_cmp preferences_cmp };

    ghost laws = { partial_preferences };

    fn partial_cmp(&self, other: &Prefer) -> Option<Ordering> {
        Some(self.cmp(other))
    }
}

impl Ord for Prefer {
    ghost cmp = { preferences_cmp };

    ghost total = { total_preferences };

    ghost matches_partial_cmp = { Prim.search (comparing, rules) };

    ghost matches_eq = { preferences_ties };

    fn cmp(&self, other: &Prefer) -> Ordering {
        self.entries().cmp(other.entries())
    }
}
