//! The laws of what a set of operations means.
//!
//! Each function does nothing: its contract is the law. `record_equality` and `order` have the laws of `==` and `cmp`,
//! whose functions do that one call.

ghost use Rattle.std.specs.Prelude.{◌≡◌, ◌↔◌, ◌++◌, ℕ, List, IsTrue};
ghost use Rattle.std.specs.Ordering.{nat_cmp};
ghost use Rattle.fm_lattice.specs.Joins.{JoinLaws};
ghost use Rattle.fm_lattice.specs.Maps.{lookup};
ghost use Rattle.fm_records.specs.declared.ops.Op.{Op};
ghost use Rattle.fm_records.specs.Ids.{read_id, id_text};
ghost use Rattle.fm_records.specs.Sets.{HaveSameMembers, greatest, least};
ghost use Rattle.fm_records.specs.Know.{table_of, job, spec, progress, incarnation, state, report, entry, winner};
ghost use Rattle.fm_records.specs.OpsOfTable.{ops, IsTable};
ghost use Rattle.fm_records.specs.Ranges.{all_in_range, CanBe};
ghost use Rattle.fm_records.specs.Table.{Table};
ghost use Rattle.fm_records.specs.Joined.{machines_join, proposals_join, table_join};
ghost use Rattle.fm_records.specs.Facts.{job_of, spec_of, progress_of, incarnation_of, machine_state, report_of, entries_of, winner_of, job_stands, live_spec, open_state, holder_of, load_of, spare_of, has_room};
ghost use Rattle.fm_records.specs.SetFacts.{is_active_job, live, state_if_up, holder, load, spare, room};
ghost use Rattle.fm_records.specs.Characterized.{IsGreatestOf, IsLeastOf, IsKnow};

pub mod order;
pub mod record_equality;

use crate::ids::MachineId;
use crate::records::{MachineRec, Proposals};
use fm_lattice::chain::Chain;
use fm_lattice::join::{law_assoc, law_comm, law_idem};
use fm_lattice::map::JoinMap;

/// What is known of machines.
pub type Machines = JoinMap<MachineId, MachineRec>;

/// The text of an id reads back as the id, so no two ids have one text.
pub fn law_text(number: u128)
    ensures { read_id (id_text number) ≡ Some number }
{}

/// The greatest of a list is a member that none is greater than, and the least one that none is less than.
pub fn law_greatest<K: Chain>()
    ensures greatest { (xs : List K) → IsGreatestOf K.cmp xs (greatest K.cmp xs) }
    ensures least { (xs : List K) → IsLeastOf K.cmp xs (least K.cmp xs) }
{}

/// The table of a set is the one whose keys rise and whose look-ups give what the set tells.
pub fn law_known()
    ensures { (S : List Op) (k : Table) → (IsKnow S k ↔ (k ≡ table_of S)) }
{}

/// What is read from the table of a set are the registers of the set, and the winner is that of the set.
pub fn law_facts()
    ensures job { (S : List Op) (j : ℕ) → job_of (table_of S) j ≡ job S j }
    ensures spec { (S : List Op) (t : ℕ) → spec_of (table_of S) t ≡ spec S t }
    ensures progress { (S : List Op) (t : ℕ) → progress_of (table_of S) t ≡ progress S t }
    ensures incarnation { (S : List Op) (m : ℕ) → incarnation_of (table_of S) m ≡ incarnation S m }
    ensures state { (S : List Op) (m : ℕ) → machine_state (table_of S) m ≡ state S m }
    ensures report { (S : List Op) (m : ℕ) → report_of (table_of S) m ≡ report S m }
    ensures entry { (S : List Op) (at : ℕ × ℕ) (c : ℕ) → lookup nat_cmp c (entries_of (table_of S) at) ≡ entry S at c }
    ensures winner { (S : List Op) (at : ℕ × ℕ) → winner_of (table_of S) at.0 at.1 ≡ winner S at }
{}

/// What is live, open and held, and what a machine has left, on the table of a set is so of the set itself.
pub fn law_facts_of_sets()
    ensures stands { (S : List Op) (j : ℕ) → job_stands (table_of S) j ≡ is_active_job S j }
    ensures live { (S : List Op) (t : ℕ) → live_spec (table_of S) t ≡ live S t }
    ensures opened { (S : List Op) (m : ℕ) → open_state (table_of S) m ≡ state_if_up S m }
    ensures holder { (S : List Op) (t : ℕ) → holder_of (table_of S) t ≡ holder S t }
    ensures load { (S : List Op) (m : ℕ) → load_of (table_of S) m ≡ load S m }
    ensures spare { (S : List Op) (m : ℕ) → spare_of (table_of S) m ≡ spare S m }
    ensures room { (S : List Op) (m request : ℕ) → has_room (table_of S) m request ≡ room S m request }
{}

/// Sets with the same members have one table, whatever the order and the repeats.
pub fn law_same()
    ensures { (S T : List Op) → HaveSameMembers S T → table_of S ≡ table_of T }
{}

/// The table of two sets together is the join of their tables.
pub fn law_union()
    ensures { (S T : List Op) → table_of (S ++ T) ≡ table_join (table_of S) (table_of T) }
{}

/// The operations that a table is written out as have that table.
pub fn law_ops()
    ensures { (k : Table) → IsTable k → table_of (ops k) ≡ k }
{}

/// The table of any set has the form of tables, and that of a set in range is possible.
pub fn law_can_be()
    ensures form { (S : List Op) → IsTable (table_of S) }
    ensures ranges { (S : List Op) → IsTrue (all_in_range S) → CanBe (table_of S) }
{}

/// The join of possible tables is one, and is associative, commutative and idempotent.
pub fn law_tables()
    ensures { JoinLaws CanBe table_join }
{}

/// The join of proposals is associative, commutative and idempotent.
pub fn law_proposals(a: &Proposals, b: &Proposals, c: &Proposals)
    ensures assoc { proposals_join (proposals_join a.now b.now) c.now
        ≡ proposals_join a.now (proposals_join b.now c.now) }
    ensures comm { proposals_join a.now b.now ≡ proposals_join b.now a.now }
    ensures idem { proposals_join a.now a.now ≡ a.now }
{
    law_assoc(a, b, c);
    law_comm(a, b);
    law_idem(a);
}

/// The join of what is known of machines is associative, commutative and idempotent.
pub fn law_machines(a: &Machines, b: &Machines, c: &Machines)
    ensures assoc { machines_join (machines_join a.now b.now) c.now ≡ machines_join a.now (machines_join b.now c.now) }
    ensures comm { machines_join a.now b.now ≡ machines_join b.now a.now }
    ensures idem { machines_join a.now a.now ≡ a.now }
{
    law_assoc(a, b, c);
    law_comm(a, b);
    law_idem(a);
}
