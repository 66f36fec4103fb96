//! How many bytes a packet has, without its bytes.
//!
//! Each field has a fixed width. So of a packet neither the sender nor the number matters, and of a record only which
//! parts it has, and how many machines its task prefers.

ghost use Rattle.std.specs.Prelude.{◌≡◌, ◌≤◌, ◌*◌, ◌^◌, ℕ, length, sum_by};
ghost use Rattle.fm_wire.specs.declared.version.Version.TheVariants.{Fdg2};
ghost use Rattle.fm_wire.specs.Grammar.{packet_size as size_of_packet, optional_spec, parts};
ghost use Rattle.fm_wire.specs.inner.RecordSizes.{task_size, machine_size};

use crate::record_codecs::Parts;
use fm_know::knowledge::Knowledge;
use fm_lattice::constructors::Max;
use fm_lattice::join::Join;
use fm_records::records::{MachineRec, SpecReg, TaskRec};

// The word of the version, the sender, the number, and a count for each of four lists.
const EMPTY: u128 = 45;

const JOB: u128 = 34;

const PROPOSAL: u128 = 45;

/// How many bytes a packet of the knowledge has in FDG2, from any sender, with any number. It allocates nothing. O(n).
#[tactic(auto, using(crate::proofs::Sizes::size_is))]
pub fn packet_size(value: &Knowledge) -> u128
    ensures { (sender number : ℕ) → result
        ≡ size_of_packet (record { sender = sender; number = number; value = value.now }) }
{
    let jobs = JOB * value.jobs().len() as u128;
    let tasks = size_of_tasks(value);
    let machines = size_of_machines(value);
    let proposals = PROPOSAL * proposal_count(value);
    EMPTY + jobs + tasks + machines + proposals
}

// How many bytes the records of tasks have.
fn size_of_tasks(value: &Knowledge) -> u128
    ensures size { result ≡ sum_by task_size value.now.tasks }
    ensures fits { result ≤ 2 ^ 96 }
{
    let mut size = 0u128;
    for (_, known) in value.tasks().iter() {
        size += u128::from(size_of_task(known));
    }
    size
}

// How many bytes the record of a task has.
#[tactic(auto, using(crate::proofs::Sizes::of_task))]
fn size_of_task(known: &TaskRec) -> u32
    ensures { (task : ℕ) → result ≡ task_size (task, known.now) }
{
    21 + size_of_spec(&known.0.0)
}

// How many bytes say whether there is a spec, and what it says.
#[tactic(auto, using(crate::proofs::Sizes::without_spec, crate::proofs::Sizes::with_spec))]
fn size_of_spec(spec: &Option<Max<SpecReg>>) -> u32
    ensures size { result ≡ length ((optional_spec Fdg2).spell spec.now) }
    ensures few { result ≤ 112 }
{
    match spec {
        None => 1,
        Some(spec) => 32 + 20 * spec.0.prefer.entries().len() as u32,
    }
}

// How many bytes the records of machines have.
fn size_of_machines(value: &Knowledge) -> u128
    ensures size { result ≡ sum_by machine_size value.now.machines }
    ensures fits { result ≤ 2 ^ 96 }
{
    let mut size = 0u128;
    for (_, known) in value.machines().iter() {
        size += u128::from(size_of_machine(known));
    }
    size
}

// How many bytes the record of a machine has.
#[tactic(auto, using(crate::proofs::Sizes::of_machine))]
fn size_of_machine(known: &MachineRec) -> u32
    ensures { (machine : ℕ) → result ≡ machine_size (machine, known.now) }
{
    24 + size_of_parts(&known.1)
}

// How many bytes say which parts of a machine are known, and what these are.
#[tactic(auto, using(crate::proofs::Sizes::without_parts, crate::proofs::Sizes::with_state, crate::proofs::Sizes::with_report, crate::proofs::Sizes::with_both))]
fn size_of_parts(known: &Parts) -> u32
    ensures size { result ≡ length (parts.spell known.now) }
    ensures few { result ≤ 31 }
{
    match (&known.0.0, &known.1.0) {
        (None, None) => 1,
        (Some(_), None) => 19,
        (None, Some(_)) => 13,
        (Some(_), Some(_)) => 31,
    }
}

// How many proposals there are.
fn proposal_count(value: &Knowledge) -> u128
    ensures count { result ≡ sum_by (λ e. length e.1) value.now.proposals }
    ensures fits { result ≤ 2 ^ 72 }
{
    value.known();
    let mut count = 0u128;
    for (_, entries) in value.proposals().iter() {
        count += entries.len() as u128;
    }
    count
}
