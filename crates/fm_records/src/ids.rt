//! Ids of jobs, tasks, machines and coordinators, each a type of its own, so that none is taken for another.
//!
//! Jobs, tasks and machines have 128 bits, written as UUIDs (RFC 9562). Coordinators have numbers from 1 to 64.

ghost use Rattle.std.specs.Prelude.{◌≡◌, ◌≤◌, IfOk, IsOkUnless, string_bytes};
ghost use Rattle.fm_records.specs.Ids.{read_id, id_text, coordinator_id};

use crate::refusal::Refusal;
use fm_lattice::chain::Chain;
use std::alloc::Global;
use std::marker::Model;
use uuid::Uuid;

/// The id of a job: 128 bits, ordered as a number.
#[derive(Debug, Clone, Copy, PartialEq, Eq, PartialOrd, Ord, Drop)]
pub struct JobId {
    number: u128,
}

impl Model for JobId {
    ghost use Rattle.std.specs.Prelude.{ℕ};

    ghost Value = { ℕ };

    ghost view = { λ a. a.number };

    ghost inverse = { λ n. record { number = n } };
}

impl Chain for JobId {
    ghost use Rattle.fm_lattice.specs.laws.ChainLaws.{nat_same};

    ghost same = { nat_same };
}

impl JobId {
    /// The id with the number.
    pub fn new(number: u128) -> JobId
        ensures { result ≡ number }
    {
        JobId { number }
    }

    /// The number of the id.
    pub fn value(self) -> u128
        ensures { result ≡ self }
    {
        self.number
    }

    /// The id that a text spells, in any of the forms of a UUID; none if the text is no UUID. It allocates nothing.
    pub fn read(text: &str) -> Option<JobId>
        ensures { result ≡ read_id text.now }
    {
        match number_in(text) {
            Some(number) => Some(JobId { number }),
            None => None,
        }
    }

    /// The id as a UUID in lower case with hyphens. It allocates the text alone.
    pub fn text(self, alloc: Global) -> Result<String, Refusal>
        ensures ok { IfOk result (λ text. string_bytes text ≡ id_text self) }
        ensures err { IsOkUnless result Refusal.OutOfMemory }
    {
        text_of(alloc, self.number)
    }
}

/// The id of a task: 128 bits, ordered as a number.
#[derive(Debug, Clone, Copy, PartialEq, Eq, PartialOrd, Ord, Drop)]
pub struct TaskId {
    number: u128,
}

impl Model for TaskId {
    ghost use Rattle.std.specs.Prelude.{ℕ};

    ghost Value = { ℕ };

    ghost view = { λ a. a.number };

    ghost inverse = { λ n. record { number = n } };
}

impl Chain for TaskId {
    ghost use Rattle.fm_lattice.specs.laws.ChainLaws.{nat_same};

    ghost same = { nat_same };
}

impl TaskId {
    /// The id with the number.
    pub fn new(number: u128) -> TaskId
        ensures { result ≡ number }
    {
        TaskId { number }
    }

    /// The number of the id.
    pub fn value(self) -> u128
        ensures { result ≡ self }
    {
        self.number
    }

    /// The id that a text spells, in any of the forms of a UUID; none if the text is no UUID. It allocates nothing.
    pub fn read(text: &str) -> Option<TaskId>
        ensures { result ≡ read_id text.now }
    {
        match number_in(text) {
            Some(number) => Some(TaskId { number }),
            None => None,
        }
    }

    /// The id as a UUID in lower case with hyphens. It allocates the text alone.
    pub fn text(self, alloc: Global) -> Result<String, Refusal>
        ensures ok { IfOk result (λ text. string_bytes text ≡ id_text self) }
        ensures err { IsOkUnless result Refusal.OutOfMemory }
    {
        text_of(alloc, self.number)
    }
}

/// The id of a machine: 128 bits, ordered as a number.
#[derive(Debug, Clone, Copy, PartialEq, Eq, PartialOrd, Ord, Drop)]
pub struct MachineId {
    number: u128,
}

impl Model for MachineId {
    ghost use Rattle.std.specs.Prelude.{ℕ};

    ghost Value = { ℕ };

    ghost view = { λ a. a.number };

    ghost inverse = { λ n. record { number = n } };
}

impl Chain for MachineId {
    ghost use Rattle.fm_lattice.specs.laws.ChainLaws.{nat_same};

    ghost same = { nat_same };
}

impl MachineId {
    /// The id with the number.
    pub fn new(number: u128) -> MachineId
        ensures { result ≡ number }
    {
        MachineId { number }
    }

    /// The number of the id.
    pub fn value(self) -> u128
        ensures { result ≡ self }
    {
        self.number
    }

    /// The id that a text spells, in any of the forms of a UUID; none if the text is no UUID. It allocates nothing.
    pub fn read(text: &str) -> Option<MachineId>
        ensures { result ≡ read_id text.now }
    {
        match number_in(text) {
            Some(number) => Some(MachineId { number }),
            None => None,
        }
    }

    /// The id as a UUID in lower case with hyphens. It allocates the text alone.
    pub fn text(self, alloc: Global) -> Result<String, Refusal>
        ensures ok { IfOk result (λ text. string_bytes text ≡ id_text self) }
        ensures err { IsOkUnless result Refusal.OutOfMemory }
    {
        text_of(alloc, self.number)
    }
}

/// The number of a coordinator, from 1 to 64.
#[derive(Debug, Clone, Copy, PartialEq, Eq, PartialOrd, Ord, Drop)]
pub struct CoordId {
    number: u8,
}

impl Model for CoordId {
    ghost use Rattle.std.specs.Prelude.{ℕ, ◌≤◌};

    ghost Value = { ℕ };

    ghost view = { λ a. a.number };

    ghost invariant = { λ a. (1 ≤ a.number) × (a.number ≤ 64) };

    ghost inverse = { λ n. record { number = n } };
}

impl Chain for CoordId {
    ghost use Rattle.fm_lattice.specs.laws.ChainLaws.{nat_same};

    ghost same = { nat_same };
}

impl CoordId {
    /// The coordinator with the number, which is from 1 to 64; none at other numbers.
    pub fn new(number: u8) -> Option<CoordId>
        ensures { result ≡ coordinator_id number }
    {
        if number >= 1 && number <= 64 {
            Some(CoordId { number })
        } else {
            None
        }
    }

    /// The number, from 1 to 64.
    pub fn value(self) -> u8
        ensures number { result ≡ self }
        ensures least { 1 ≤ result }
        ensures greatest { result ≤ 64 }
    {
        self.number
    }
}

// The number that a text stands for, in any of the forms of a UUID.
fn number_in(text: &str) -> Option<u128>
    ensures { result ≡ read_id text.now }
{
    match Uuid::parse_str(text) {
        Ok(id) => Some(id.as_u128()),
        Err(_) => None,
    }
}

// The number as a UUID in lower case with hyphens.
fn text_of(alloc: Global, number: u128) -> Result<String, Refusal>
    ensures ok { IfOk result (λ text. string_bytes text ≡ id_text number) }
    ensures err { IsOkUnless result Refusal.OutOfMemory }
{
    let mut buffer = Uuid::encode_buffer();
    let id = Uuid::from_u128(number);
    let text = id.hyphenated().encode_lower(&mut buffer);
    Ok(String::from_str(alloc, text)?)
}
