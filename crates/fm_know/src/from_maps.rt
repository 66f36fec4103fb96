//! Knowledge from its four maps, for readers of records.

ghost use Rattle.std.specs.Prelude.{◌≡◌};
ghost use Rattle.fm_records.specs.Ranges.{CanBe};

use crate::knowledge::Knowledge;
use fm_lattice::constructors::{Max, Min};
use fm_lattice::map::JoinMap;
use fm_records::ids::{CoordId, JobId, MachineId, TaskId};
use fm_records::records::{JobReg, MachineRec, Spot, TaskRec};

impl Knowledge {
    /// The knowledge that has these four maps. The caller must have checked that they are the maps of some operations:
    /// nothing is there without a record, and each field is in its range. It allocates nothing.
    pub fn of(
        jobs: JoinMap<JobId, Max<JobReg>>,
        tasks: JoinMap<TaskId, TaskRec>,
        machines: JoinMap<MachineId, MachineRec>,
        proposals: JoinMap<(TaskId, u32), JoinMap<CoordId, Min<Spot>>>,
    ) -> Knowledge
        requires { CanBe (record { jobs = jobs; tasks = tasks; machines = machines; proposals = proposals }) }
        ensures { result ≡ record { jobs = jobs; tasks = tasks; machines = machines; proposals = proposals } }
    {
        Knowledge {
            jobs,
            tasks,
            machines,
            proposals,
        }
    }
}
