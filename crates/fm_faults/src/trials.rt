//! Calls that are tried, each with a name.

use crate::memory::Memory;
use crate::verdict::Verdict;
use crate::{editing, gathering, knowing, networks, planning};
use fm_records::refusal::Refusal;
use std::fmt;

/// A call of values.
#[derive(Clone, Copy, Drop)]
pub(crate) enum Value {
    JoinMuch,
    JoinLittle,
    Encode,
    Decode,
    Dump,
    DumpSink,
    Solution,
    Read,
    Solve,
    SolveChain,
    SolveFrom,
    SolveFromMost,
    Plan,
    PlanOf,
    PlanOfChain,
    Admit,
    Stops,
}

/// Each of these calls.
pub(crate) const VALUES: [Value; 17] = [
    Value::JoinMuch,
    Value::JoinLittle,
    Value::Encode,
    Value::Decode,
    Value::Dump,
    Value::DumpSink,
    Value::Solution,
    Value::Read,
    Value::Solve,
    Value::SolveChain,
    Value::SolveFrom,
    Value::SolveFromMost,
    Value::Plan,
    Value::PlanOf,
    Value::PlanOfChain,
    Value::Admit,
    Value::Stops,
];

/// Another call.
#[derive(Clone, Copy, Drop)]
pub(crate) enum Other {
    Edit,
    EditFirst,
    Gather,
    GatherStuck,
}

/// Each of these calls.
pub(crate) const OTHERS: [Other; 4] = [
    Other::Edit,
    Other::EditFirst,
    Other::Gather,
    Other::GatherStuck,
];

/// A call that is tried.
#[derive(Clone, Copy, Drop)]
pub(crate) enum Trial {
    Value(Value),
    Other(Other),
}

impl Value {
    // As it is printed.
    fn text(&self) -> &'static str {
        match self {
            Value::JoinMuch => "join_into",
            Value::JoinLittle => "join_into of a little",
            Value::Encode => "encode",
            Value::Decode => "decode",
            Value::Dump => "dump",
            Value::DumpSink => "dump of the sink",
            Value::Solution => "write_solution",
            Value::Read => "read",
            Value::Solve => "solve",
            Value::SolveChain => "solve of a chain",
            Value::SolveFrom => "solve_from",
            Value::SolveFromMost => "solve_from of what stays",
            Value::Plan => "plan",
            Value::PlanOf => "plan_of",
            Value::PlanOfChain => "plan_of of a chain",
            Value::Admit => "admit",
            Value::Stops => "stops",
        }
    }

    // Makes it.
    fn made(&self, memory: Memory) -> Result<Verdict, Refusal> {
        match self {
            Value::JoinMuch => knowing::join_much(memory),
            Value::JoinLittle => knowing::join_little(memory),
            Value::Encode => knowing::write(memory),
            Value::Decode => knowing::read(memory),
            Value::Dump => networks::written(memory),
            Value::DumpSink => networks::sink_written(memory),
            Value::Solution => networks::solution_written(memory),
            Value::Read => networks::was_read(memory),
            Value::Solve => networks::solved(memory),
            Value::SolveChain => networks::solved_chain(memory),
            Value::SolveFrom => networks::solved_from(memory),
            Value::SolveFromMost => networks::solved_from_most(memory),
            Value::Plan => planning::planned(memory),
            Value::PlanOf => planning::planned_known(memory),
            Value::PlanOfChain => planning::planned_chain(memory),
            Value::Admit => planning::was_admitted(memory),
            Value::Stops => planning::stopped(memory),
        }
    }
}

impl Other {
    // As it is printed.
    fn text(&self) -> &'static str {
        match self {
            Other::Edit => "edit",
            Other::EditFirst => "edit of what is first known",
            Other::Gather => "gather",
            Other::GatherStuck => "gather of what is stuck",
        }
    }

    // Makes it.
    fn made(&self, memory: Memory) -> Result<Verdict, Refusal> {
        match self {
            Other::Edit => editing::edited(memory),
            Other::EditFirst => editing::edited_first(memory),
            Other::Gather => gathering::gathered(memory),
            Other::GatherStuck => gathering::stuck(memory),
        }
    }
}

impl fmt::Display for Trial {
    fn fmt<W: fmt::Write>(&self, f: &mut fmt::Formatter<W>) -> fmt::Result {
        match self {
            Trial::Value(value) => f.write_str(value.text()),
            Trial::Other(other) => f.write_str(other.text()),
        }
    }
}

impl Trial {
    /// Makes the call, and says its result. Refused if what it is made on could not be made.
    pub(crate) fn made(&self, memory: Memory) -> Result<Verdict, Refusal> {
        match self {
            Trial::Value(value) => value.made(memory),
            Trial::Other(other) => other.made(memory),
        }
    }
}
