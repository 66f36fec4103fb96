//! The first fault of a script, as data: which step, which member, and what is wanted there.

use fm_records::ops::Field;

/// The first fault of a script.
#[derive(Debug, Clone, Copy, PartialEq, Eq, Drop)]
pub enum ScriptFault {
    /// The text is no JSON.
    NoJson,
    /// `coordinators` lists no coordinators: at least one number, each from 1 to 64, none twice.
    Coordinators,
    /// `steps` is no list.
    Steps,
    /// The step with the number, counted from 1, is at fault.
    Step(usize, StepFault),
}

/// What is at fault in a step.
#[derive(Debug, Clone, Copy, PartialEq, Eq, Drop)]
pub enum StepFault {
    /// It is no object of two members.
    Members,
    /// `at` is no whole number from 0 to 255.
    At,
    /// The member beside `at` has no known name.
    Act,
    Cut(CutFault),
    Tell(TellFault),
    /// `deliver` is no text.
    Deliver,
    /// `trim` is no whole number.
    Trim,
    /// `round` is neither true nor a share.
    Round,
    /// `relieve` is not true.
    Relieve,
    /// No coordinator of the script has the number.
    NoCoordinator(u8),
    /// No earlier step cuts a packet of the name that is delivered.
    NoPacket,
    /// The field of the operation is out of its range.
    OutOfRange(Field),
}

/// What is at fault in a cut.
#[derive(Debug, Clone, Copy, PartialEq, Eq, Drop)]
pub enum CutFault {
    /// It has no name that is a text.
    Name,
    /// It has one end of an interval, or an end that is no whole number.
    Range,
    /// An earlier step gave a packet this name.
    NameTaken,
}

/// What is at fault in an operation.
#[derive(Debug, Clone, Copy, PartialEq, Eq, Drop)]
pub enum TellFault {
    /// It is no object of one member that is named for a kind.
    Kind,
    /// A field is missing, or its value is not of the field's type. It is the first of the kind's fields that is at
    /// fault.
    Lacks(OpKind, FieldName),
}

/// The kinds of operations.
#[derive(Debug, Clone, Copy, PartialEq, Eq, Drop)]
pub enum OpKind {
    Job,
    Spec,
    Progress,
    Machine,
    Report,
    Propose,
}

/// The members that operations have.
#[derive(Debug, Clone, Copy, PartialEq, Eq, Drop)]
pub enum FieldName {
    Id,
    Version,
    Writer,
    Withdrawn,
    Wait,
    Preempt,
    Job,
    Request,
    Prefer,
    Attempt,
    Phase,
    Incarnation,
    Up,
    Slots,
    Nic,
    Number,
    Used,
    Coordinator,
    Machine,
}
