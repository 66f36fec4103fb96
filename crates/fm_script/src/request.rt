//! What a line of a stream asks for, as data: a request, or to check the line of one.

use crate::script::ScriptStep;
use fm_coord::entry::Range;
use fm_question::question::Question;
use fm_records::ids::CoordId;

/// What a line of a stream asks for.
#[derive(Debug, Drop)]
pub enum Request {
    /// The coordinators with which the stream begins: at least one, distinct.
    Open(Vec<CoordId>),
    /// What a coordinator does, as in a script: it is told an operation, takes in a packet, trims, or runs a round.
    /// It cuts nothing.
    Do(ScriptStep),
    /// A coordinator cuts a packet, which has the name if there is one.
    Cut {
        at: u8,
        range: Range,
        name: Option<String>,
    },
    /// A coordinator cuts a packet of what came since it was last asked this.
    News {
        at: u8,
    },
    /// A coordinator cuts a packet of its own deltas: of the first that it was not asked for so, and of those behind
    /// it up to another's.
    OwnNews {
        at: u8,
    },
    /// A coordinator takes in the packet that the hexadecimal digits spell, which are not yet checked.
    Take {
        at: u8,
        digits: String,
    },
    /// A coordinator is asked.
    Ask {
        at: u8,
        question: Question,
    },
    /// Whether all coordinators know the same.
    Agree,
    /// The version of the program.
    Version,
    /// The coordinators are renewed.
    Renew,
}

/// A line of a stream.
#[derive(Debug, Drop)]
pub enum StreamLine {
    Request(Request),
    /// What would the line be answered now?
    Check(CheckedLine),
}

/// The line that is checked.
#[derive(Debug, Drop)]
pub struct CheckedLine {
    /// The number in its `at`, and 0 if it has none.
    pub at: u8,
    pub asked: CheckedRequest,
}

/// What the line that is checked asks for.
#[derive(Debug, Drop)]
pub enum CheckedRequest {
    /// Nothing known.
    Nothing,
    /// To check a line, which is not looked at.
    Check,
    Request(Request),
}
