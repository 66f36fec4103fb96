//! What became of a call.

use fm_records::refusal::Refusal;

/// What became of a call that may have run out of memory.
#[derive(Clone, Copy, Drop)]
pub(crate) enum Verdict {
    /// It was answered as with ample memory.
    Done,
    /// It was answered otherwise, or what it changed is something else.
    DoneOtherwise,
    /// It ran out of memory, and all is as before.
    Unchanged,
    /// It ran out of memory, and something is not as before.
    Changed,
    /// It was refused for something else.
    RefusedOtherwise,
}

impl Verdict {
    /// As it is printed.
    pub(crate) fn text(&self) -> &'static str {
        match self {
            Verdict::Done => "ok",
            Verdict::DoneOtherwise => "ok CHANGED",
            Verdict::Unchanged => "refused unchanged",
            Verdict::Changed => "refused CHANGED",
            Verdict::RefusedOtherwise => "refused OTHERWISE",
        }
    }
}

/// Of a call that was refused so or not at all, and whether what is there now is what should be there then.
pub(crate) fn judged(refusal: Option<Refusal>, is_right: bool) -> Verdict {
    match refusal {
        None if is_right => Verdict::Done,
        None => Verdict::DoneOtherwise,
        Some(Refusal::OutOfMemory) if is_right => Verdict::Unchanged,
        Some(Refusal::OutOfMemory) => Verdict::Changed,
        Some(_) => Verdict::RefusedOtherwise,
    }
}
