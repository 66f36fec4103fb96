//! Responders whose answers wait until what they changed is committed.
//!
//! A commit makes changes last, as by a file that is written and synced. It is slow, so one serves for many lines.

ghost use Rattle.std.specs.Prelude.{MatchResult};

use crate::responder::Responder;

/// A commit failed. The responder keeps the cause.
#[derive(Debug, Clone, Copy, PartialEq, Eq, Drop)]
pub struct NotCommitted;

/// Responders whose answers wait until what they changed is committed.
pub trait Committer: Responder {
    /// What a commit makes of a state of the responder.
    ghost commits: { Self → Self → Type 0 };

    /// What a commit that failed leaves of a state of the responder.
    ghost fails: { Self → Self → Type 0 };

    /// Commits what the lines changed that were answered since the last commit.
    fn commit(&mut self) -> Result<(), NotCommitted>
        ensures { MatchResult result (λ _. commits self.old self.new) (λ _. fails self.old self.new) };
}
