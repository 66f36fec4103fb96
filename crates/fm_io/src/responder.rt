//! Responders, which answer lines: what a stream is followed for is apart from how its lines are read and written.

ghost use Rattle.std.specs.Prelude.{◌≡◌, ℕ, List, MatchResult};
ghost use Rattle.fm_io.specs.Replies.{accepted_reply, refusal_reply};

use fm_records::refusal::Refusal;

/// Responders: what answers lines, one after another.
pub trait Responder {
    /// How a line is answered in a state of the responder, and its next state.
    ghost answers: { Self → List ℕ → List ℕ → Self → Type 0 };

    /// The text of the line's answer. A refused line changes nothing.
    fn answer(&mut self, line: &[u8]) -> Result<Vec<u8>, Refusal>
        ensures { MatchResult result (λ text. answers self.old line.now (accepted_reply text.items) self.new)
            (λ refusal. answers self.old line.now (refusal_reply refusal) self.new × (self.new ≡ self.old)) };
}
