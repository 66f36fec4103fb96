//! What is under a node's lock: the coordinator, with the book of the calls that seats made.
//!
//! No contract of the lock says in which state a thread finds the coordinator. So a book is under it too, which counts
//! exactly the entries of the history since the start. Each seat has a share of that count: a seat that made n calls
//! knows that the history has at least n entries more.
ghost use Rattle.std.specs.Prelude.{◌≡◌, ◌<◌, ◌≤◌, ◌+◌, length, IfOk, IfErr, OnOk, OnErr};
ghost use Rattle.fm_coord.specs.Causes.{refusal_for};
ghost use Rattle.fm_coord.specs.States.{bounds, history_entry, with_entry, after};
ghost use Rattle.fm_coord.specs.Outputs.{reply_to, answer_to};
ghost use Rattle.fm_tally.specs.Tallies.{TallyIsFor};
ghost use Rattle.fm_coord.specs.declared.entry.Reply.TheVariants as reply;

use crate::seat::NodeName;
use fm_coord::coordinator::Coordinator;
use fm_coord::entry::Call;
use fm_coord::output::CallOutput;
use fm_coord::view::TallyView;
use fm_policy::keeper::NetKeeper;
use fm_records::refusal::Refusal;
use std::sync::ledger::{Book, Share};

/// The coordinator and the book, which counts exactly the entries since the base. The share has no part; the seats'
/// shares are joined into it at the end.
#[derive(Drop)]
pub struct LockedCoordinator<N: NetKeeper, L: NodeName> {
    pub coordinator: Coordinator<N>,
    pub calls: Book<L>,
    pub rest: Share<L>,
    pub ghost counted: { length coordinator.state.history ≡ L.base + calls.total },
    pub ghost no_part: { rest.parts ≡ 0 },
    pub ghost nothing: { rest.amount ≡ 0 },
}

impl<N: NetKeeper, L: NodeName> LockedCoordinator<N, L> {
    /// As the coordinator's `call`, and one event with it: an accepted call moves one unit into the book and into the
    /// seat's share, a refused one moves nothing. The history has the calls that are counted in the share before it.
    pub fn call(&mut self, by: u32, call: Call, share: &mut Share<L>) -> Result<CallOutput, Refusal>
        requires { 0 < share.old.parts }
        ensures ok { IfOk result (λ answer. self.new.coordinator.state
            ≡ after self.old.coordinator.state (history_entry by call (reply_to answer)) call) }
        ensures answer { IfOk result (λ answer. answer ≡ answer_to self.old.coordinator.state call) }
        ensures later { OnOk result (L.base + share.old.amount ≤ length self.old.coordinator.state.history) }
        ensures counted { OnOk result (share.new.amount ≡ share.old.amount + 1) }
        ensures parts { share.new.parts ≡ share.old.parts }
        ensures cause { IfErr result (λ refusal. refusal ≡ refusal_for (bounds self.old.coordinator.state) call) }
        ensures err { OnErr result ((share.new.amount ≡ share.old.amount)
            × (self.new.coordinator.state ≡ self.old.coordinator.state)) }
    {
        let LockedCoordinator {
            coordinator,
            calls,
            ..
        } = self;
        calls.audit(share);
        let answer = coordinator.call(by, call)?;
        calls.add(share, 1);
        Ok(answer)
    }

    /// As the coordinator's `see`, and one event with it, as `call` has it.
    pub fn see(&mut self, by: u32, share: &mut Share<L>) -> Result<TallyView, Refusal>
        requires { 0 < share.old.parts }
        ensures ok { IfOk result (λ sight. self.new.coordinator.state
            ≡ with_entry self.old.coordinator.state
            (history_entry by Call.View (reply.Seen sight.at sight.knowledge))) }
        ensures knowledge { IfOk result (λ sight. sight.knowledge ≡ self.old.coordinator.state.knowledge) }
        ensures tally { IfOk result (λ sight. TallyIsFor sight.knowledge sight.tally) }
        ensures later { IfOk result (λ sight. L.base + share.old.amount ≤ sight.at) }
        ensures counted { OnOk result (share.new.amount ≡ share.old.amount + 1) }
        ensures parts { share.new.parts ≡ share.old.parts }
        ensures cause { IfErr result (λ refusal. refusal ≡ refusal_for (bounds self.old.coordinator.state) Call.View) }
        ensures err { OnErr result ((share.new.amount ≡ share.old.amount)
            × (self.new.coordinator.state ≡ self.old.coordinator.state)) }
    {
        let LockedCoordinator {
            coordinator,
            calls,
            ..
        } = self;
        calls.audit(share);
        let sight = coordinator.see(by)?;
        calls.add(share, 1);
        Ok(sight)
    }
}
