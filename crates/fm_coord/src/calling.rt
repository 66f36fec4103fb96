//! One transition for all calls, by which worlds and nodes make any call, and contracts speak of all of them at once.

ghost use Rattle.std.specs.Prelude.{◌≡◌, ◌⊎◌, ◌++◌, ◌∷◌, [], None, IsOk, IfOk, IfErr, OnOk, OnErr};
ghost use Rattle.fm_coord.specs.Events.{Event, Replica};
ghost use Rattle.fm_coord.specs.Causes.{cause, refusal_for};
ghost use Rattle.fm_coord.specs.Replays.{call_of, reply_of};
ghost use Rattle.fm_coord.specs.States.{bounds, history_entry, after, Represents, IsEventAt};
ghost use Rattle.fm_coord.specs.Outputs.{reply_to, answer_to};

use crate::coordinator::Coordinator;
use crate::entry::Call;
use crate::output::CallOutput;
use fm_lattice::join::OutOfMemory;
use fm_policy::keeper::NetKeeper;
use fm_records::refusal::Refusal;

impl<N: NetKeeper> Coordinator<N> {
    /// Makes the call: as the method of that name, at its cost and with its result. Refused for what is wrong with
    /// the call, else with HistoryFull, else with OutOfMemory. Then nothing has changed, except that a view may have
    /// built a stale network.
    pub fn call(&mut self, by: u32, call: Call) -> Result<CallOutput, Refusal>
        ensures ok { IfOk result (λ answer. self.new.state
            ≡ after self.old.state (history_entry by call (reply_to answer)) call) }
        ensures answer { IfOk result (λ answer. answer ≡ answer_to self.old.state call) }
        ensures history { IfOk result (λ answer. self.new.state.history
            ≡ self.old.state.history ++ history_entry by call (reply_to answer) ∷ []) }
        ensures within { IsOk result → cause (bounds self.old.state) call ≡ None }
        ensures event { (r : Replica) (event : Event) → Represents self.old.state r → call ≡ call_of event
            → OnOk result (IsEventAt r by event (reply_of r event) self.new.state) }
        ensures err { IfErr result (λ refusal. refusal ≡ refusal_for (bounds self.old.state) call) }
        ensures unchanged { OnErr result (self.new.state ≡ self.old.state) }
        ensures same_keeper { OnErr result ((call ≡ Call.View) ⊎ (self.new.keeper ≡ self.old.keeper)) }
    {
        match call {
            Call::Tell(op) => {
                self.tell(by, op)?;
                Ok(CallOutput::Done)
            }
            Call::Merge(packet) => {
                self.merge(by, packet)?;
                Ok(CallOutput::Done)
            }
            Call::Cut(range) => Ok(CallOutput::Packet(self.cut(by, range)?)),
            Call::Trim(n) => {
                self.trim(by, n)?;
                Ok(CallOutput::Done)
            }
            Call::View => Ok(CallOutput::View(self.view(by)?)),
            Call::Commit(plan) => Ok(CallOutput::Admitted(self.commit(by, plan)?)),
        }
    }
}

impl Call {
    /// The same call, for a second list: the packet of a merge shares its records with this one's. It costs a pointer
    /// for each block of these, and O(n) for the n entries of a plan. If memory runs out, the call is unchanged.
    pub fn share(&mut self) -> Result<Call, OutOfMemory>
        ensures ok { IfOk result (λ call. call ≡ self.old) }
        ensures same { self.new ≡ self.old }
    {
        match self {
            Call::Tell(op) => Ok(Call::Tell(*op)),
            Call::Merge(packet) => Ok(Call::Merge(packet.share()?)),
            Call::Cut(range) => Ok(Call::Cut(*range)),
            Call::Trim(n) => Ok(Call::Trim(*n)),
            Call::View => Ok(Call::View),
            Call::Commit(plan) => Ok(Call::Commit(plan.copy()?)),
        }
    }
}
