//! Admission of a plan: what of it still holds by what is known when it is committed.
//!
//! A plan is made of an earlier view, and other coordinators' operations may have come since. So each entry is answered
//! by the first rule that applies, on what is known with the operations of the entries accepted before it. So no
//! machine gets more than it has left, whatever the plan says. What machines hold is counted once and kept as tasks
//! come (`machine_holdings`).

ghost use Rattle.std.specs.Prelude.{◌≡◌, ℕ, ◌∷◌, ◌++◌, ◌==◌, ◌&&◌, [], true, false, IsTrue, IfOk, IfSome, OnOk};
ghost use Rattle.fm_records.specs.declared.ops.Op.{Op as Operation};
ghost use Rattle.fm_records.specs.declared.ops.Phase.TheVariants.{Pending as IsPending};
ghost use Rattle.fm_records.specs.Ranges.{in_range, all_in_range};
ghost use Rattle.fm_records.specs.OpsOfTable.{IsTable};
ghost use Rattle.fm_records.specs.Facts.{attempt_of, open_state};
ghost use Rattle.fm_know.specs.Limits.{StateWithin};
ghost use Rattle.fm_round.specs.Admission.{told, is_accepted, last_attempt, has_proposal, place_ops, place_answer, preempt_ops, preempt_answer, one_entry, admission_of_places, admission_of_preempts, admission, got_place, is_within_nic};
ghost use Rattle.fm_round.specs.inner.AdmissionSteps.{Took, IsAdmissionState};
ghost use Rattle.fm_records.specs.Sets.{IsMember};
ghost use Rattle.fm_round.specs.declared.plan.Place.{Place as Entry};
ghost use Rattle.fm_round.specs.inner.MachineHoldings.{is_counted, AreCountedHoldings};
ghost use Rattle.fm_tally.specs.Tallies.{TallyIsFor};

use crate::listed::Listed;
use crate::machine_holdings::Holdings;
use crate::plan::{Admitted, Answer, Place, Plan, Preempt};
use crate::rules::{has_proposal, place_answer, preempt_answer, request_of};
use fm_know::knowledge::Knowledge;
use fm_know::laws::law_u64;
use fm_lattice::join::{Join, OutOfMemory};
use fm_records::ids::{CoordId, MachineId, TaskId};
use fm_records::ops::{Op, Phase};
use fm_tally::tally::Tally;
use std::alloc::Global;

/// What is admitted of the coordinator's plan: the places are decided in their order, and then the preempts, each on
/// what is known with the operations of the earlier accepted entries, by the first rule that applies. A machine that
/// got a place has a load of at most its nic after all that is added. O(log n) for each entry, with the moves within
/// a block of a map; and if the plan has places, one scan of the known tasks with the proposals, and look-ups for the
/// tasks that a machine of the places won. It is refused only if memory runs out.
pub fn admit(
    alloc: Global,
    knowledge: &Knowledge,
    coordinator: CoordId,
    plan: &Plan,
) -> Result<Admitted, OutOfMemory>
    ensures admitted { IfOk result (λ a. a ≡ admission knowledge.now coordinator plan.now) }
    ensures in_range { IfOk result (λ a. IsTrue (all_in_range a.ops)) }
    ensures within_nic { IfOk result (λ a. (m : ℕ) → IsTrue (got_place plan.now.places a.answers m)
        → IsTrue (is_within_nic (told knowledge.now a.ops) m)) }
{
    let holdings = Holdings::of(alloc, knowledge, plan.places.as_slice())?;
    admit_with(alloc, knowledge, holdings, coordinator, plan)
}

/// As `admit`, by the tally of what is known, which the caller must pass: no task is scanned.
pub fn admit_by(
    alloc: Global,
    tally: &Tally,
    knowledge: &Knowledge,
    coordinator: CoordId,
    plan: &Plan,
) -> Result<Admitted, OutOfMemory>
    requires { TallyIsFor knowledge.now tally.now }
    ensures admitted { IfOk result (λ a. a ≡ admission knowledge.now coordinator plan.now) }
    ensures in_range { IfOk result (λ a. IsTrue (all_in_range a.ops)) }
    ensures within_nic { IfOk result (λ a. (m : ℕ) → IsTrue (got_place plan.now.places a.answers m)
        → IsTrue (is_within_nic (told knowledge.now a.ops) m)) }
{
    let holdings = Holdings::by(alloc, tally, plan.places.as_slice())?;
    admit_with(alloc, knowledge, holdings, coordinator, plan)
}

// What is admitted, if the machines of the places hold so much.
fn admit_with(
    alloc: Global,
    knowledge: &Knowledge,
    holdings: Holdings,
    coordinator: CoordId,
    plan: &Plan,
) -> Result<Admitted, OutOfMemory>
    requires holdings { AreCountedHoldings knowledge.now holdings }
    requires counted { (p : Entry) → IsMember p plan.now.places → IsTrue (is_counted holdings p.machine) }
    ensures admitted { IfOk result (λ a. a ≡ admission knowledge.now coordinator plan.now) }
    ensures in_range { IfOk result (λ a. IsTrue (all_in_range a.ops)) }
    ensures within_nic { IfOk result (λ a. (m : ℕ) → IsTrue (got_place plan.now.places a.answers m)
        → IsTrue (is_within_nic (told knowledge.now a.ops) m)) }
{
    knowledge.known();
    let mut state = AdmissionState::of(alloc, knowledge)?;
    state.take_places(holdings, coordinator, plan.places.as_slice())?;
    state.take_preempts(plan.preempts.as_slice())?;
    Ok(state.into_admitted())
}

/// What is known with the operations of the entries that were accepted so far, these operations, and the answers so
/// far.
#[derive(Drop)]
pub(crate) struct AdmissionState {
    pub(crate) alloc: Global,
    pub(crate) now: Knowledge,
    pub(crate) ops: Vec<Op>,
    pub(crate) answers: Vec<Answer>,
}

impl AdmissionState {
    // The state before the first entry.
    fn of(alloc: Global, knowledge: &Knowledge) -> Result<AdmissionState, OutOfMemory>
        ensures now { IfOk result (λ state. state.now ≡ knowledge.now) }
        ensures ops { IfOk result (λ state. state.ops.items ≡ []) }
        ensures answers { IfOk result (λ state. state.answers.items ≡ []) }
        ensures ready { IfOk result IsAdmissionState }
    {
        knowledge.known();
        Ok(AdmissionState {
            alloc,
            now: knowledge.copy()?,
            ops: Vec::new(alloc),
            answers: Vec::new(alloc),
        })
    }

    // What was admitted of the entries.
    fn into_admitted(self) -> Admitted
        ensures { result ≡ record { ops = self.ops.items; answers = self.answers.items } }
    {
        Admitted {
            ops: Listed::new(self.ops),
            answers: Listed::new(self.answers),
        }
    }

    // Takes the places in their order, if their machines hold so much.
    fn take_places(
        &mut self,
        holdings: Holdings,
        coordinator: CoordId,
        places: &[Place],
    ) -> Result<(), OutOfMemory>
        requires ready { IsAdmissionState self.old }
        requires holdings { AreCountedHoldings self.old.now holdings }
        requires counted { (p : Entry) → IsMember p places.now → IsTrue (is_counted holdings p.machine) }
        ensures took { OnOk result (Took (admission_of_places coordinator self.old.now places.now) self.old self.new) }
        ensures ready { OnOk result (IsAdmissionState self.new) }
    {
        let mut holdings = holdings;
        for place in places {
            self.take_place(&mut holdings, coordinator, place)?;
        }
        Ok(())
    }

    // Takes the preempts in their order.
    fn take_preempts(&mut self, preempts: &[Preempt]) -> Result<(), OutOfMemory>
        requires { IsAdmissionState self.old }
        ensures took { OnOk result (Took (admission_of_preempts self.old.now preempts.now) self.old self.new) }
        ensures ready { OnOk result (IsAdmissionState self.new) }
    {
        for preempt in preempts {
            self.take_preempt(preempt)?;
        }
        Ok(())
    }

    // Tells the operation, which is in range.
    fn tell(&mut self, op: Op) -> Result<(), OutOfMemory>
        requires { IsTrue (in_range op) }
        ensures now { OnOk result (self.new.now ≡ told self.old.now (op ∷ [])) }
        ensures ops { OnOk result (self.new.ops.items ≡ self.old.ops.items ++ op ∷ []) }
        ensures answers { self.new.answers.items ≡ self.old.answers.items }
    {
        tell_op(self.alloc, &mut self.now, &op)?;
        self.ops.push(op)?;
        Ok(())
    }

    // Notes the answer to an entry.
    fn answer(&mut self, answer: Answer) -> Result<(), OutOfMemory>
        ensures now { self.new.now ≡ self.old.now }
        ensures ops { self.new.ops.items ≡ self.old.ops.items }
        ensures answers { OnOk result (self.new.answers.items ≡ self.old.answers.items ++ answer ∷ []) }
    {
        self.answers.push(answer)?;
        Ok(())
    }

    // Tells the operations of an accepted place.
    fn tell_place(&mut self, coordinator: CoordId, place: &Place) -> Result<(), OutOfMemory>
        requires table { IsTable self.old.now }
        requires unspent { (has_proposal self.old.now place.now.task (attempt_of self.old.now place.now.task)
            && attempt_of self.old.now place.now.task == last_attempt) ≡ false }
        ensures now { OnOk result (self.new.now ≡ told self.old.now (place_ops coordinator self.old.now place.now)) }
        ensures ops { OnOk result (self.new.ops.items
            ≡ self.old.ops.items ++ place_ops coordinator self.old.now place.now) }
        ensures answers { self.new.answers.items ≡ self.old.answers.items }
        ensures in_range { OnOk result (IsTrue (all_in_range self.old.ops.items)
            → IsTrue (all_in_range self.new.ops.items)) }
    {
        let attempt = self.now.attempt(place.task).attempt;
        if has_proposal(&self.now, place.task, attempt) {
            self.tell(pending(place.task, attempt + 1))?;
            self.tell(proposal(coordinator, attempt + 1, place))
        } else {
            self.tell(proposal(coordinator, attempt, place))
        }
    }

    // Accepts the place: what the machine holds is counted, and the operations are told.
    fn accept_place(
        &mut self,
        holdings: &mut Holdings,
        coordinator: CoordId,
        place: &Place,
    ) -> Result<(), OutOfMemory>
        requires ready { IsAdmissionState self.old }
        requires holdings { AreCountedHoldings self.old.now holdings.old }
        requires counted { IsTrue (is_counted holdings.old place.now.machine) }
        requires accepted { is_accepted (place_answer coordinator self.old.now place.now) ≡ true }
        ensures now { OnOk result (self.new.now ≡ told self.old.now (place_ops coordinator self.old.now place.now)) }
        ensures ops { OnOk result (self.new.ops.items
            ≡ self.old.ops.items ++ place_ops coordinator self.old.now place.now) }
        ensures answers { self.new.answers.items ≡ self.old.answers.items }
        ensures ready { OnOk result (IsAdmissionState self.new) }
        ensures holdings { OnOk result (AreCountedHoldings self.new.now holdings.new) }
        ensures same { OnOk result ((m : ℕ) → is_counted holdings.new m ≡ is_counted holdings.old m) }
    {
        law_limits(&self.now, place.machine);
        let request = request_of(&self.now, place.task);
        holdings.add(place.machine, request)?;
        self.tell_place(coordinator, place)
    }

    // Accepts the preempt: the operation is told.
    fn accept_preempt(&mut self, preempt: &Preempt) -> Result<(), OutOfMemory>
        requires ready { IsAdmissionState self.old }
        requires accepted { is_accepted (preempt_answer self.old.now preempt.now) ≡ true }
        ensures now { OnOk result (self.new.now ≡ told self.old.now (preempt_ops self.old.now preempt.now)) }
        ensures ops { OnOk result (self.new.ops.items ≡ self.old.ops.items ++ preempt_ops self.old.now preempt.now) }
        ensures answers { self.new.answers.items ≡ self.old.answers.items }
        ensures ready { OnOk result (IsAdmissionState self.new) }
    {
        self.tell(pending(preempt.task, preempt.attempt + 1))
    }

    // Judges the place, and adds its operations if it is accepted.
    fn take_place(
        &mut self,
        holdings: &mut Holdings,
        coordinator: CoordId,
        place: &Place,
    ) -> Result<(), OutOfMemory>
        requires ready { IsAdmissionState self.old }
        requires holdings { AreCountedHoldings self.old.now holdings.old }
        requires counted { IsTrue (is_counted holdings.old place.now.machine) }
        ensures took { OnOk result (Took (one_entry (place_answer coordinator self.old.now place.now)
            (place_ops coordinator self.old.now place.now)) self.old self.new) }
        ensures ready { OnOk result (IsAdmissionState self.new) }
        ensures holdings { OnOk result (AreCountedHoldings self.new.now holdings.new) }
        ensures same { OnOk result ((m : ℕ) → is_counted holdings.new m ≡ is_counted holdings.old m) }
    {
        let answer = place_answer(&self.now, holdings, coordinator, place);
        if !is_accepted(answer) {
            return self.answer(answer);
        }
        self.accept_place(holdings, coordinator, place)?;
        self.answer(answer)
    }

    // Judges the preempt, and adds its operation if it is accepted.
    fn take_preempt(&mut self, preempt: &Preempt) -> Result<(), OutOfMemory>
        requires { IsAdmissionState self.old }
        ensures took { OnOk result (Took (one_entry (preempt_answer self.old.now preempt.now)
            (preempt_ops self.old.now preempt.now)) self.old self.new) }
        ensures ready { OnOk result (IsAdmissionState self.new) }
    {
        let answer = preempt_answer(&self.now, preempt);
        if !is_accepted(answer) {
            return self.answer(answer);
        }
        self.accept_preempt(preempt)?;
        self.answer(answer)
    }
}

// Whether the entry is accepted.
fn is_accepted(answer: Answer) -> bool
    ensures { result ≡ is_accepted answer }
{
    match answer {
        Answer::Gone
        | Answer::Held
        | Answer::AttemptsSpent
        | Answer::Contested
        | Answer::NoSlot
        | Answer::NoRoom => false,
        Answer::Accepted => true,
    }
}

// Takes the operation, which is in range, into what is known.
fn tell_op(alloc: Global, now: &mut Knowledge, op: &Op) -> Result<(), OutOfMemory>
    requires { IsTrue (in_range op.now) }
    ensures now { OnOk result (now.new ≡ told now.old (op.now ∷ [])) }
{
    let delta = Knowledge::delta_of(alloc, op)?;
    now.join_into(&delta)
}

// The limits of an open machine's state, which a clause does not see by itself.
fn law_limits(known: &Knowledge, machine: MachineId)
    ensures { IfSome (open_state known.now machine) StateWithin }
{
    let _state = known.open_state(machine);
}

// The operation that the task's attempt is pending.
fn pending(task: TaskId, attempt: u32) -> Op
    ensures op { result ≡ Op.Progress task attempt IsPending }
    ensures within { IsTrue (in_range result) }
{
    let _id = task.value();
    Op::Progress {
        id: task,
        attempt,
        phase: Phase::Pending,
    }
}

// The operation by which the coordinator proposes the place for the attempt.
fn proposal(coordinator: CoordId, attempt: u32, place: &Place) -> Op
    ensures op { result ≡ Op.Propose place.now.task attempt coordinator place.now.machine place.now.incarnation }
    ensures within { IsTrue (in_range result) }
{
    law_u64(place.incarnation);
    let _task = place.task.value();
    let _machine = place.machine.value();
    Op::Propose {
        id: place.task,
        attempt,
        coordinator: coordinator.value(),
        machine: place.machine,
        incarnation: place.incarnation,
    }
}
