//! Coordinators, and every packet that they cut: what the main theorem is about.
//!
//! In whatever order, number of times and packets operations arrive, coordinators that received the same ones have the
//! same knowledge, winners and network. A world is changed by steps alone, one coordinator at a time, so each of its
//! states was reached by accepted steps. A delivery names a packet by its number among all that were cut.

ghost use Rattle.std.specs.Prelude.{◌≡◌, [], None, Some, IfOk, IfErr, IfSome, OnOk, OnErr, MatchOption, map, option_map, slice_get, length};
ghost use Rattle.fm_net.specs.Network.{net_of};
ghost use Rattle.fm_dimacs.specs.Sending.{AppendsPrefix, StopsBy};
ghost use Rattle.fm_dimacs.specs.Text.{dump_text};
ghost use Rattle.fm_coord.specs.Numbers.{AreDistinct};
ghost use Rattle.fm_records.specs.Know.{table_of};
ghost use Rattle.fm_coord.specs.Events.{Sent};
ghost use Rattle.fm_coord.specs.Replays.{seen_packet};
ghost use Rattle.fm_coord.specs.Decisions.{IsDecidedBy};
ghost use Rattle.fm_coord.specs.States.{cut_packet};
ghost use Rattle.fm_tally.specs.Tallies.{TallyIsFor};
ghost use Rattle.fm_world.specs.declared.step.Act.TheVariants as act;
ghost use Rattle.fm_world.specs.Worlds.{WorldOfSets, opening_world, with_number, cause_of, refusal_of, step_of, run_of, AreAccepted, taken_by, taken_in, StopsAt};
ghost use Rattle.fm_world.specs.Agreement.{EachKnows, SameAgree, IsDumpOf};
ghost use Rattle.fm_world.specs.Represents.{state_of, number_of, opening_of, AreUnused, AllStand, WorldRepresents, IsReached, state_with, view_shown};

use crate::dispatch::{act_at, give_at};
use crate::distinct::index_of;
use crate::step::{Act, RunStop, Step};
use fm_coord::coordinator::Coordinator;
use fm_coord::decision::Decision;
use fm_coord::entry::Range;
use fm_coord::shared::Shared;
use fm_coord::view::{TallyView, View};
use fm_delta::packet::Packet;
use fm_dimacs::out::Out;
use fm_know::laws::law_spelled;
use fm_policy::keeper::NetKeeper;
use fm_records::ids::CoordId;
use fm_records::refusal::Refusal;
use fm_round::plan::Admitted;
use std::marker::Model;

/// Coordinators, and every packet that they cut. Contracts see what the coordinators keep, without their networks. Each
/// world was reached by accepted steps.
#[derive(Drop)]
pub struct World<N: NetKeeper> {
    coordinators: Vec<Coordinator<N>>,
    packets: Vec<Shared<Packet>>,
}

impl<N: NetKeeper> Model for World<N> {
    ghost use Rattle.std.specs.Prelude.{map};
    ghost use Rattle.fm_world.specs.Represents.{Kept, IsReached, state_of};

    ghost Value = { Kept };

    ghost view = { λ a. record { coordinators = map state_of a.coordinators.items; packets = a.packets.items } };

    ghost invariant = { λ a. IsReached (record {
      coordinators = map state_of a.coordinators.items;
      packets = a.packets.items;
    }) };
}

impl<N: NetKeeper> World<N> {
    /// The coordinators with no packets. The caller must ensure that no two of them have one number, and that nothing
    /// happened to them. It allocates nothing.
    pub fn new(coordinators: Vec<Coordinator<N>>) -> World<N>
        requires distinct { AreDistinct (map number_of coordinators.items) }
        requires unused { AreUnused coordinators.items }
        ensures kept { result ≡ record { coordinators = map state_of coordinators.items; packets = [] } }
        ensures stands { WorldRepresents result (opening_world (map opening_of coordinators.items)) }
    {
        see_unused(coordinators.as_slice());
        let alloc = *coordinators.allocator();
        World {
            coordinators,
            packets: Vec::new(alloc),
        }
    }

    /// What holds of every world: accepted steps led to it from unused coordinators. For each world of sets for which
    /// the coordinators stand, such as the one to which those steps lead, each coordinator has the knowledge of the
    /// operations that it received, and those that received the same operations agree, in whatever order, number of
    /// times and packets these arrived.
    pub fn known(&self)
        ensures reached { IsReached self.now }
        ensures each_knows { (w : WorldOfSets) → WorldRepresents self.now w → EachKnows self.now w }
        ensures same_agree { (w : WorldOfSets) → WorldRepresents self.now w → SameAgree self.now w }
    {
        let _ = &self.coordinators;
    }

    /// The coordinator with the number, if there is one.
    pub fn coordinator(&self, number: CoordId) -> Option<&Coordinator<N>>
        ensures { option_map (λ c. c.now.state) result ≡ state_with self.now.coordinators number }
    {
        self.numbered(number.value())
    }

    /// The coordinator with the number, if there is one.
    pub fn numbered(&self, number: u8) -> Option<&Coordinator<N>>
        ensures { option_map (λ c. c.now.state) result ≡ state_with self.now.coordinators number }
    {
        match index_of(self.coordinators.as_slice(), number) {
            None => None,
            Some(place) => Some(&self.coordinators[place]),
        }
    }

    /// The coordinators, as they were passed.
    pub fn coordinators(&self) -> &[Coordinator<N>]
        ensures { map state_of result.now ≡ self.now.coordinators }
    {
        self.coordinators.as_slice()
    }

    /// How many packets were cut, over all coordinators.
    pub fn packet_count(&self) -> usize
        ensures { result ≡ length self.now.packets }
    {
        self.packets.len()
    }

    /// The packet with the number, counted from 0 in the order of cuts over all coordinators, if there is one.
    pub fn packet(&self, number: usize) -> Option<&Packet>
        ensures { option_map (λ packet. packet.now) result ≡ slice_get self.now.packets number }
    {
        match self.packets.get(number) {
            None => None,
            Some(packet) => Some(packet.get()),
        }
    }

    /// Takes a step, and returns the view if it is a View. Refused with NoCoordinator, NoPacket, then as the
    /// coordinator's call: BadOp, BadInterval, Trimmed, HistoryFull, OutOfMemory. Then nothing has changed, except
    /// possibly whether a network is fresh.
    pub fn step(&mut self, step: &Step) -> Result<Option<View>, Refusal>
        ensures stands { (w : WorldOfSets) → WorldRepresents self.old w
            → OnOk result (WorldRepresents self.new (step_of w step.now)) }
        ensures accepted { (w : WorldOfSets) → WorldRepresents self.old w → OnOk result (cause_of w step.now ≡ None) }
        ensures view { IfOk result (λ view. view
            ≡ view_shown (state_with self.old.coordinators step.now.at) step.now.act) }
        ensures err { (w : WorldOfSets) → WorldRepresents self.old w
            → IfErr result (λ refusal. refusal ≡ refusal_of w step.now) }
        ensures unchanged { OnErr result (self.new ≡ self.old) }
    {
        match index_of(self.coordinators.as_slice(), step.at) {
            None => Err(Refusal::NoCoordinator),
            Some(place) => act_at(
                &mut self.coordinators[place],
                &mut self.packets,
                step.by,
                &step.act,
            ),
        }
    }

    /// What the coordinator with this number knows, as a View shows it, with the tally in place of the network: a stale
    /// network stays stale. The history has the same entry. It costs what `Coordinator::see` does. NoCoordinator,
    /// HistoryFull, OutOfMemory. After a refusal nothing has changed.
    pub fn see(&mut self, at: u8, by: u32) -> Result<TallyView, Refusal>
        ensures stands { (w : WorldOfSets) → WorldRepresents self.old w
            → OnOk result (WorldRepresents self.new (step_of w (record { at = at; by = by; act = act.View }))) }
        ensures accepted { (w : WorldOfSets) → WorldRepresents self.old w
            → OnOk result (cause_of w (record { at = at; by = by; act = act.View }) ≡ None) }
        ensures sight { IfOk result (λ sight. view_shown (state_with self.old.coordinators at) act.View
            ≡ Some (record { at = sight.at; knowledge = sight.knowledge; network = net_of sight.knowledge })) }
        ensures tally { IfOk result (λ sight. TallyIsFor sight.knowledge sight.tally) }
        ensures err { (w : WorldOfSets) → WorldRepresents self.old w
            → IfErr result (λ refusal. refusal ≡ refusal_of w (record { at = at; by = by; act = act.View })) }
        ensures unchanged { OnErr result (self.new ≡ self.old) }
    {
        match index_of(self.coordinators.as_slice(), at) {
            None => Err(Refusal::NoCoordinator),
            Some(place) => self.coordinators[place].see(by),
        }
    }

    /// Makes the tally of what the coordinator with this number knows, if there is one, and memory for it: then a round that follows
    /// takes it, and neither plans nor admits by a walk over all tasks. Nothing that contracts speak of changes. It costs what
    /// `Coordinator::refresh_tally` does.
    pub fn refresh_tally(&mut self, at: u8)
        ensures { self.new ≡ self.old }
    {
        if let Some(place) = index_of(self.coordinators.as_slice(), at) {
            let _ = self.coordinators[place].refresh_tally();
        }
    }

    /// Has what the coordinator with this number knows shared, if there is one, and memory for it: then a packet of all of it costs a
    /// pointer for each block of records. Nothing that contracts speak of changes.
    pub fn share_known(&mut self, at: u8)
        ensures { self.new ≡ self.old }
    {
        if let Some(place) = index_of(self.coordinators.as_slice(), at) {
            let _ = self.coordinators[place].share_known();
        }
    }

    /// Carries out a decision that the coordinator with this number made by what it knows now: a step that commits the decision's plan,
    /// which is not admitted again. It costs what `Coordinator::accept` does. NoCoordinator, HistoryFull, OutOfMemory; then nothing has
    /// changed.
    pub fn accept(
        &mut self,
        at: u8,
        by: u32,
        decision: Decision,
    ) -> Result<Shared<Admitted>, Refusal>
        requires { IfSome (state_with self.old.coordinators at) (λ s. IsDecidedBy s decision) }
        ensures stands { (w : WorldOfSets) → WorldRepresents self.old w → OnOk result
            (WorldRepresents self.new (step_of w (record { at = at; by = by; act = act.Commit decision.plan }))) }
        ensures accepted { (w : WorldOfSets) → WorldRepresents self.old w
            → OnOk result (cause_of w (record { at = at; by = by; act = act.Commit decision.plan }) ≡ None) }
        ensures admitted { IfOk result (λ made. made ≡ decision.admitted) }
        ensures err { (w : WorldOfSets) → WorldRepresents self.old w → IfErr result
            (λ refusal. refusal ≡ refusal_of w (record { at = at; by = by; act = act.Commit decision.plan })) }
        ensures unchanged { OnErr result (self.new ≡ self.old) }
    {
        match index_of(self.coordinators.as_slice(), at) {
            None => Err(Refusal::NoCoordinator),
            Some(place) => self.coordinators[place].accept(by, decision),
        }
    }

    /// Gives a packet that the coordinator with this number made of the range by what it knows now (`Coordinator::packet_for`): a step that
    /// cuts the range, without making the packet again. NoCoordinator, then as the cut: BadInterval, Trimmed, HistoryFull, OutOfMemory.
    /// Then nothing has changed.
    pub fn give(
        &mut self,
        at: u8,
        by: u32,
        range: Range,
        packet: Shared<Packet>,
    ) -> Result<(), Refusal>
        requires { IfSome (state_with self.old.coordinators at) (λ s. packet ≡ cut_packet s range) }
        ensures stands { (w : WorldOfSets) → WorldRepresents self.old w → OnOk result
            (WorldRepresents self.new (step_of w (record { at = at; by = by; act = act.Cut range }))) }
        ensures accepted { (w : WorldOfSets) → WorldRepresents self.old w
            → OnOk result (cause_of w (record { at = at; by = by; act = act.Cut range }) ≡ None) }
        ensures err { (w : WorldOfSets) → WorldRepresents self.old w
            → IfErr result (λ refusal. refusal ≡ refusal_of w (record { at = at; by = by; act = act.Cut range })) }
        ensures unchanged { OnErr result (self.new ≡ self.old) }
    {
        match index_of(self.coordinators.as_slice(), at) {
            None => Err(Refusal::NoCoordinator),
            Some(place) => give_at(
                &mut self.coordinators[place],
                &mut self.packets,
                by,
                range,
                packet,
            ),
        }
    }

    /// Merges a packet of another world or process. Whatever operations the packet stands for, the coordinators then
    /// stand for the world in which these were merged: for example all that its sender had received. NoCoordinator,
    /// HistoryFull, OutOfMemory. Then nothing has changed, except possibly whether a network is fresh.
    pub fn take(&mut self, at: u8, by: u32, mut packet: Packet) -> Result<(), Refusal>
        ensures stands { (w : WorldOfSets) (sent : Sent) → WorldRepresents self.old w → packet ≡ seen_packet sent
            → OnOk result (WorldRepresents self.new (taken_in w at by sent)) }
        ensures accepted { (w : WorldOfSets) → WorldRepresents self.old w
            → OnOk result (cause_of w (record { at = at; by = by; act = act.Take packet }) ≡ None) }
        ensures err { (w : WorldOfSets) → WorldRepresents self.old w
            → IfErr result (λ refusal. refusal ≡ refusal_of w (record { at = at; by = by; act = act.Take packet })) }
        ensures unchanged { OnErr result (self.new ≡ self.old) }
    {
        law_spelled(&packet.value);
        // What the history keeps is shared with what is merged, if there is memory for that, else copied.
        let _ = packet.share();
        let step = Step {
            at,
            by,
            act: Act::Take(packet),
        };
        match self.step(&step) {
            Ok(_) => Ok(()),
            Err(refusal) => Err(refusal),
        }
    }

    /// Takes the steps in order, until the first that is refused: then it returns the place of that step, counted
    /// from 0, and why. The steps before it are done. Two coordinators that received the same operations, in whatever
    /// order, number of times and packets, then have equal knowledge, name the same winners, and have one network.
    pub fn run(&mut self, steps: &[Step]) -> Result<(), RunStop>
        ensures stands { (w : WorldOfSets) → WorldRepresents self.old w
            → WorldRepresents self.new (run_of w (taken_by result steps.now)) }
        ensures accepted { (w : WorldOfSets) → WorldRepresents self.old w → AreAccepted w (taken_by result steps.now) }
        ensures stopped { (w : WorldOfSets) → WorldRepresents self.old w
            → IfErr result (λ stop. StopsAt w steps.now stop) }
        ensures each_knows { (w : WorldOfSets) → WorldRepresents self.old w
            → EachKnows self.new (run_of w (taken_by result steps.now)) }
        ensures same_agree { (w : WorldOfSets) → WorldRepresents self.old w
            → SameAgree self.new (run_of w (taken_by result steps.now)) }
    {
        for (place, step) in steps.iter().enumerate() {
            if let Err(refusal) = self.step(step) {
                return Err(RunStop { place, refusal });
            }
        }
        Ok(())
    }

    /// Writes the text of the coordinator's network: the network of the operations that it received. The world is
    /// unchanged, also if the dump is refused: then a prefix was written. NoCoordinator, before anything is written;
    /// WriteFault, OutOfMemory.
    pub fn dump<W: Out>(&mut self, number: CoordId, out: &mut W) -> Result<(), Refusal>
        ensures ok { (w : WorldOfSets) → WorldRepresents self.old w
            → OnOk result (IsDumpOf (with_number w.replicas number) (W.written out.old) (W.written out.new)) }
        ensures ok_fails_not { OnOk result (W.has_failed out.new ≡ W.has_failed out.old) }
        ensures err { OnErr result (MatchOption (state_with self.old.coordinators number) (out.new ≡ out.old)
            (λ s. AppendsPrefix (W.written out.old) (W.written out.new) (dump_text (net_of s.knowledge)))) }
        ensures cause { IfErr result (λ refusal. MatchOption (state_with self.old.coordinators number) (refusal
            ≡ Refusal.NoCoordinator) (λ s. StopsBy refusal (W.has_failed out.old) (W.has_failed out.new))) }
        ensures same { self.new ≡ self.old }
    {
        match index_of(self.coordinators.as_slice(), number.value()) {
            None => Err(Refusal::NoCoordinator),
            Some(place) => self.coordinators[place].dump(out),
        }
    }
}

// Unused coordinators stand for unused replicas.
fn see_unused<N: NetKeeper>(coordinators: &[Coordinator<N>])
    requires { AreUnused coordinators.now }
    ensures { AllStand (map state_of coordinators.now) (opening_world (map opening_of coordinators.now)).replicas }
{
    if let Some((first, rest)) = coordinators.split_first() {
        first.known();
        see_unused(rest);
    }
}
