//! One coordinator with its history: a replica of a delta-state CRDT, with the keeper of its network.
//!
//! The protocol is basic anti-entropy in the transitive mode (Almeida, Shoker and Baquero, 2018). What is told and what
//! is merged are both kept as deltas, and so go on to others. A call checks and allocates first and then changes all,
//! so that a refusal changes nothing but whether the network is fresh. The history has each accepted call, and all else
//! follows from it.

ghost use Rattle.std.specs.Prelude.{◌≡◌, ◌≤◌, ◌<◌, ◌+◌, ◌^◌, ◌↔◌, ◌∷◌, ◌++◌, [], length, vec_len, vec_capacity, is_none, IsTrue, Some, None, IsOk, IsOkUnless, IfOk, IfSome, IfErr, OnOk, OnErr};
ghost use Rattle.std.specs.List.{list_all};
ghost use Rattle.fm_records.specs.Ops.{op_fault};
ghost use Rattle.fm_records.specs.Know.{table_of};
ghost use Rattle.fm_records.specs.Joined.{table_join};
ghost use Rattle.fm_delta.specs.Deltas.{end_of, with_delta};
ghost use Rattle.fm_net.specs.Network.{net_of};
ghost use Rattle.fm_policy.specs.Changes.{changed_keys};
ghost use Rattle.std.specs.Io.KnownBytes.{Appends};
ghost use Rattle.fm_dimacs.specs.Sending.{AppendsPrefix, StopsBy, IsSent};
ghost use Rattle.fm_dimacs.specs.Text.{dump_text};
ghost use Rattle.fm_round.specs.Admission.{admission};
ghost use Rattle.fm_tally.specs.Tallies.{TallyIsFor};
ghost use Rattle.fm_coord.specs.Events.{Sent, Replica, packet_of};
ghost use Rattle.fm_coord.specs.Events as event;
ghost use Rattle.fm_coord.specs.Causes.{cause, refusal_for, room_fault, range_fault, floor_fault};
ghost use Rattle.fm_coord.specs.Replays.{seen_packet};
ghost use Rattle.fm_coord.specs.Decisions.{IsDecidedBy};
ghost use Rattle.fm_coord.specs.States.{new_state, bounds, history_entry, took, gave, after_trim, with_entry, cut_packet, range_value, Represents, IsEventAt, IsCoordinator};

use crate::decision::Decision;
use crate::entry::{Call, Entry, Range, Reply};
use crate::tally_cache::Tallied;
use crate::view::{KnownAt, TallyView, View};
use fm_delta::buffer::Buffer;
use fm_delta::packet::Packet;
use fm_dimacs::dump::dump;
use fm_dimacs::out::Out;
use fm_know::knowledge::Knowledge;
use fm_lattice::join::{Join, OutOfMemory};
use fm_lattice::shared::Shared;
use fm_net::network::Network;
use fm_policy::changed::{Changed, changed_of};
use fm_policy::keeper::NetKeeper;
use fm_records::ids::CoordId;
use fm_records::ops::Op;
use fm_records::refusal::Refusal;
use fm_round::admission::{admit, admit_by};
use fm_round::plan::{Admitted, Plan};
use fm_tally::tally::Tally;
use std::alloc::Global;
use std::marker::Model;

/// A coordinator: what it knows, the deltas that it received, its network, and the history of the calls that it
/// accepted, from which all the rest follows.
#[derive(Drop)]
pub struct Coordinator<N: NetKeeper> {
    alloc: Global,
    number: CoordId,
    limit: usize,
    knowledge: Knowledge,
    buffer: Buffer,
    cuts: u64,
    history: Vec<Entry>,
    keeper: N,
    // Whether the keeper follows what is known: it was fresh once, and was given all keys since.
    follows: bool,
    tallied: Tallied,
}

impl<N: NetKeeper> Model for Coordinator<N> {
    ghost use Rattle.fm_coord.specs.States.{WithKeeper};
    ghost use Rattle.fm_coord.specs.inner.KeeperStates.{HasKeeper};

    ghost Value = { WithKeeper N };

    ghost view = { λ a. record {
      state = record {
        number = a.number;
        limit = a.limit;
        knowledge = a.knowledge;
        deltas = a.buffer.deltas;
        cuts = a.cuts;
        history = a.history.items;
      };
      keeper = a.keeper;
    } };

    ghost invariant = { λ a. HasKeeper (record {
      number = a.number;
      limit = a.limit;
      knowledge = a.knowledge;
      deltas = a.buffer.deltas;
      cuts = a.cuts;
      history = a.history.items;
    }) (N.fresh a.keeper)
        (N.is_for a.keeper) a.follows (N.follows a.keeper) a.tallied };
}

impl<N: NetKeeper> Coordinator<N> {
    /// An unused coordinator, whose history may have as many entries as the limit. The caller must pass a keeper that
    /// is stale, or for nothing known. It allocates nothing.
    pub fn new(alloc: Global, number: CoordId, limit: usize, keeper: N) -> Coordinator<N>
        requires { IsTrue (N.fresh keeper) → N.is_for keeper (table_of []) }
        ensures state { result.state ≡ new_state number limit }
        ensures keeper { result.keeper ≡ keeper }
    {
        let follows = keeper.is_fresh();
        Coordinator {
            alloc,
            number,
            limit,
            knowledge: Knowledge::empty(alloc),
            buffer: Buffer::new(alloc),
            cuts: 0,
            history: Vec::new(alloc),
            keeper,
            follows,
            tallied: Tallied::new(alloc),
        }
    }

    /// What holds of every coordinator: its history is legal, it stands for the replica that its history replays to,
    /// and its keeper is stale or for what it knows.
    pub fn known(&self)
        ensures coordinator { IsCoordinator self.now.state }
        ensures keeper { IsTrue (N.fresh self.now.keeper) → N.is_for self.now.keeper self.now.state.knowledge }
    {
        let _ = &self.number;
    }

    /// Its number.
    pub fn number(&self) -> CoordId
        ensures { result ≡ self.now.state.number }
    {
        self.number
    }

    /// How many entries its history may have.
    pub fn limit(&self) -> usize
        ensures { result ≡ self.now.state.limit }
    {
        self.limit
    }

    /// The calls that it accepted, in order.
    pub fn history(&self) -> &[Entry]
        ensures { result.now ≡ self.now.state.history }
    {
        self.history.as_slice()
    }

    /// What it knows.
    pub fn knowledge(&self) -> &Knowledge
        ensures { result.now ≡ self.now.state.knowledge }
    {
        &self.knowledge
    }

    /// The keeper of its network.
    pub fn keeper(&self) -> &N
        ensures { result.now ≡ self.now.keeper }
    {
        &self.keeper
    }

    /// The first delta that it keeps.
    pub fn floor(&self) -> u64
        ensures { result ≡ self.now.state.deltas.floor }
    {
        self.buffer.floor()
    }

    /// How many deltas it received.
    pub fn end(&self) -> u64
        ensures { result ≡ end_of self.now.state.deltas }
    {
        self.buffer.end()
    }

    /// Whether its network is that of what it knows. It is stale after memory ran out, or if the keeper leaves a delta
    /// to the next build.
    pub fn is_fresh(&self) -> bool
        ensures { result ≡ N.fresh self.now.keeper }
    {
        self.keeper.is_fresh()
    }

    /// Whether there is room for an entry. HistoryFull if there is none.
    pub fn check_room(&self) -> Result<(), Refusal>
        ensures ok { OnOk result (room_fault (bounds self.now.state) ≡ None) }
        ensures err { IfErr result (λ refusal. room_fault (bounds self.now.state) ≡ Some refusal) }
    {
        if self.history.len() >= self.limit {
            return Err(Refusal::HistoryFull);
        }
        Ok(())
    }

    /// Whether a packet of the range can be cut. BadInterval if it ends before it starts or beyond the end, Trimmed
    /// with the floor if it starts below that.
    pub fn check_range(&self, range: Range) -> Result<(), Refusal>
        ensures ok { OnOk result (range_fault (bounds self.now.state) range ≡ None) }
        ensures err { IfErr result (λ refusal. range_fault (bounds self.now.state) range ≡ Some refusal) }
    {
        if let Range::Interval(from, to) = range {
            if from > to || to > self.buffer.end() {
                return Err(Refusal::BadInterval);
            }
            if from < self.buffer.floor() {
                return Err(Refusal::Trimmed(self.buffer.floor()));
            }
        }
        Ok(())
    }

    /// Whether a packet of the range can be cut now: as `check_range` says, then as `check_room` does.
    pub fn check_cut(&self, range: Range) -> Result<(), Refusal>
        ensures ok { OnOk result (cause (bounds self.now.state) (Call.Cut range) ≡ None) }
        ensures err { IfErr result (λ refusal. cause (bounds self.now.state) (Call.Cut range) ≡ Some refusal) }
    {
        self.check_range(range)?;
        self.check_room()
    }

    // Whether the floor may be n.
    fn check_floor(&self, n: u64) -> Result<(), Refusal>
        ensures ok { OnOk result (floor_fault (bounds self.now.state) n ≡ None) }
        ensures err { IfErr result (λ refusal. floor_fault (bounds self.now.state) n ≡ Some refusal) }
    {
        if n < self.buffer.floor() || n > self.buffer.end() {
            return Err(Refusal::BadInterval);
        }
        Ok(())
    }

    // Takes a delta in with its entry, or does nothing.
    fn take_in(&mut self, delta: Knowledge, entry: Entry) -> Result<(), OutOfMemory>
        requires { IsCoordinator (took self.old.state delta entry) }
        ensures ok { OnOk result (self.new.state ≡ took self.old.state delta entry) }
        ensures keeper { OnOk result (N.absorbs self.old.keeper (changed_keys delta) self.new.keeper) }
        ensures err { OnErr result (self.new ≡ self.old) }
    {
        self.knowledge.known();
        delta.known();
        let changed = add_delta(
            self.alloc,
            &mut self.knowledge,
            &mut self.buffer,
            &mut self.history,
            delta,
            entry,
        )?;
        // A network that cannot follow is stale, and the call is accepted.
        let _ = self.keeper.absorb(self.alloc, &self.knowledge, &changed);
        self.tallied.absorb(self.alloc, &changed);
        Ok(())
    }

    /// Tells the coordinator an operation. BadOp with the first field that is out of its range, HistoryFull,
    /// OutOfMemory; then nothing has changed.
    pub fn tell(&mut self, by: u32, op: Op) -> Result<(), Refusal>
        ensures ok { OnOk result (self.new.state
            ≡ took self.old.state (table_of (op ∷ [])) (history_entry by (Call.Tell op) Reply.Nothing)) }
        ensures keeper { OnOk result (N.absorbs self.old.keeper (changed_keys (table_of (op ∷ []))) self.new.keeper) }
        ensures within { IsOk result → cause (bounds self.old.state) (Call.Tell op) ≡ None }
        ensures event { (r : Replica) → Represents self.old.state r
            → OnOk result (IsEventAt r by (event.Tell op) Reply.Nothing self.new.state) }
        ensures err { IfErr result (λ refusal. refusal ≡ refusal_for (bounds self.old.state) (Call.Tell op)) }
        ensures unchanged { OnErr result (self.new ≡ self.old) }
    {
        self.known();
        op.check()?;
        self.check_room()?;
        let delta = Knowledge::delta_of(self.alloc, &op)?;
        let told = Entry {
            by,
            call: Call::Tell(op),
            reply: Reply::Nothing,
        };
        self.take_in(delta, told)?;
        Ok(())
    }

    /// Merges a packet's value. The history, the deltas and, if nothing was known before, the knowledge share its
    /// records. HistoryFull, OutOfMemory; then nothing has changed.
    pub fn merge(&mut self, by: u32, mut packet: Packet) -> Result<(), Refusal>
        ensures ok { OnOk result (self.new.state
            ≡ took self.old.state packet.value (history_entry by (Call.Merge packet) Reply.Nothing)) }
        ensures keeper { OnOk result (N.absorbs self.old.keeper (changed_keys packet.value) self.new.keeper) }
        ensures within { IsOk result → cause (bounds self.old.state) (Call.Merge packet) ≡ None }
        ensures event { (r : Replica) (sent : Sent) → Represents self.old.state r → packet ≡ seen_packet sent
            → OnOk result (IsEventAt r by (event.Merge sent) Reply.Nothing self.new.state) }
        ensures err { IfErr result (λ refusal. refusal ≡ refusal_for (bounds self.old.state) (Call.Merge packet)) }
        ensures unchanged { OnErr result (self.new ≡ self.old) }
    {
        self.known();
        packet.value.known();
        self.check_room()?;
        let delta = packet.value.share()?;
        let merged = Entry {
            by,
            call: Call::Merge(packet),
            reply: Reply::Nothing,
        };
        self.take_in(delta, merged)?;
        Ok(())
    }

    /// A packet of the range: the join of an interval's deltas, or all that is known, which it then shares. Its
    /// number is 1 plus the number of packets cut before. BadInterval, Trimmed, HistoryFull, OutOfMemory; then
    /// nothing has changed.
    pub fn cut(&mut self, by: u32, range: Range) -> Result<Shared<Packet>, Refusal>
        ensures ok { IfOk result (λ packet. self.new.state
            ≡ gave self.old.state (history_entry by (Call.Cut range) (Reply.Packet packet))) }
        ensures packet { IfOk result (λ packet. packet ≡ cut_packet self.old.state range) }
        ensures keeper { self.new.keeper ≡ self.old.keeper }
        ensures within { IsOk result → cause (bounds self.old.state) (Call.Cut range) ≡ None }
        ensures event { (r : Replica) → Represents self.old.state r
            → IfOk result (λ packet. IsEventAt r by (event.Cut range) (Reply.Packet packet) self.new.state) }
        ensures err { IfErr result (λ refusal. refusal ≡ refusal_for (bounds self.old.state) (Call.Cut range)) }
        ensures unchanged { OnErr result (self.new ≡ self.old) }
    {
        self.share_for(range)?;
        let packet = self.packet_for(range)?;
        self.give(by, range, &packet)?;
        Ok(packet)
    }

    /// Gives a packet that `packet_for` made of the range: it counts as cut, and the history shares it. A `cut` is the two in one, for
    /// callers to whom nothing can fail between. BadInterval, Trimmed, HistoryFull, OutOfMemory; then nothing has changed.
    pub fn give(&mut self, by: u32, range: Range, packet: &Shared<Packet>) -> Result<(), Refusal>
        requires { packet.now ≡ cut_packet self.old.state range }
        ensures ok { OnOk result (self.new.state
            ≡ gave self.old.state (history_entry by (Call.Cut range) (Reply.Packet packet.now))) }
        ensures keeper { self.new.keeper ≡ self.old.keeper }
        ensures within { IsOk result → cause (bounds self.old.state) (Call.Cut range) ≡ None }
        ensures event { (r : Replica) → Represents self.old.state r
            → OnOk result (IsEventAt r by (event.Cut range) (Reply.Packet packet.now) self.new.state) }
        ensures err { IfErr result (λ refusal. refusal ≡ refusal_for (bounds self.old.state) (Call.Cut range)) }
        ensures unchanged { OnErr result (self.new ≡ self.old) }
    {
        self.known();
        self.check_cut(range)?;
        let given = Entry {
            by,
            call: Call::Cut(range),
            reply: Reply::Packet(packet.share()?),
        };
        self.history.push(given)?;
        self.cuts += 1;
        Ok(())
    }

    // Has all that is known shared, if it is to be cut.
    fn share_for(&mut self, range: Range) -> Result<(), Refusal>
        ensures same { self.new ≡ self.old }
        ensures err { IfErr result (λ refusal. refusal ≡ refusal_for (bounds self.old.state) (Call.Cut range)) }
    {
        if range == Range::Full {
            self.check_room()?;
            self.share_known()?;
        }
        Ok(())
    }

    /// The packet that a cut of the range would return now. The history does not change, and the next cut gets the
    /// same number. It costs what the cut costs, and a copy of what is known but not shared yet. Refused as the cut
    /// would be: BadInterval, Trimmed, HistoryFull, OutOfMemory.
    pub fn packet_for(&self, range: Range) -> Result<Shared<Packet>, Refusal>
        ensures ok { IfOk result (λ packet. packet ≡ cut_packet self.now.state range) }
        ensures within { IsOk result → cause (bounds self.now.state) (Call.Cut range) ≡ None }
        ensures seen { (r : Replica) → Represents self.now.state r
            → IfOk result (λ packet. packet ≡ seen_packet (packet_of r range)) }
        ensures err { IfErr result (λ refusal. refusal ≡ refusal_for (bounds self.now.state) (Call.Cut range)) }
    {
        self.check_cut(range)?;
        self.packet_of(range)
    }

    // The packet of a cut.
    fn packet_of(&self, range: Range) -> Result<Shared<Packet>, Refusal>
        requires range { range_fault (bounds self.now.state) range ≡ None }
        requires room { room_fault (bounds self.now.state) ≡ None }
        ensures ok { IfOk result (λ packet. packet ≡ cut_packet self.now.state range) }
        ensures err { IsOkUnless result Refusal.OutOfMemory }
    {
        let value = self.shared_value_of(range)?;
        let packet = Packet {
            sender: self.number,
            number: self.cuts + 1,
            value,
        };
        Ok(Shared::new(self.alloc, packet)?)
    }

    // The knowledge of the range, whose records copies share.
    fn shared_value_of(&self, range: Range) -> Result<Knowledge, Refusal>
        requires range { range_fault (bounds self.now.state) range ≡ None }
        ensures ok { IfOk result (λ value. value ≡ range_value self.now.state range) }
        ensures err { IsOkUnless result Refusal.OutOfMemory }
    {
        let mut value = self.value_of(range)?;
        Ok(value.share()?)
    }

    // The knowledge of the range.
    fn value_of(&self, range: Range) -> Result<Knowledge, Refusal>
        requires range { range_fault (bounds self.now.state) range ≡ None }
        ensures ok { IfOk result (λ value. value ≡ range_value self.now.state range) }
        ensures err { IsOkUnless result Refusal.OutOfMemory }
    {
        match range {
            Range::Interval(from, to) => self.buffer.cut(from, to),
            Range::Full => Ok(self.knowledge.copy()?),
        }
    }

    /// Drops the deltas below n, which then can no longer be cut. BadInterval if n is below the floor or above the
    /// end, HistoryFull, OutOfMemory; then nothing has changed.
    pub fn trim(&mut self, by: u32, n: u64) -> Result<(), Refusal>
        ensures ok { OnOk result (self.new.state
            ≡ after_trim self.old.state n (history_entry by (Call.Trim n) Reply.Nothing)) }
        ensures keeper { self.new.keeper ≡ self.old.keeper }
        ensures within { IsOk result → cause (bounds self.old.state) (Call.Trim n) ≡ None }
        ensures event { (r : Replica) → Represents self.old.state r
            → OnOk result (IsEventAt r by (event.Trim n) Reply.Nothing self.new.state) }
        ensures err { IfErr result (λ refusal. refusal ≡ refusal_for (bounds self.old.state) (Call.Trim n)) }
        ensures unchanged { OnErr result (self.new ≡ self.old) }
    {
        self.check_floor(n)?;
        self.check_room()?;
        let trimmed = Entry {
            by,
            call: Call::Trim(n),
            reply: Reply::Nothing,
        };
        self.history.push(trimmed)?;
        self.buffer.trim(n).unwrap();
        Ok(())
    }

    /// What is known now, with the number of entries before this one's, and the network, which is built first if it
    /// is stale. The knowledge is shared and not copied: that costs the first key of each block of records and a
    /// pointer to it, and memory for each block that was written since the last view. The network is shared by one
    /// pointer; a keeper that edits copies it, O(arcs), at its first edit while the view still exists. HistoryFull,
    /// OutOfMemory; then nothing has changed, except that a stale network may have been built.
    pub fn view(&mut self, by: u32) -> Result<View, Refusal>
        ensures ok { IfOk result (λ view. self.new.state
            ≡ with_entry self.old.state (history_entry by Call.View (Reply.Seen view.at view.knowledge))) }
        ensures at { IfOk result (λ view. view.at ≡ length self.old.state.history) }
        ensures knowledge { IfOk result (λ view. view.knowledge ≡ self.old.state.knowledge) }
        ensures network { IfOk result (λ view. view.network ≡ net_of self.old.state.knowledge) }
        ensures fresh { OnOk result (IsTrue (N.fresh self.new.keeper)) }
        ensures keeper { IsTrue (N.fresh self.old.keeper) → self.new.keeper ≡ self.old.keeper }
        ensures within { IsOk result → cause (bounds self.old.state) Call.View ≡ None }
        ensures event { (r : Replica) → Represents self.old.state r
            → IfOk result (λ view. IsEventAt r by event.View (Reply.Seen view.at view.knowledge) self.new.state) }
        ensures err { IfErr result (λ refusal. refusal ≡ refusal_for (bounds self.old.state) Call.View) }
        ensures unchanged { OnErr result (self.new.state ≡ self.old.state) }
    {
        self.check_room()?;
        self.refresh()?;
        let network = self.network()?;
        let look = self.look(by)?;
        Ok(View {
            at: look.at,
            knowledge: look.knowledge,
            network,
        })
    }

    /// As `view`, with the tally in place of the network: a stale network stays stale. The history has the same entry.
    /// It costs what `refresh_tally` does, and sharing what is known, as a view does. The tally is shared by a pointer.
    /// HistoryFull, OutOfMemory; then nothing has changed.
    pub fn see(&mut self, by: u32) -> Result<TallyView, Refusal>
        ensures ok { IfOk result (λ sight. self.new.state
            ≡ with_entry self.old.state (history_entry by Call.View (Reply.Seen sight.at sight.knowledge))) }
        ensures at { IfOk result (λ sight. sight.at ≡ length self.old.state.history) }
        ensures knowledge { IfOk result (λ sight. sight.knowledge ≡ self.old.state.knowledge) }
        ensures tally { IfOk result (λ sight. TallyIsFor sight.knowledge sight.tally) }
        ensures keeper { self.new.keeper ≡ self.old.keeper }
        ensures within { IsOk result → cause (bounds self.old.state) Call.View ≡ None }
        ensures event { (r : Replica) → Represents self.old.state r
            → IfOk result (λ sight. IsEventAt r by event.View (Reply.Seen sight.at sight.knowledge) self.new.state) }
        ensures err { IfErr result (λ refusal. refusal ≡ refusal_for (bounds self.old.state) Call.View) }
        ensures unchanged { OnErr result (self.new.state ≡ self.old.state) }
    {
        self.check_room()?;
        let tally = self.fresh_tally()?;
        let look = self.look(by)?;
        Ok(TallyView {
            at: look.at,
            knowledge: look.knowledge,
            tally,
        })
    }

    // What is known now, which the history notes as seen.
    fn look(&mut self, by: u32) -> Result<KnownAt, Refusal>
        ensures ok { IfOk result (λ look. self.new.state
            ≡ with_entry self.old.state (history_entry by Call.View (Reply.Seen look.at look.knowledge))) }
        ensures at { IfOk result (λ look. look.at ≡ length self.old.state.history) }
        ensures knowledge { IfOk result (λ look. look.knowledge ≡ self.old.state.knowledge) }
        ensures keeper { self.new.keeper ≡ self.old.keeper }
        ensures within { IsOk result → cause (bounds self.old.state) Call.View ≡ None }
        ensures event { (r : Replica) → Represents self.old.state r
            → IfOk result (λ look. IsEventAt r by event.View (Reply.Seen look.at look.knowledge) self.new.state) }
        ensures err { IfErr result (λ refusal. refusal ≡ refusal_for (bounds self.old.state) Call.View) }
        ensures unchanged { OnErr result (self.new.state ≡ self.old.state) }
    {
        self.known();
        self.check_room()?;
        let look = self.known_now()?;
        let seen = Entry {
            by,
            call: Call::View,
            reply: Reply::Seen(look.at, look.knowledge.share()?),
        };
        self.note(seen)?;
        Ok(look)
    }

    // What is known now. The coordinator and the look share it from then on.
    fn known_now(&mut self) -> Result<KnownAt, OutOfMemory>
        ensures at { IfOk result (λ look. look.at ≡ length self.old.state.history) }
        ensures knowledge { IfOk result (λ look. look.knowledge ≡ self.old.state.knowledge) }
        ensures state { self.new.state ≡ self.old.state }
        ensures keeper { self.new.keeper ≡ self.old.keeper }
        ensures same { self.new ≡ self.old }
    {
        let knowledge = self.knowledge.share()?;
        Ok(KnownAt {
            at: self.history.len(),
            knowledge: Shared::new(self.alloc, knowledge)?,
        })
    }

    /// Has what is known shared, so that a packet of all of it copies a pointer for each block of records. Nothing that contracts speak of
    /// changes. OutOfMemory.
    pub fn share_known(&mut self) -> Result<(), OutOfMemory>
        ensures state { self.new.state ≡ self.old.state }
        ensures keeper { self.new.keeper ≡ self.old.keeper }
        ensures same { self.new ≡ self.old }
    {
        let _ = self.knowledge.share()?;
        Ok(())
    }

    // Makes a stale network that of what is known: from what the keeper kept, or by building.
    fn refresh(&mut self) -> Result<(), OutOfMemory>
        ensures state { self.new.state ≡ self.old.state }
        ensures fresh { OnOk result (IsTrue (N.fresh self.new.keeper)) }
        ensures keeper { IsTrue (N.fresh self.old.keeper) → self.new.keeper ≡ self.old.keeper }
    {
        if self.keeper.is_fresh() {
            return Ok(());
        }
        self.knowledge.known();
        if self.follows {
            return self.keeper.refresh(self.alloc, &self.knowledge);
        }
        self.keeper.rebuild(self.alloc, &self.knowledge)?;
        self.follows = true;
        Ok(())
    }

    // The network, for one more owner.
    fn network(&self) -> Result<Shared<Network>, OutOfMemory>
        requires { IsTrue (N.fresh self.now.keeper) }
        ensures { IfOk result (λ network. network ≡ net_of self.now.state.knowledge) }
    {
        self.known();
        let network = self.keeper.share()?;
        Ok(network)
    }

    // Adds an entry alone.
    fn note(&mut self, entry: Entry) -> Result<(), OutOfMemory>
        requires { IsCoordinator (with_entry self.old.state entry) }
        ensures ok { OnOk result (self.new.state ≡ with_entry self.old.state entry) }
        ensures keeper { self.new.keeper ≡ self.old.keeper }
        ensures err { OnErr result (self.new.state ≡ self.old.state) }
    {
        self.history.push(entry)?;
        Ok(())
    }

    /// Makes the tally of what is known, which `tally` then shows until something is told. The tasks that changed since the last one are
    /// looked up; many, or all if there was none, are walked over: O(n log n). What is known is shared, so that an admission copies a
    /// pointer for each block of records. Nothing that contracts speak of changes. OutOfMemory; then there may be no tally.
    pub fn refresh_tally(&mut self) -> Result<(), OutOfMemory>
        ensures { self.new ≡ self.old }
    {
        if self.tally().is_some() {
            return Ok(());
        }
        self.share_known()?;
        let _tally = self.fresh_tally()?;
        Ok(())
    }

    // The tally of what is known, for one more owner.
    fn fresh_tally(&mut self) -> Result<Shared<Tally>, OutOfMemory>
        ensures tally { IfOk result (TallyIsFor self.old.state.knowledge) }
        ensures same { self.new ≡ self.old }
    {
        self.tallied.refresh(self.alloc, &self.knowledge)
    }

    /// The tally of what is known, if there is one: `refresh_tally` makes it, and what is told drops it.
    pub fn tally(&self) -> Option<&Tally>
        ensures { IfSome result (λ tally. TallyIsFor self.now.state.knowledge tally.now) }
    {
        self.tallied.tally()
    }

    /// Admits a plan, merges the operations of the accepted entries, and returns these with the answers. If nothing
    /// is admitted, the delta is empty. It costs what `admission` does. HistoryFull, OutOfMemory; then nothing has
    /// changed.
    pub fn commit(&mut self, by: u32, plan: Plan) -> Result<Shared<Admitted>, Refusal>
        ensures ok { IfOk result (λ made. self.new.state
            ≡ took self.old.state (table_of made.ops) (history_entry by (Call.Commit plan) (Reply.Admitted made))) }
        ensures keeper { IfOk result
            (λ made. N.absorbs self.old.keeper (changed_keys (table_of made.ops)) self.new.keeper) }
        ensures admitted { IfOk result (λ a. a ≡ admission self.old.state.knowledge self.old.state.number plan) }
        ensures within { IsOk result → cause (bounds self.old.state) (Call.Commit plan) ≡ None }
        ensures event { (r : Replica) → Represents self.old.state r
            → IfOk result (λ made. IsEventAt r by (event.Commit plan) (Reply.Admitted made) self.new.state) }
        ensures err { IfErr result (λ refusal. refusal ≡ refusal_for (bounds self.old.state) (Call.Commit plan)) }
        ensures unchanged { OnErr result (self.new ≡ self.old) }
    {
        let decision = self.decide(plan)?;
        self.accept(by, decision)
    }

    /// What `commit` of the plan would do now: what it would admit, and the delta that it would merge. Nothing changes. The decision can be
    /// accepted until the coordinator takes something in. It costs what `admission` does. HistoryFull, OutOfMemory.
    pub fn decide(&self, plan: Plan) -> Result<Decision, Refusal>
        ensures decided { IfOk result (λ decision. IsDecidedBy self.now.state decision) }
        ensures plan { IfOk result (λ decision. decision.plan ≡ plan) }
        ensures within { IsOk result → cause (bounds self.now.state) (Call.Commit plan) ≡ None }
        ensures err { IfErr result (λ refusal. refusal ≡ refusal_for (bounds self.now.state) (Call.Commit plan)) }
    {
        let (admitted, delta) = self.decided(&plan)?;
        Ok(Decision {
            plan,
            admitted,
            delta,
        })
    }

    // What of the plan is admitted, if there is room for an entry, and the delta of it.
    fn decided(&self, plan: &Plan) -> Result<(Shared<Admitted>, Knowledge), Refusal>
        ensures admitted { IfOk result
            (λ made. made.0 ≡ admission self.now.state.knowledge self.now.state.number plan.now) }
        ensures delta { IfOk result (λ made. made.1 ≡ table_of made.0.ops) }
        ensures within { IsOk result → cause (bounds self.now.state) (Call.Commit plan.now) ≡ None }
        ensures err { IfErr result
            (λ refusal. refusal ≡ refusal_for (bounds self.now.state) (Call.Commit plan.now)) }
    {
        self.check_room()?;
        let made = self.admission(plan)?;
        let delta = Knowledge::told(self.alloc, made.ops.as_slice())?;
        Ok((Shared::new(self.alloc, made)?, delta))
    }

    /// Carries a decision out: merges its delta, and returns what was admitted, which the history shares. Nothing is admitted again, so the
    /// decision must be one by what the coordinator knows. It costs what merging the delta does. HistoryFull, OutOfMemory; then nothing
    /// has changed.
    pub fn accept(&mut self, by: u32, decision: Decision) -> Result<Shared<Admitted>, Refusal>
        requires { IsDecidedBy self.old.state decision }
        ensures ok { IfOk result (λ made. self.new.state ≡ took self.old.state (table_of made.ops)
            (history_entry by (Call.Commit decision.plan) (Reply.Admitted made))) }
        ensures keeper { IfOk result
            (λ made. N.absorbs self.old.keeper (changed_keys (table_of made.ops)) self.new.keeper) }
        ensures admitted { IfOk result (λ made. made ≡ decision.admitted) }
        ensures within { IsOk result → cause (bounds self.old.state) (Call.Commit decision.plan) ≡ None }
        ensures event { (r : Replica) → Represents self.old.state r → IfOk result
            (λ made. IsEventAt r by (event.Commit decision.plan) (Reply.Admitted made) self.new.state) }
        ensures err { IfErr result
            (λ refusal. refusal ≡ refusal_for (bounds self.old.state) (Call.Commit decision.plan)) }
        ensures unchanged { OnErr result (self.new ≡ self.old) }
    {
        self.known();
        self.check_room()?;
        let (admitted, delta, committed) = carried_out(by, decision)?;
        self.take_in(delta, committed)?;
        Ok(admitted)
    }

    /// What `commit` of the plan would admit now. Nothing changes. Refused only if memory runs out. With a tally it costs O(log n) for
    /// each entry of the plan, with the moves within a block of a map; without one also a scan of the known tasks.
    pub fn admission(&self, plan: &Plan) -> Result<Admitted, OutOfMemory>
        ensures admitted { IfOk result (λ a. a ≡ admission self.now.state.knowledge self.now.state.number plan.now) }
        ensures in_range { IfOk result (λ a. IsTrue (list_all (λ op. is_none (op_fault op)) a.ops)) }
    {
        match self.tallied.tally() {
            Some(tally) => admit_by(self.alloc, tally, &self.knowledge, self.number, plan),
            None => admit(self.alloc, &self.knowledge, self.number, plan),
        }
    }

    /// Writes the text of its network, which is built first if it is stale. It adds no entry, and knowledge, deltas
    /// and history are unchanged, also if it is refused: then a prefix was written. WriteFault, OutOfMemory.
    pub fn dump<W: Out>(&mut self, out: &mut W) -> Result<(), Refusal>
        ensures ok { OnOk result (Appends (W.written out.old) (W.written out.new)
            (dump_text (net_of self.old.state.knowledge))) }
        ensures ok_fails_not { OnOk result (W.has_failed out.new ≡ W.has_failed out.old) }
        ensures err { OnErr result (AppendsPrefix (W.written out.old) (W.written out.new)
            (dump_text (net_of self.old.state.knowledge))) }
        ensures cause { IfErr result (λ refusal. StopsBy refusal (W.has_failed out.old) (W.has_failed out.new)) }
        ensures state { self.new.state ≡ self.old.state }
        ensures fresh { OnOk result (IsTrue (N.fresh self.new.keeper)) }
        ensures keeper { IsTrue (N.fresh self.old.keeper) → self.new.keeper ≡ self.old.keeper }
    {
        self.refresh()?;
        self.write(out)
    }

    // Writes the text of the network.
    fn write<W: Out>(&self, out: &mut W) -> Result<(), Refusal>
        requires { IsTrue (N.fresh self.now.keeper) }
        ensures { IsSent result (W.written out.old) (W.written out.new) (W.has_failed out.old) (W.has_failed out.new)
            (dump_text (net_of self.now.state.knowledge)) }
    {
        dump(self.alloc, self.keeper.network(), out)
    }
}

// What was admitted, the delta and the entry of a decision that is carried out.
fn carried_out(
    by: u32,
    decision: Decision,
) -> Result<(Shared<Admitted>, Knowledge, Entry), OutOfMemory>
    ensures admitted { IfOk result (λ parts. parts.0 ≡ decision.admitted) }
    ensures delta { IfOk result (λ parts. parts.1 ≡ decision.delta) }
    ensures entry { IfOk result (λ parts. parts.2
        ≡ history_entry by (Call.Commit decision.plan) (Reply.Admitted decision.admitted)) }
{
    let Decision {
        plan,
        admitted,
        delta,
    } = decision;
    let committed = Entry {
        by,
        call: Call::Commit(plan),
        reply: Reply::Admitted(admitted.share()?),
    };
    Ok((admitted, delta, committed))
}

// Merges the delta, keeps it and adds the entry, and answers the keys that changed; or does none of it.
fn add_delta(
    alloc: Global,
    knowledge: &mut Knowledge,
    buffer: &mut Buffer,
    history: &mut Vec<Entry>,
    delta: Knowledge,
    entry: Entry,
) -> Result<Changed, OutOfMemory>
    requires { end_of buffer.old.deltas + 1 < 2 ^ 64 }
    ensures changed { IfOk result (λ changed. changed ≡ changed_keys delta) }
    ensures knowledge { OnOk result (knowledge.new ≡ table_join knowledge.old delta) }
    ensures deltas { OnOk result (buffer.new.deltas ≡ with_delta buffer.old.deltas delta) }
    ensures history { OnOk result (history.new.items ≡ history.old.items ++ entry ∷ []) }
    ensures same_knowledge { OnErr result (knowledge.new ≡ knowledge.old) }
    ensures same_deltas { OnErr result (buffer.new.deltas ≡ buffer.old.deltas) }
    ensures same_history { OnErr result (history.new.items ≡ history.old.items) }
{
    let changed = joined_in(alloc, knowledge, buffer, history, &delta)?;
    buffer.push(delta).unwrap();
    history.push(entry).unwrap();
    Ok(changed)
}

// Merges the delta with room made as below, and answers the keys that changed, or changes nothing that is known.
fn joined_in(
    alloc: Global,
    knowledge: &mut Knowledge,
    buffer: &mut Buffer,
    history: &mut Vec<Entry>,
    delta: &Knowledge,
) -> Result<Changed, OutOfMemory>
    ensures changed { IfOk result (λ changed. changed ≡ changed_keys delta.now) }
    ensures knowledge { OnOk result (knowledge.new ≡ table_join knowledge.old delta.now) }
    ensures same_knowledge { OnErr result (knowledge.new ≡ knowledge.old) }
    ensures room { OnOk result (1 ≤ buffer.new.room) }
    ensures same_deltas { buffer.new.deltas ≡ buffer.old.deltas }
    ensures history { OnOk result (vec_len history.new < vec_capacity history.new) }
    ensures same_history { history.new.items ≡ history.old.items }
{
    let changed = changed_of(alloc, delta)?;
    join_with_room(knowledge, buffer, history, delta)?;
    Ok(changed)
}

// Merges the delta, and makes room to keep it and to add an entry, or changes nothing that is known.
fn join_with_room(
    knowledge: &mut Knowledge,
    buffer: &mut Buffer,
    history: &mut Vec<Entry>,
    delta: &Knowledge,
) -> Result<(), OutOfMemory>
    ensures knowledge { OnOk result (knowledge.new ≡ table_join knowledge.old delta.now) }
    ensures same_knowledge { OnErr result (knowledge.new ≡ knowledge.old) }
    ensures room { OnOk result (1 ≤ buffer.new.room) }
    ensures same_deltas { buffer.new.deltas ≡ buffer.old.deltas }
    ensures history { OnOk result (vec_len history.new < vec_capacity history.new) }
    ensures same_history { history.new.items ≡ history.old.items }
{
    history.reserve(1)?;
    buffer.reserve(1)?;
    knowledge.join_into(delta)
}
