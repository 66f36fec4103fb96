//! The responder to the lines of a stream that has a store.
//!
//! The first line that is accepted lists the coordinators, and with that it is known whose store it must be: then it is opened, and the
//! coordinators begin with what it has. A commit adds what is not in the store yet. Once the store has grown enough (`growth`), it puts
//! all that is known in the place of what the store has. A store that cannot be used ends the stream: the commit fails, and so no answer
//! goes out.

ghost use Rattle.std.specs.Prelude.{◌≡◌, ◌++◌, List, [], true, false, Option, Some, None, IfOk, OnOk, OnErr, string_bytes};
ghost use Rattle.fm_delta.specs.declared.packet.Packet.{Packet};
ghost use Rattle.fm_store.specs.Heads.{HeadModel};
ghost use Rattle.fm_service.specs.StreamSteps.{Following};
ghost use Rattle.fm_service.specs.Sessions.{IsIn};
ghost use Rattle.fm_durable.specs.DurableSteps.{store_head};
ghost use Rattle.fm_durable.specs.DurableServices.{HoldsStore, HoldsFront, KeepsStores, Reopens, model_of};
ghost use Rattle.fm_durable.specs.inner.CommitSteps.{CommitsSo, StoresSo};

use crate::found::Found;
use crate::growth::Growth;
use fm_delta::packet::Packet;
use fm_io::committer::{Committer, NotCommitted};
use fm_io::responder::Responder;
use fm_records::refusal::Refusal;
use fm_service::stream_service::StreamService;
use fm_store::device::Device;
use fm_store::head::Head;
use fm_store::store::{append_packet, read_store, rewrite_store};
use fm_store::store_fault::StoreFault;
use std::alloc::Global;

/// Coordinators that answer lines, and the store of what they know.
#[derive(Drop)]
pub struct DurableService<D> {
    pub(crate) alloc: Global,
    pub(crate) service: StreamService,
    pub(crate) label: String,
    pub(crate) device: D,
    pub(crate) fault: Option<StoreFault>,
    pub(crate) growth: Growth,
}

impl<D: Device> DurableService<D> {
    /// No coordinators yet. Once a line lists them, the store on the device is opened: its head must have this label and these
    /// coordinators. Between two lines all are renewed once a history has as many entries as `renew_after`, if there is memory for it.
    pub(crate) fn new(
        alloc: Global,
        renew_after: usize,
        label: String,
        device: D,
    ) -> DurableService<D>
        ensures most { result.service.renew_after ≡ renew_after }
        ensures start { IsIn result.service.session None }
        ensures label { result.label ≡ label }
        ensures device { result.device ≡ device }
        ensures no_fault { result.fault ≡ None }
    {
        DurableService {
            alloc,
            service: StreamService::new(alloc, renew_after),
            label,
            device,
            fault: None,
            growth: Growth::none(),
        }
    }

    // Opens the store if the line before listed the coordinators.
    fn open_listed(&mut self, was_open: bool)
        ensures label { self.new.label ≡ self.old.label }
        ensures keeps { KeepsStores (model_of D.content D.synced D.sound self.old.device)
            (model_of D.content D.synced D.sound self.new.device) }
        ensures could { self.new.fault ≡ None → self.old.fault ≡ None }
        ensures open { was_open ≡ true → self.new ≡ self.old }
        ensures none { IsIn self.old.service.session None → self.new ≡ self.old }
        ensures listed { was_open ≡ false → self.new.fault ≡ None
            → (k : Following) → IsIn self.old.service.session (Some k)
            → Reopens (string_bytes self.old.label) (model_of D.content D.synced D.sound self.old.device) k
            self.old.service (model_of D.content D.synced D.sound self.new.device) self.new.service }
    {
        if was_open || !self.service.is_open() {
            return;
        }
        if let Err(fault) = self.open() {
            self.fault = Some(fault);
        }
    }

    // Opens the store of the coordinators that were just listed, and has them begin with what it has.
    fn open(&mut self) -> Result<(), StoreFault>
        ensures label { self.new.label ≡ self.old.label }
        ensures fault { self.new.fault ≡ self.old.fault }
        ensures keeps { KeepsStores (model_of D.content D.synced D.sound self.old.device)
            (model_of D.content D.synced D.sound self.new.device) }
        ensures ok { (k : Following) → IsIn self.old.service.session (Some k)
            → OnOk result (Reopens (string_bytes self.old.label) (model_of D.content D.synced D.sound self.old.device) k
            self.old.service (model_of D.content D.synced D.sound self.new.device) self.new.service) }
    {
        let head = self.head()?;
        let numbers = self.service.numbers(self.alloc)?;
        let mut found = Found::none(self.alloc, &numbers)?;
        read_store(self.alloc, &mut self.device, &head, &mut found)?;
        let Found { all, size } = found;
        let known = all.packets()?;
        self.growth = Growth::found(size, &known);
        match self.service.begin_with(known) {
            Ok(()) => Ok(()),
            Err(_) => Err(StoreFault::OutOfMemory),
        }
    }

    // The head of the store. If no head can have the label and the coordinators, any store is another cluster's.
    fn head(&self) -> Result<Head, StoreFault>
        ensures { (k : Option Following) → IsIn self.now.service.session k
            → IfOk result (λ head. head ≡ store_head (string_bytes self.now.label) k) }
    {
        let numbers = self.service.numbers(self.alloc)?;
        let label = self.label.clone()?;
        match Head::new(label, numbers) {
            Some(head) => Ok(head),
            None => Err(StoreFault::OtherCluster),
        }
    }

    // Brings what is not in the store yet into it, on the disk too.
    fn store_unstored(&mut self) -> Result<(), StoreFault>
        ensures ok { OnOk result (CommitsSo (model_of D.content D.synced D.sound) self.old self.new) }
        ensures err { (head : HeadModel) (ps : List Packet)
            → HoldsStore (model_of D.content D.synced D.sound self.old.device) head ps
            → OnErr result (HoldsFront (model_of D.content D.synced D.sound self.new.device) head ps) }
        ensures unlisted { IsIn self.old.service.session None → self.new.device ≡ self.old.device }
        ensures broken { (self.old.fault ≡ None → ⊥) → self.new.device ≡ self.old.device }
    {
        if let Some(fault) = self.fault {
            return Err(fault);
        }
        let packets = self.service.unstored(self.alloc)?;
        if self.growth.is_due(&packets) {
            return self.compact(&packets);
        }
        self.add(&packets)
    }

    // Compacts the store, or adds the packets if there is no memory for that, or no room on the disk for a second copy. A device that a
    // failure has touched takes no packets either.
    fn compact(&mut self, packets: &[Packet]) -> Result<(), StoreFault>
        ensures ok { OnOk result (StoresSo (model_of D.content D.synced D.sound) packets.now self.old self.new) }
        ensures err { (head : HeadModel) (ps : List Packet)
            → HoldsStore (model_of D.content D.synced D.sound self.old.device) head ps
            → OnErr result (HoldsFront (model_of D.content D.synced D.sound self.new.device) head ps) }
    {
        match self.put_full() {
            Ok(()) => Ok(()),
            Err(_) => {
                self.growth.put_off();
                self.add(packets)
            }
        }
    }

    // Puts all that is known in the place of what the store has.
    fn put_full(&mut self) -> Result<(), StoreFault>
        ensures ok { (packets : List Packet)
            → OnOk result (StoresSo (model_of D.content D.synced D.sound) packets self.old self.new) }
        ensures device { OnErr result
            (model_of D.content D.synced D.sound self.new.device ≡ model_of D.content D.synced D.sound self.old.device) }
        ensures rest { OnErr result ((self.new.service ≡ self.old.service) × (self.new.label ≡ self.old.label)
            × (self.new.fault ≡ self.old.fault)) }
    {
        let head = self.head()?;
        let packets = self.service.full_packets(self.alloc)?;
        rewrite_store(self.alloc, &mut self.device, &head, &packets)?;
        self.service.mark_stored();
        self.growth = Growth::compacted(&packets);
        Ok(())
    }

    // Adds the packets to what the store has.
    fn add(&mut self, packets: &[Packet]) -> Result<(), StoreFault>
        ensures ok { OnOk result (StoresSo (model_of D.content D.synced D.sound) packets.now self.old self.new) }
        ensures none { packets.now ≡ [] → self.new.device ≡ self.old.device }
        ensures err { (head : HeadModel) (ps : List Packet)
            → HoldsStore (model_of D.content D.synced D.sound self.old.device) head ps
            → OnErr result (HoldsFront (model_of D.content D.synced D.sound self.new.device) head ps) }
    {
        append_all(self.alloc, &mut self.device, packets)?;
        self.service.mark_stored();
        self.growth.add(packets);
        Ok(())
    }
}

// Adds the packets at the end of the store, and brings them onto the disk, if there are any.
fn append_all<D: Device>(
    alloc: Global,
    device: &mut D,
    packets: &[Packet],
) -> Result<(), StoreFault>
    ensures added { (head : HeadModel) (ps : List Packet) → HoldsStore (model_of D.content D.synced D.sound device.old) head ps
        → OnOk result (HoldsStore (model_of D.content D.synced D.sound device.new) head (ps ++ packets.now)) }
    ensures none { packets.now ≡ [] → device.new ≡ device.old }
    ensures err { (head : HeadModel) (ps : List Packet) → HoldsStore (model_of D.content D.synced D.sound device.old) head ps
        → OnErr result (HoldsFront (model_of D.content D.synced D.sound device.new) head ps) }
{
    if packets.is_empty() {
        return Ok(());
    }
    for packet in packets {
        append_packet(alloc, device, packet)?;
    }
    device.sync()?;
    Ok(())
}

impl<D: Device> Responder for DurableService<D> {
    ghost use Rattle.fm_durable.specs.DurableServices.{AnswersDurably, model_of};

    ghost answers = { λ old line text new.
        AnswersDurably (model_of D.content D.synced D.sound) old line text new };

    fn answer(&mut self, line: &[u8]) -> Result<Vec<u8>, Refusal> {
        let was_open = self.service.is_open();
        let text = self.service.answer(line)?;
        self.open_listed(was_open);
        Ok(text)
    }
}

impl<D: Device> Committer for DurableService<D> {
    ghost use Rattle.fm_durable.specs.DurableServices.{model_of};
    ghost use Rattle.fm_durable.specs.inner.CommitSteps.{CommitsSo, FailsSo};

    ghost commits = { λ old new. CommitsSo (model_of D.content D.synced D.sound) old new };

    ghost fails = { λ old new. FailsSo (model_of D.content D.synced D.sound) old new };

    fn commit(&mut self) -> Result<(), NotCommitted> {
        match self.store_unstored() {
            Ok(()) => Ok(()),
            Err(fault) => {
                self.fault = Some(fault);
                Err(NotCommitted)
            }
        }
    }
}
