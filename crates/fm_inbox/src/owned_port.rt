//! Ports that threads own together with their inbox, so that a thread need not show that a port belongs to an inbox.
//!
//! A pool lends the ports of an inbox one by one, and closes it once all of them are back.
ghost use Rattle.std.specs.Prelude.{◌≡◌, ◌≢◌, ◌<◌, ◌≤◌, ◌+◌, ◌++◌, [], vec_len, vec_capacity, map, All, IfOk, IfErr, OnOk, OnErr, IsOkUnless, MatchOption};
ghost use Rattle.std.specs.Arc.{arc_value};
ghost use Rattle.fm_inbox.specs.Conservation.{SamePackets};
ghost use Rattle.fm_inbox.specs.Ports.{IsPortOf, IsNewPortOf, AloneHas, after_put, after_take, all_put, all_taken};

use crate::inbox::{Inbox, Port, PutFault};
use fm_delta::packet::Packet;
use fm_records::refusal::Refusal;
use std::alloc::Global;
use std::marker::Model;
use std::sync::{Arc, Wait};

/// A port with its inbox, so that its calls have no premises.
#[derive(Drop)]
pub struct OwnedPort {
    inbox: Arc<Inbox, Global>,
    port: Port,
    ghost fits: { IsPortOf (arc_value inbox) port },
}

impl OwnedPort {
    /// As `put` of the inbox.
    pub fn put<R: Wait>(&mut self, rt: &R, packet: Packet) -> Result<(), PutFault>
        ensures ok { OnOk result (self.new.port ≡ after_put self.old.port packet) }
        ensures err { IfErr result (λ fault. (fault.refusal ≡ Refusal.InboxFull) × (fault.packet ≡ packet)) }
        ensures unchanged { OnErr result (self.new.port ≡ self.old.port) }
        ensures full { OnErr result (AloneHas (arc_value self.old.inbox).size self.old.port) }
        ensures inbox { arc_value self.new.inbox ≡ arc_value self.old.inbox }
    {
        let OwnedPort { inbox, port } = self;
        inbox.put(rt, port, packet)
    }

    /// As `take` of the inbox.
    pub fn take<R: Wait>(&mut self, rt: &R) -> Result<Packet, Refusal>
        ensures ok { IfOk result (λ packet. self.new.port ≡ after_take self.old.port packet) }
        ensures err { IfErr result (λ refusal. refusal ≡ Refusal.InboxEmpty) }
        ensures unchanged { OnErr result (self.new.port ≡ self.old.port) }
        ensures empty { OnErr result (AloneHas 0 self.old.port) }
        ensures inbox { arc_value self.new.inbox ≡ arc_value self.old.inbox }
    {
        let OwnedPort { inbox, port } = self;
        inbox.take(rt, port)
    }
}

/// An inbox with those of its ports that were not given out yet. Contracts see the inbox, and how many of them are out.
#[derive(Drop)]
pub struct PortPool {
    inbox: Arc<Inbox, Global>,
    ports: Vec<Port>,
    room: Vec<Packet>,
}

impl Model for PortPool {
    ghost use Rattle.std.specs.Prelude.{◌≡◌, ◌≤◌, ◌<◌, [], All, vec_len, vec_capacity};
    ghost use Rattle.std.specs.Arc.{arc_value};
    ghost use Rattle.fm_inbox.specs.Ports.{PortPoolModel, seen_pool, IsNewPortOf};

    ghost Value = { PortPoolModel };

    ghost view = { λ d. seen_pool (arc_value d.inbox) (vec_len d.ports) };

    ghost invariant = { λ d. All (IsNewPortOf (arc_value d.inbox)) d.ports.items
        × (vec_len d.ports ≤ (arc_value d.inbox).ports) × ((arc_value d.inbox).ports ≤ vec_capacity d.ports)
        × (vec_len d.room ≡ 0) × (d.room.items ≡ []) × ((arc_value d.inbox).size ≤ vec_capacity d.room) };
}

/// Why an inbox was not closed, with its pool and the ports that were passed.
#[derive(Drop)]
pub struct PoolKept {
    pub refusal: Refusal,
    pub pool: PortPool,
    pub out: Vec<OwnedPort>,
}

impl PortPool {
    /// An inbox as that of `Inbox::new`, but for any number of ports, at least one, and with all of them. The memory for
    /// closing it is reserved. OutOfMemory.
    pub fn new(alloc: Global, ports: usize, size: usize) -> Result<PortPool, Refusal>
        requires { (0 < ports) × (0 < size) }
        ensures inbox { IfOk result (λ pool. (pool.inbox.ports ≡ ports) × (pool.inbox.size ≡ size)) }
        ensures none_out { IfOk result (λ pool. pool.out ≡ 0) }
        ensures err { IsOkUnless result Refusal.OutOfMemory }
    {
        let mut room = Vec::new(alloc);
        room.reserve(size)?;
        let (inbox, ports) = Inbox::with_ports(alloc, ports, size)?;
        let inbox = Arc::new(alloc, inbox)?;
        Ok(PortPool { inbox, ports, room })
    }

    /// One of the ports that are not out, with the inbox, or none if all are. OutOfMemory; then nothing has changed.
    pub fn lend_port(&mut self) -> Result<Option<OwnedPort>, Refusal>
        ensures port { IfOk result (λ port. MatchOption port
            ((self.old.out ≡ self.old.inbox.ports) × (self.new ≡ self.old))
            (λ d. IsNewPortOf self.old.inbox d.port × (arc_value d.inbox ≡ self.old.inbox)
            × (self.new.out ≡ self.old.out + 1))) }
        ensures inbox { self.new.inbox ≡ self.old.inbox }
        ensures unchanged { OnErr result (self.new ≡ self.old) }
        ensures err { IsOkUnless result Refusal.OutOfMemory }
    {
        let inbox = Arc::try_clone(&self.inbox)?;
        match self.ports.pop() {
            None => Ok(None),
            Some(port) => Ok(Some(OwnedPort { inbox, port })),
        }
    }

    /// Closes an inbox with all its ports, and returns the packets that are left. Each packet was put as often as it
    /// was taken or is left. The caller must pass ports of this inbox. It allocates nothing. NotMine(0) if their number
    /// is not that of the inbox's ports, with all that was passed.
    pub fn close<R: Wait>(self, rt: &R, out: Vec<OwnedPort>) -> Result<Vec<Packet>, PoolKept>
        requires { All (λ d. IsPortOf self.inbox d.port) out.items }
        ensures ok { IfOk result (λ left. SamePackets (all_put (map (λ d. d.port) out.items))
            (all_taken (map (λ d. d.port) out.items) ++ left.items)) }
        ensures whole { OnOk result (vec_len out ≡ self.inbox.ports) }
        ensures err { IfErr result (λ kept. (kept.refusal ≡ Refusal.NotMine 0)
            × (vec_len out ≢ self.inbox.ports)) }
        ensures back { IfErr result (λ kept. (kept.pool ≡ self) × (kept.out ≡ out)) }
    {
        if out.len() != self.inbox.ports() {
            return Err(PoolKept {
                refusal: Refusal::NotMine(0),
                pool: self,
                out,
            });
        }
        let PortPool {
            inbox,
            mut ports,
            room,
        } = self;
        ports.clear();
        Ok(inbox.empty(rt, ports_of(out, ports), room))
    }
}

// The ports, without their inbox.
fn ports_of(owned: Vec<OwnedPort>, mut ports: Vec<Port>) -> Vec<Port>
    requires none { (vec_len ports ≡ 0) × (ports.items ≡ []) }
    requires room { vec_len owned ≤ vec_capacity ports }
    ensures ports { result.items ≡ map (λ d. d.port) owned.items }
    ensures count { vec_len result ≡ vec_len owned }
{
    for one in owned {
        let OwnedPort { inbox: _, port } = one;
        ports.push_reserved(port);
    }
    ports
}
