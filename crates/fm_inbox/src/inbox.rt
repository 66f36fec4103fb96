//! Inboxes: bounded queues of packets that threads share, each by a port of its own, with proof that none is lost.
//!
//! A packet that a full inbox does not take comes back to its sender. An inbox is closed with all its ports, after
//! which nobody can put or take: each packet was put as often as it was taken or is left. Memory for closing is
//! reserved when the inbox is made, so closing allocates nothing.
ghost use Rattle.std.specs.Prelude.{◌≡◌, ◌<◌, ◌≤◌, ◌+◌, ◌++◌, ℕ, [], vec_len, vec_capacity, IfOk, IfErr, OnOk, OnErr, IsOkUnless, All};
ghost use Rattle.crossbeam_queue.specs.Passes.{IsPassOf, ruled_capacity};
ghost use Rattle.fm_delta.specs.declared.packet.Packet.{Packet};
ghost use Rattle.fm_inbox.specs.Conservation.{weigh, SamePackets};
ghost use Rattle.fm_inbox.specs.inner.PortAccounts.{account, put_weight, taken_of};
ghost use Rattle.fm_inbox.specs.Ports.{IsPortOf, IsNewPortOf, AloneHas, after_put, after_take, all_put, all_taken, account_of, seen_inbox};
ghost use Rattle.fm_inbox.specs.inner.PortWeights.{put_by, taken_weight};

use crate::conservation::{OneMore, OnePart, Puts, Queue, QueuePass, Takes};
use fm_delta::packet::Packet;
use fm_records::refusal::Refusal;
use std::alloc::Global;
use std::marker::Model;
use std::sync::Wait;

/// The right to put packets into an inbox and to take packets from it. Contracts see which inbox that is, and all that
/// was put and taken through this port.
#[derive(Drop)]
pub struct Port {
    pass: QueuePass,
}

impl Model for Port {
    ghost use Rattle.std.specs.Prelude.{◌≡◌, []};
    ghost use Rattle.fm_inbox.specs.Ports.{PortModel, seen_port, account_of};

    ghost Value = { PortModel };

    ghost view = { λ p. seen_port p.pass.table_id (account_of p.pass) };

    ghost invariant = { λ p. (p.pass.me.1 ≡ []) × ((account_of p.pass).parts ≡ 1) };
}

/// A bounded queue of packets, which threads share, each by a port of its own. Packets leave in the order in which they
/// came.
#[derive(Drop)]
pub struct Inbox {
    queue: Queue,
    ports: usize,
    room: Vec<Packet>,
}

impl Model for Inbox {
    ghost use Rattle.std.specs.Prelude.{◌≡◌, ◌≤◌, ◌<◌, [], vec_len, vec_capacity};
    ghost use Rattle.crossbeam_queue.specs.Passes.{ruled_capacity};
    ghost use Rattle.fm_inbox.specs.Ports.{InboxModel, seen_inbox};

    ghost Value = { InboxModel };

    ghost view = { λ b. seen_inbox b.queue.table.shared.table_id b.ports (ruled_capacity b.queue) };

    ghost invariant = { λ b. (ruled_capacity b.queue ≤ vec_capacity b.room) × (vec_len b.room ≡ 0)
        × (b.room.items ≡ []) × (0 < b.ports) };
}

/// Why a packet was not put, with the packet.
#[derive(Drop)]
pub struct PutFault {
    pub refusal: Refusal,
    pub packet: Packet,
}

/// Why an inbox was not closed, with the inbox and the ports that were passed.
#[derive(Drop)]
pub struct InboxKept {
    pub refusal: Refusal,
    pub inbox: Inbox,
    pub ports: Vec<Port>,
}

impl Inbox {
    /// An inbox for a number of packets at a time, at least one, and a number of ports, at least one. The memory for
    /// closing it is reserved. OutOfMemory.
    pub fn new(alloc: Global, ports: u32, size: usize) -> Result<(Inbox, Vec<Port>), Refusal>
        requires { (0 < ports) × (0 < size) }
        ensures inbox { IfOk result (λ r. (r.0.ports ≡ ports) × (r.0.size ≡ size)) }
        ensures ports { IfOk result (λ r. (vec_len r.1 ≡ ports) × All (IsNewPortOf r.0) r.1.items) }
        ensures room { IfOk result (λ r. ports ≤ vec_capacity r.1) }
        ensures err { IsOkUnless result Refusal.OutOfMemory }
    {
        Inbox::with_ports(alloc, ports as usize, size)
    }

    /// As `new`, for any number of ports, at least one.
    pub(crate) fn with_ports(
        alloc: Global,
        ports: usize,
        size: usize,
    ) -> Result<(Inbox, Vec<Port>), Refusal>
        requires { (0 < ports) × (0 < size) }
        ensures inbox { IfOk result (λ r. (r.0.ports ≡ ports) × (r.0.size ≡ size)) }
        ensures ports { IfOk result (λ r. (vec_len r.1 ≡ ports) × All (IsNewPortOf r.0) r.1.items) }
        ensures room { IfOk result (λ r. ports ≤ vec_capacity r.1) }
        ensures err { IsOkUnless result Refusal.OutOfMemory }
    {
        let mut room = Vec::new(alloc);
        room.reserve(size)?;
        let mut made = Vec::new(alloc);
        made.reserve(ports)?;
        let (queue, mut pass) = Queue::ruled(alloc, size)?;
        for _i in 1..ports {
            queue.another::<OneMore>(&mut pass);
        }
        for _i in 1..ports {
            let other = queue.another::<OnePart>(&mut pass);
            made.push_reserved(Port { pass: other });
        }
        made.push_reserved(Port { pass });
        Ok((Inbox { queue, ports, room }, made))
    }

    /// Puts a packet after those that are there. The caller must pass a port of this inbox. InboxFull, with the packet;
    /// then nothing has changed. If there is no other port, the inbox then has as many packets as it takes.
    pub fn put<R: Wait>(&self, rt: &R, port: &mut Port, packet: Packet) -> Result<(), PutFault>
        requires { IsPortOf self.now port.old }
        ensures ok { OnOk result (port.new ≡ after_put port.old packet) }
        ensures err { IfErr result (λ fault. (fault.refusal ≡ Refusal.InboxFull) × (fault.packet ≡ packet)) }
        ensures unchanged { OnErr result (port.new ≡ port.old) }
        ensures full { OnErr result (AloneHas self.now.size port.old) }
        ensures port { IsPortOf self.now port.new }
    {
        match self.queue.push_as::<Puts, R>(rt, &mut port.pass, packet) {
            Ok(()) => Ok(()),
            Err(packet) => Err(PutFault {
                refusal: Refusal::InboxFull,
                packet,
            }),
        }
    }

    /// Takes the packet that came first. The caller must pass a port of this inbox. InboxEmpty; then nothing has changed.
    /// If there is no other port, all packets that were put have then been taken.
    pub fn take<R: Wait>(&self, rt: &R, port: &mut Port) -> Result<Packet, Refusal>
        requires { IsPortOf self.now port.old }
        ensures ok { IfOk result (λ packet. port.new ≡ after_take port.old packet) }
        ensures err { IfErr result (λ refusal. refusal ≡ Refusal.InboxEmpty) }
        ensures unchanged { OnErr result (port.new ≡ port.old) }
        ensures empty { OnErr result (AloneHas 0 port.old) }
        ensures port { IsPortOf self.now port.new }
    {
        match self.queue.pop_as::<Takes, R>(rt, &mut port.pass) {
            Some(packet) => Ok(packet),
            None => Err(Refusal::InboxEmpty),
        }
    }

    /// Closes an inbox with all its ports, and returns the packets that are left. Each packet was put as often as it
    /// was taken or is left. The caller must pass ports of this inbox. It allocates nothing. NotMine(0) if a port is
    /// missing, with all that was passed.
    pub fn close<R: Wait>(self, rt: &R, ports: Vec<Port>) -> Result<Vec<Packet>, InboxKept>
        requires { All (IsPortOf self) ports.items }
        ensures ok { IfOk result (λ left. SamePackets (all_put ports.items) (all_taken ports.items ++ left.items)) }
        ensures whole { OnOk result (self.ports ≤ vec_len ports) }
        ensures err { IfErr result (λ kept. (kept.refusal ≡ Refusal.NotMine 0) × (vec_len ports < self.ports)) }
        ensures back { IfErr result (λ kept. (kept.inbox ≡ self) × (kept.ports ≡ ports)) }
    {
        if ports.len() < self.ports {
            return Err(InboxKept {
                refusal: Refusal::NotMine(0),
                inbox: self,
                ports,
            });
        }
        let Inbox {
            queue,
            ports: whole,
            room,
        } = self;
        Ok(emptied(rt, &queue, ports, whole, room))
    }

    /// Takes all packets out, if all ports are there. Nobody can put or take a packet afterwards. It allocates nothing.
    pub(crate) fn empty<R: Wait>(&self, rt: &R, ports: Vec<Port>, room: Vec<Packet>) -> Vec<Packet>
        requires whole { self.now.ports ≤ vec_len ports }
        requires ports { All (IsPortOf self.now) ports.items }
        requires room { (vec_len room ≡ 0) × (room.items ≡ []) × (self.now.size ≤ vec_capacity room) }
        ensures { SamePackets (all_put ports.items) (all_taken ports.items ++ result.items) }
    {
        emptied(rt, &self.queue, ports, self.ports, room)
    }

    /// How many ports there are.
    pub(crate) fn ports(&self) -> usize
        ensures { result ≡ self.now.ports }
    {
        self.ports
    }
}

// What a queue still has, by all its ports.
fn emptied<R: Wait>(
    rt: &R,
    queue: &Queue,
    ports: Vec<Port>,
    whole: usize,
    room: Vec<Packet>,
) -> Vec<Packet>
    requires some { (0 < whole) × (whole ≤ vec_len ports) }
    requires ports { All (IsPortOf (seen_inbox queue.now.table.shared.table_id whole (ruled_capacity queue.now)))
        ports.items }
    requires room { (vec_len room ≡ 0) × (room.items ≡ []) × (ruled_capacity queue.now ≤ vec_capacity room) }
    ensures { SamePackets (all_put ports.items) (all_taken ports.items ++ result.items) }
{
    let pass = joined(queue, ports, whole);
    left(rt, queue, pass, room)
}

// The pass of a port.
fn pass_of(port: Port) -> QueuePass
    ensures pass { (result.table_id ≡ port.inbox) × (result.me.1 ≡ []) }
    ensures known { account_of result ≡ account 1 port.ports port.put port.taken }
{
    port.pass
}

// The joined pass of the ports.
fn joined(queue: &Queue, mut ports: Vec<Port>, whole: usize) -> QueuePass
    requires some { (0 < whole) × (whole ≤ vec_len ports) }
    requires ports { All (IsPortOf (seen_inbox queue.now.table.shared.table_id whole
        (ruled_capacity queue.now))) ports.items }
    ensures pass { IsPassOf queue.now result }
    ensures whole { ((account_of result).whole ≡ whole) × (whole ≤ (account_of result).parts) }
    ensures sums { (h : Packet → ℕ) → (put_weight h (account_of result) ≡ weigh (put_by h) ports.items)
        × (taken_of h (account_of result) ≡ weigh (taken_weight h) ports.items) }
{
    let mut pass = match ports.pop() {
        Some(port) => pass_of(port),
        None => unreachable!(),
    };
    while let Some(port) = ports.pop() {
        queue.absorb::<OnePart>(&mut pass, pass_of(port));
    }
    pass
}

// What a queue still has, by a pass with every part.
fn left<R: Wait>(rt: &R, queue: &Queue, mut pass: QueuePass, mut room: Vec<Packet>) -> Vec<Packet>
    requires pass { IsPassOf queue.now pass }
    requires whole { (0 < (account_of pass).parts) × ((account_of pass).whole ≤ (account_of pass).parts) }
    requires room { (vec_len room ≡ 0) × (room.items ≡ []) × (ruled_capacity queue.now ≤ vec_capacity room) }
    ensures { (h : Packet → ℕ) → put_weight h (account_of pass) ≡ taken_of h (account_of pass) + weigh h result.items }
{
    let count = queue.len_as::<Takes, R>(rt, &mut pass);
    for _i in 0..count {
        match queue.pop_as::<Takes, R>(rt, &mut pass) {
            Some(packet) => room.push_reserved(packet),
            None => unreachable!(),
        }
    }
    queue.learn_as::<Takes>(&mut pass);
    room
}
