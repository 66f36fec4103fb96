//! What a node's thread is given: a coordinator with its operations, and the links by which it exchanges packets.
//!
//! All inboxes, with a port in each for each member, are made before the first thread, so that no thread can find one
//! missing.
ghost use Rattle.std.specs.Prelude.{◌≡◌, ℕ, ◌+◌, ◌++◌, ◌<◌, ◌≤◌, length, map, vec_len, vec_capacity, IfOk, OnOk, IsOkUnless};
ghost use Rattle.fm_gossip.specs.Members.{member_number, but_for};
ghost use Rattle.fm_gossip.specs.inner.Used.{new_port};
ghost use Rattle.fm_gossip.specs.inner.Works.{links, links_of, HaveOut, HavePorts, linked_work, linked_works};

use crate::intake::Intake;
use crate::member::Member;
use fm_coord::coordinator::Coordinator;
use fm_fleet::owned_port::{OwnedPort, PortPool};
use fm_policy::keeper::NetKeeper;
use fm_records::ids::CoordId;
use fm_records::ops::Op;
use fm_records::refusal::Refusal;
use std::alloc::Global;
use std::marker::Model;

/// How many packets an inbox takes at a time.
const SIZE: usize = 64;

/// A coordinator with all that it needs to run. Contracts see what it is to do.
#[derive(Drop)]
pub(crate) struct Work<N: NetKeeper, G> {
    pub(crate) coordinator: Coordinator<N>,
    pub(crate) intake: Intake,
    pub(crate) gate: G,
    pub(crate) rounds: u32,
}

impl<N: NetKeeper, G> Model for Work<N, G> {
    ghost use Rattle.std.specs.Prelude.{◌≡◌, ◌<◌, [], map, vec_len};
    ghost use Rattle.fm_gossip.specs.Served.{member_task};
    ghost use Rattle.fm_gossip.specs.inner.Works.{WorkModel, work};

    ghost Value = { WorkModel };

    ghost view = { λ w. work
        (member_task w.coordinator.state.number w.coordinator.state.limit w.intake.tells.items
        w.intake.senders.items w.rounds)
        w.intake.place (map (λ d. d.port) w.intake.ports.items) };

    ghost invariant = { λ w. (w.coordinator.state.history ≡ []) × (w.intake.place < vec_len w.intake.ports) };
}

/// What a member is given beside its coordinator: from which others a packet comes, and a port to each inbox; that of
/// its own is at the index `place`.
#[derive(Drop)]
pub(crate) struct Links {
    senders: Vec<CoordId>,
    place: usize,
    ports: Vec<OwnedPort>,
}

impl Model for Links {
    ghost use Rattle.std.specs.Prelude.{◌<◌, map, vec_len};
    ghost use Rattle.fm_gossip.specs.inner.Works.{LinksModel, links};

    ghost Value = { LinksModel };

    ghost view = { λ l. links l.senders.items l.place (map (λ d. d.port) l.ports.items) };

    ghost invariant = { λ l. l.place < vec_len l.ports };
}

/// The links of each member, and an inbox for each, all of whose ports are in the links: one for each. OutOfMemory.
pub(crate) fn link<N: NetKeeper, G>(
    alloc: Global,
    members: &[Member<N, G>],
) -> Result<(Vec<Links>, Vec<PortPool>), Refusal>
    ensures links { IfOk result (λ r. r.0.items
        ≡ links_of (map member_number members.now) (map (λ b. b.inbox) r.1.items) 0 members.now) }
    ensures inboxes { IfOk result (λ r. length r.1.items ≡ length members.now) }
    ensures out { IfOk result (λ r. HaveOut (length members.now) (length members.now) r.1.items) }
    ensures err { IsOkUnless result Refusal.OutOfMemory }
{
    let numbers = numbers(alloc, members)?;
    let mut inboxes = inboxes(alloc, members.len())?;
    let mut links = Vec::new(alloc);
    for member in members {
        let place = links.len();
        let number = member.coordinator.number();
        links.push(links_at(alloc, &mut inboxes, &numbers, place, number)?)?;
    }
    Ok((links, inboxes))
}

/// What each member's thread is given, by the members and their links, of which there are as many. There is room for it.
pub(crate) fn works<N: NetKeeper + Drop, G: Drop>(
    mut members: Vec<Member<N, G>>,
    mut links: Vec<Links>,
    rounds: u32,
    mut works: Vec<Work<N, G>>,
) -> Vec<Work<N, G>>
    requires count { vec_len members ≡ vec_len links }
    requires room { (vec_len works ≡ 0) × (vec_len members ≤ vec_capacity works) }
    ensures works { result.items ≡ linked_works rounds members.items links.items }
    ensures count { (vec_len result ≡ vec_len members) × (vec_capacity result ≡ vec_capacity works) }
{
    let Some(member) = members.pop() else {
        return works;
    };
    let Some(its) = links.pop() else {
        unreachable!();
    };
    works = self::works(members, links, rounds, works);
    works.push_reserved(work_of(member, its, rounds));
    works
}

// What the thread of a member with these links is given.
fn work_of<N: NetKeeper + Drop, G: Drop>(
    member: Member<N, G>,
    links: Links,
    rounds: u32,
) -> Work<N, G>
    ensures { result ≡ linked_work rounds member links }
{
    let Member {
        coordinator,
        tells,
        gate,
    } = member;
    let Links {
        senders,
        place,
        ports,
    } = links;
    let intake = Intake {
        tells,
        senders,
        place,
        ports,
    };
    Work {
        coordinator,
        intake,
        gate,
        rounds,
    }
}

// The numbers of the members, in order.
fn numbers<N: NetKeeper, G>(
    alloc: Global,
    members: &[Member<N, G>],
) -> Result<Vec<CoordId>, Refusal>
    ensures numbers { IfOk result (λ numbers. numbers.items ≡ map member_number members.now) }
    ensures err { IsOkUnless result Refusal.OutOfMemory }
{
    let mut numbers = Vec::new(alloc);
    for member in members {
        numbers.push(member.coordinator.number())?;
    }
    Ok(numbers)
}

// The links of the member of the number at the place.
fn links_at(
    alloc: Global,
    inboxes: &mut [PortPool],
    numbers: &[CoordId],
    place: usize,
    number: CoordId,
) -> Result<Links, Refusal>
    requires inside { (place < length inboxes.old) × (place < length numbers.now) }
    requires out { HaveOut (length numbers.now) place inboxes.old }
    ensures links { IfOk result (λ l. l
        ≡ links (but_for number numbers.now) place (map new_port (map (λ b. b.inbox) inboxes.old))) }
    ensures inboxes { OnOk result (map (λ b. b.inbox) inboxes.new ≡ map (λ b. b.inbox) inboxes.old) }
    ensures out { OnOk result (HaveOut (length numbers.now) (place + 1) inboxes.new) }
    ensures err { IsOkUnless result Refusal.OutOfMemory }
{
    let senders = but_for(alloc, number, numbers)?;
    let mut ports = Vec::new(alloc);
    open_all(&mut ports, inboxes)?;
    Ok(Links {
        senders,
        place,
        ports,
    })
}

// The numbers but for this one, in order.
fn but_for(alloc: Global, number: CoordId, numbers: &[CoordId]) -> Result<Vec<CoordId>, Refusal>
    ensures others { IfOk result (λ others. others.items ≡ but_for number numbers.now) }
    ensures err { IsOkUnless result Refusal.OutOfMemory }
{
    let mut others = Vec::new(alloc);
    for other in numbers {
        if other.value() != number.value() {
            others.push(*other)?;
        }
    }
    Ok(others)
}

// So many inboxes, with a port for each of as many.
fn inboxes(alloc: Global, members: usize) -> Result<Vec<PortPool>, Refusal>
    ensures count { IfOk result (λ inboxes. vec_len inboxes ≡ members) }
    ensures out { IfOk result (λ inboxes. HaveOut members 0 inboxes.items) }
    ensures err { IsOkUnless result Refusal.OutOfMemory }
{
    let mut inboxes = Vec::new(alloc);
    for _i in 0..members {
        inboxes.push(PortPool::new(alloc, members, SIZE)?)?;
    }
    Ok(inboxes)
}

// Adds a port to each of the inboxes.
fn open_all(ports: &mut Vec<OwnedPort>, inboxes: &mut [PortPool]) -> Result<(), Refusal>
    requires { HavePorts inboxes.old }
    ensures ports { OnOk result (map (λ d. d.port) ports.new.items
        ≡ map (λ d. d.port) ports.old.items ++ map new_port (map (λ b. b.inbox) inboxes.old)) }
    ensures count { OnOk result (vec_len ports.new ≡ vec_len ports.old + length inboxes.old) }
    ensures out { OnOk result ((ports out : ℕ) → HaveOut ports out inboxes.old → HaveOut ports (out + 1) inboxes.new) }
    ensures inboxes { OnOk result (map (λ b. b.inbox) inboxes.new ≡ map (λ b. b.inbox) inboxes.old) }
    ensures err { IsOkUnless result Refusal.OutOfMemory }
{
    let Some((inbox, rest)) = inboxes.split_first_mut() else {
        return Ok(());
    };
    ports.push(opened(inbox)?)?;
    open_all(ports, rest)
}

// A port to the inbox, which has one that is not out.
#[tactic(auto, using(crate::proofs::Columns::is_new))]
fn opened(inbox: &mut PortPool) -> Result<OwnedPort, Refusal>
    requires { inbox.old.out < inbox.old.inbox.ports }
    ensures port { IfOk result (λ port. port.port ≡ new_port inbox.old.inbox) }
    ensures inbox { inbox.new.inbox ≡ inbox.old.inbox }
    ensures out { OnOk result (inbox.new.out ≡ inbox.old.out + 1) }
    ensures err { IsOkUnless result Refusal.OutOfMemory }
{
    match inbox.lend_port()? {
        Some(port) => Ok(port),
        None => unreachable!(),
    }
}
