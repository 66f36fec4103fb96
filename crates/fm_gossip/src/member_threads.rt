//! Coordinators that run at the same time, each in two threads, and come back whatever happens.
//!
//! If a thread cannot be made or something is refused, the fleet is stopped, all threads end in time, and each
//! coordinator is returned with what its seats did. Memory for what they leave is reserved before the first thread, so
//! that all coordinators can be returned.
ghost use Rattle.fm_records.specs.declared.refusal.Refusal.TheVariants.{OutOfMemory};
ghost use Rattle.std.specs.Prelude.{◌≡◌, ◌⊎◌, ◌≤◌, [], None, Some, length, map, vec_len, vec_capacity, IsTrue, IfOk, IfErr, IfSome, IfNone, OnOk, IsOkUnless};
ghost use Rattle.fm_gossip.specs.Served.{AreServed};
ghost use Rattle.fm_gossip.specs.Members.{member_number, member_tasks};
ghost use Rattle.fm_gossip.specs.Passing.{passed_at, ArePassedOn};
ghost use Rattle.fm_gossip.specs.FleetFaults.{may_stop, AreBack};
ghost use Rattle.fm_gossip.specs.inner.EarlyEnds.{may_end};
ghost use Rattle.fm_gossip.specs.inner.Used.{AreUsed};
ghost use Rattle.fm_gossip.specs.inner.Works.{links_of, HaveOut, IsDoneUnless, AreDoneUnless, NoneEarly, named_of};

use crate::early::{Early, first_of};
use crate::member::Member;
use crate::member_end::{MemberEnd, close_all};
use crate::serving::{Served, serve_one};
use crate::stop_signal::StopSignal;
use crate::work::{Links, Work, link, works};
use fm_coord::coordinator::Coordinator;
use fm_fleet::owned_port::PortPool;
use fm_fleet::round::Gate;
use fm_policy::keeper::NetKeeper;
use fm_records::refusal::Refusal;
use std::alloc::Global;
use std::snapshot::Snapshot;
use std::sync::Wait;
use std::thread;
use std::thread::{PromisedHandle, Scope, Threads};

/// Why a fleet was refused, and what was passed: the members, if no thread was started, and else the coordinators, as
/// listed, each with what its seats did until then. The other list is empty. Contracts say how many come back, and not
/// that the coordinators are those that were passed.
#[derive(Drop)]
pub struct FleetFault<N: NetKeeper, G> {
    pub refusal: Refusal,
    pub members: Vec<Member<N, G>>,
    pub coordinators: Vec<Coordinator<N>>,
}

/// Runs all members at the same time, each with two threads. Its intake tells its operations, cuts all that is then
/// known, sends it to each of the others and merges a packet from each of them, while its solver runs the given
/// number of rounds. Then each node is closed and audited, and the inboxes are closed: each packet that was sent was
/// merged once. Returns the coordinators, as listed. Two members of one number merge nothing of each other, and so are
/// refused as below. Once a thread is refused, no round begins and no packet is waited for. The fleet is then refused
/// with the first refusal by member, as listed, the intake's before the solver's, and not the first in time; what only
/// ended since another was refused is not named. All coordinators come back. OutOfMemory, also if a thread cannot be
/// made; BadOp; HistoryFull; InboxFull with more members than an inbox has room; NotMine if an audit fails, or a packet
/// is left. If memory runs out before the first thread, the members come back.
pub fn run_fleet<N: NetKeeper + Send + Drop, G: Gate + Send + Drop, R: Threads + Wait + Sync>(
    rt: &R,
    alloc: Global,
    members: Vec<Member<N, G>>,
    rounds: u32,
) -> Result<Vec<Coordinator<N>>, FleetFault<N, G>>
    ensures ok { IfOk result (λ coordinators.
        AreServed (member_tasks rounds members.items) (map (λ c. c.state) coordinators.items)) }
    ensures passed { IfOk result (λ coordinators. ArePassedOn (map passed_at (map (λ c. c.state) coordinators.items))) }
    ensures cause { IfErr result (λ fault. IsTrue (may_stop fault.refusal)) }
    ensures back { IfErr result (λ fault. AreBack members.items fault.members.items fault.coordinators.items) }
    ensures unstarted { IfErr result (λ fault. (fault.members.items ≡ []) ⊎ (fault.refusal ≡ Refusal.OutOfMemory)) }
{
    let (links, inboxes, rooms) = match prepared(alloc, &members) {
        Ok(prepared) => prepared,
        Err(refusal) => {
            return Err(FleetFault {
                refusal,
                members,
                coordinators: Vec::new(alloc),
            });
        }
    };
    let Rooms {
        works: room,
        dones,
        coordinators,
    } = rooms;
    let halt = StopSignal::new();
    let works = works(members, links, rounds, room);
    let mut dones = at_once(rt, alloc, works, dones, &halt);
    let closed = closed(rt, alloc, inboxes, &mut dones);
    let coordinators = coordinators_of(dones, coordinators);
    match closed {
        Ok(()) => Ok(coordinators),
        Err(refusal) => Err(FleetFault {
            refusal,
            members: Vec::new(alloc),
            coordinators,
        }),
    }
}

// Memory for what threads are given, for what they leave, and for their coordinators.
#[derive(Drop)]
struct Rooms<N: NetKeeper, G> {
    works: Vec<Work<N, G>>,
    dones: Vec<MemberEnd<N>>,
    coordinators: Vec<Coordinator<N>>,
}

// What has to be there before the first thread. Refused only if memory runs out.
fn prepared<N: NetKeeper + Drop, G: Drop>(
    alloc: Global,
    members: &[Member<N, G>],
) -> Result<(Vec<Links>, Vec<PortPool>, Rooms<N, G>), Refusal>
    ensures links { IfOk result (λ r. r.0.items
        ≡ links_of (map member_number members.now) (map (λ b. b.inbox) r.1.items) 0 members.now) }
    ensures inboxes { IfOk result (λ r. length r.1.items ≡ length members.now) }
    ensures out { IfOk result (λ r. HaveOut (length members.now) (length members.now) r.1.items) }
    ensures works { IfOk result (λ r. (r.2.works.items ≡ []) × (length members.now ≤ vec_capacity r.2.works)) }
    ensures dones { IfOk result (λ r. (r.2.dones.items ≡ []) × (length members.now ≤ vec_capacity r.2.dones)) }
    ensures coordinators { IfOk result (λ r. (r.2.coordinators.items ≡ [])
        × (length members.now ≤ vec_capacity r.2.coordinators)) }
    ensures err { IsOkUnless result Refusal.OutOfMemory }
{
    let (links, inboxes) = link(alloc, members)?;
    let count = members.len();
    let rooms = Rooms {
        works: Vec::with_capacity(alloc, count)?,
        dones: Vec::with_capacity(alloc, count)?,
        coordinators: Vec::with_capacity(alloc, count)?,
    };
    Ok((links, inboxes, rooms))
}

// Closes the inboxes, unless a member ended early. NotMine(0) if a packet is left.
fn closed<N: NetKeeper + Drop, R: Wait>(
    rt: &R,
    alloc: Global,
    inboxes: Vec<PortPool>,
    dones: &mut [MemberEnd<N>],
) -> Result<(), Refusal>
    requires used { NoneEarly dones.old → AreUsed 0 (map (λ b. b.inbox) inboxes.items)
        (map passed_at (map (λ d. d.state) dones.old)) (map (λ d. d.ports) dones.old) }
    requires count { length inboxes.items ≡ length dones.old }
    requires out { HaveOut (length dones.old) (length dones.old) inboxes.items }
    ensures same { map (λ d. d.state) dones.new ≡ map (λ d. d.state) dones.old }
    ensures none { OnOk result (NoneEarly dones.old) }
    ensures passed { OnOk result (ArePassedOn (map passed_at (map (λ d. d.state) dones.old))) }
    ensures cause { IfErr result (λ refusal. IsTrue (may_stop refusal)) }
{
    match first_early(dones) {
        None => close_all(rt, alloc, inboxes, dones),
        Some(Early::Refused(refusal)) => Err(refusal),
        // A packet that no intake awaits is left, as one that is still in an inbox.
        Some(Early::Left) => Err(Refusal::NotMine(0)),
        // A thread that stops a fleet was refused, and leaves that.
        Some(Early::Stopped) => Err(Refusal::OutOfMemory),
    }
}

// Why members ended early: the first that was refused, as listed, and an intake before a solver.
fn first_early<N: NetKeeper>(dones: &[MemberEnd<N>]) -> Option<Early>
    ensures named { result ≡ named_of dones.now }
    ensures none { IfNone result (NoneEarly dones.now) }
    ensures cause { IfSome result (λ early. IsTrue (may_end early)) }
{
    let (first, rest) = dones.split_first()?;
    first_of(first.early, first_early(rest))
}

// The coordinators, as listed. There is room for them.
fn coordinators_of<N: NetKeeper + Drop>(
    dones: Vec<MemberEnd<N>>,
    mut coordinators: Vec<Coordinator<N>>,
) -> Vec<Coordinator<N>>
    requires empty { coordinators.items ≡ [] }
    requires room { vec_len dones ≤ vec_capacity coordinators }
    ensures { map (λ c. c.state) result.items ≡ map (λ d. d.state) dones.items }
{
    for done in dones {
        let MemberEnd { coordinator, .. } = done;
        coordinators.push_reserved(coordinator);
    }
    coordinators
}

// Does all works at the same time.
fn at_once<'x, N: NetKeeper + Send + Drop, G: Gate + Send + Drop, R: Threads + Wait + Sync>(
    rt: &'x R,
    alloc: Global,
    works: Vec<Work<N, G>>,
    room: Vec<MemberEnd<N>>,
    halt: &'x StopSignal,
) -> Vec<MemberEnd<N>>
    requires room { (vec_len room ≡ 0) × (vec_len works ≤ vec_capacity room) }
    ensures { AreDoneUnless works.items result.items }
{
    thread::scope(
        thread::scope_env(),
        rt,
        move |scope| -> Vec<MemberEnd<N>>
            requires room { (vec_len room ≡ 0) × (vec_len works ≤ vec_capacity room) }
            ensures { AreDoneUnless works.items result.items }
        { serve_all(scope, rt, alloc, works, room, halt) },
    )
}

// The handle of a member's thread.
type Handle<N, G> = PromisedHandle<MemberEnd<N>, Served<N, G>>;

// Starts a thread for the last, does all before it, and joins the thread.
fn serve_all<
    's,
    'x: 's,
    E,
    N: NetKeeper + Send + Drop + 's,
    G: Gate + Send + Drop + 's,
    R: Threads + Wait + Sync,
>(
    scope: &'s Scope<'s, E>,
    rt: &'x R,
    alloc: Global,
    mut works: Vec<Work<N, G>>,
    room: Vec<MemberEnd<N>>,
    halt: &'x StopSignal,
) -> Vec<MemberEnd<N>>
    requires room { (vec_len room ≡ 0) × (vec_len works ≤ vec_capacity room) }
    ensures done { AreDoneUnless works.items result.items }
    ensures count { (vec_len result ≡ vec_len works) × (vec_capacity result ≡ vec_capacity room) }
{
    let Some(work) = works.pop() else {
        return room;
    };
    let started = started(scope, rt, alloc, work, halt);
    let mut dones = serve_all(scope, rt, alloc, works, room, halt);
    dones.push_reserved(left_by(rt, started));
    dones
}

// What a member leaves whose work was started in a thread, or ended here.
fn left_by<N: NetKeeper + Drop, G: Drop, R: Threads + Wait>(
    rt: &R,
    started: Result<Handle<N, G>, MemberEnd<N>>,
) -> MemberEnd<N>
    ensures joined { IfOk started (λ handle. IsDoneUnless handle.promise.0.value result) }
    ensures here { IfErr started (λ done. result ≡ done) }
{
    match started {
        Ok(handle) => handle.join(rt),
        Err(done) => done,
    }
}

// Starts a member's thread. If that cannot be made, the fleet is stopped, and the work is tried here: so its coordinator
// comes back.
fn started<
    's,
    'x: 's,
    E,
    N: NetKeeper + Send + Drop + 's,
    G: Gate + Send + Drop + 's,
    R: Threads + Wait + Sync,
>(
    scope: &'s Scope<'s, E>,
    rt: &'x R,
    alloc: Global,
    work: Work<N, G>,
    halt: &'x StopSignal,
) -> Result<Handle<N, G>, MemberEnd<N>>
    ensures ok { IfOk result (λ handle. handle.promise.0.value ≡ work) }
    ensures err { IfErr result (IsDoneUnless work) }
{
    let promise = Served(Snapshot::of(&work));
    let started = scope.spawn_with(
        promise,
        move || -> MemberEnd<N>
            ensures { IsDoneUnless work result }
        { serve_one(rt, alloc, work, halt) },
    );
    match started {
        Ok(handle) => Ok(handle),
        Err(fault) => {
            halt.stop(rt);
            let serve = fault.value;
            Err(without_thread(serve()))
        }
    }
}

// What a member leaves for which no thread could be made: that is why it ended.
fn without_thread<N: NetKeeper + Drop>(done: MemberEnd<N>) -> MemberEnd<N>
    ensures { result.early ≡ Some (Early.Refused OutOfMemory) }
{
    let MemberEnd {
        coordinator,
        ports,
        ..
    } = done;
    MemberEnd {
        coordinator,
        ports,
        early: Some(Early::Refused(Refusal::OutOfMemory)),
    }
}
