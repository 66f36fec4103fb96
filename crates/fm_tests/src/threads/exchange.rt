//! Fleets: what their members merge, and when their threads wait.

use crate::coordinators::{building, coordinator_id};
use crate::samples::{JOB, small_cluster};
use crate::threads::held::Held;
use crate::threads::waiting::is_set_soon;
use fm_coord::coordinator::Coordinator;
use fm_coord::entry::{Call, Entry};
use fm_fleet::round::{Gate, NoGate};
use fm_gossip::member::Member;
use fm_gossip::member_threads::run_fleet;
use fm_policy::keeper::NetKeeper;
use fm_policy::rebuilder::Rebuilder;
use fm_records::ops::{Field, Op};
use fm_records::refusal::Refusal;
use std::alloc::Global;
use std::rt::Clock;
use std::sync::Wait;
use std::sync::atomic::{AtomicBool, Ordering};
use std::test::Fail;
use std::thread;
use std::thread::Threads;
use std::time::{CpuClock, Duration};

fn told(alloc: Global) -> Result<Vec<Op>, Fail> {
    Ok(small_cluster().to_vec(alloc)?)
}

fn member<G: Drop>(
    alloc: Global,
    number: u8,
    tells: Vec<Op>,
    gate: G,
) -> Result<Member<Rebuilder, G>, Fail> {
    let coordinator = building(alloc, number, 1_000_000)?;
    Ok(Member::new(coordinator, tells, gate))
}

// The first member tells, the second does not.
fn two_members<G: Drop>(alloc: Global, one: G, two: G) -> Result<Vec<Member<Rebuilder, G>>, Fail> {
    let one = member(alloc, 1, told(alloc)?, one)?;
    let two = member(alloc, 2, Vec::new(alloc), two)?;
    both(alloc, one, two)
}

fn both<T: Drop>(alloc: Global, one: T, two: T) -> Result<Vec<T>, Fail> {
    let mut both = Vec::new(alloc);
    both.push(one)?;
    both.push(two)?;
    Ok(both)
}

// The coordinators of a fleet, which is not refused.
fn ran<N: NetKeeper + Send + Drop, G: Gate + Send + Drop, R: Threads + Wait + Sync>(
    rt: &R,
    alloc: Global,
    members: Vec<Member<N, G>>,
    rounds: u32,
) -> Result<Vec<Coordinator<N>>, Fail> {
    match run_fleet(rt, alloc, members, rounds) {
        Ok(coordinators) => Ok(coordinators),
        Err(fault) => Err(fault.refusal)?,
    }
}

// Three tells, a cut and a merge of the one, a cut and a merge of the other, and a view and a commit of each.
#[test]
fn two_members_are_served(rt: HostRuntime) -> Result<(), Fail> {
    let members = two_members(rt.alloc(), NoGate, NoGate)?;
    let served = ran(&rt, rt.alloc(), members, 1)?;
    let is_served = match served.as_slice() {
        [one, two] => one.history().len() == 7 && two.history().len() == 4,
        _ => false,
    };
    assert!(rt; is_served);
    Ok(())
}

// The senders of the packets that were merged, as often as they were.
fn senders(alloc: Global, history: &[Entry]) -> Result<Vec<u8>, Fail> {
    let mut senders = Vec::new(alloc);
    for entry in history {
        if let Call::Merge(packet) = &entry.call {
            senders.push(packet.sender.value())?;
        }
    }
    senders.sort()?;
    Ok(senders)
}

fn three_members(alloc: Global) -> Result<Vec<Member<Rebuilder, NoGate>>, Fail> {
    let mut members = two_members(alloc, NoGate, NoGate)?;
    members.push(member(alloc, 3, Vec::new(alloc), NoGate)?)?;
    Ok(members)
}

// Whether each of three coordinators merged a packet of each of the others.
fn merged_the_others(alloc: Global, served: &[Coordinator<Rebuilder>]) -> Result<bool, Fail> {
    let [one, two, three] = served else {
        return Ok(false);
    };
    let one = senders(alloc, one.history())?;
    let two = senders(alloc, two.history())?;
    let three = senders(alloc, three.history())?;
    Ok(&*one == [2, 3].as_slice() && &*two == [1, 3].as_slice() && &*three == [1, 2].as_slice())
}

#[test]
fn each_of_three_members_merges_the_packets_of_the_others(rt: HostRuntime) -> Result<(), Fail> {
    let members = three_members(rt.alloc())?;
    let served = ran(&rt, rt.alloc(), members, 0)?;
    assert!(rt; merged_the_others(rt.alloc(), &served)?);
    Ok(())
}

// A gate that says that it was reached, waits until the other is, and says whether it saw that.
#[derive(Drop)]
struct Meeting<'a> {
    own: &'a AtomicBool,
    other: &'a AtomicBool,
    saw: &'a AtomicBool,
}

impl<'a> Gate for Meeting<'a> {
    fn hold(&mut self) {
        self.own.store(true, Ordering::SeqCst);
        if is_set_soon(self.other) {
            self.saw.store(true, Ordering::SeqCst);
        }
    }
}

// A gate that is one of two.
fn meet<'a>(own: &'a AtomicBool, other: &'a AtomicBool, saw: &'a AtomicBool) -> Meeting<'a> {
    Meeting { own, other, saw }
}

// How many of two members are served, whose rounds wait for each other.
fn served<'a, R: Threads + Wait + Sync>(
    rt: &R,
    alloc: Global,
    first: &'a AtomicBool,
    second: &'a AtomicBool,
    first_saw: &'a AtomicBool,
    second_saw: &'a AtomicBool,
) -> Result<usize, Fail> {
    let one = meet(first, second, first_saw);
    let two = meet(second, first, second_saw);
    let members = two_members(alloc, one, two)?;
    let served = ran(rt, alloc, members, 1)?;
    Ok(served.len())
}

#[test]
fn rounds_of_two_members_are_held_at_the_same_time(rt: HostRuntime) -> Result<(), Fail> {
    let first = AtomicBool::new(false);
    let second = AtomicBool::new(false);
    let first_saw = AtomicBool::new(false);
    let second_saw = AtomicBool::new(false);
    let served = served(&rt, rt.alloc(), &first, &second, &first_saw, &second_saw)?;
    assert_eq!(rt; served, 2);
    assert!(rt; first_saw.load(Ordering::SeqCst));
    assert!(rt; second_saw.load(Ordering::SeqCst));
    Ok(())
}

// A member whose coordinator calls the gate, if there is one, when it takes the first operation in.
fn held_member<H: Gate + Drop, G: Drop>(
    alloc: Global,
    number: u8,
    tells: Vec<Op>,
    held: Option<H>,
    gate: G,
) -> Result<Member<Held<H>, G>, Fail> {
    let number = coordinator_id(number)?;
    let keeper = Held {
        rebuilder: Rebuilder::new(alloc)?,
        gate: held,
    };
    let coordinator = Coordinator::new(alloc, number, 1_000_000, keeper);
    Ok(Member::new(coordinator, tells, gate))
}

// A gate that sleeps for two seconds.
#[derive(Drop)]
struct Sleep<'a, R> {
    rt: &'a R,
}

impl<R: Clock> Gate for Sleep<'_, R> {
    fn hold(&mut self) {
        thread::sleep(self.rt, Duration::from_secs(2));
    }
}

// Sixteen members. The last alone is told something, and is two seconds late with it.
fn crowd<'a, R: Clock>(
    rt: &'a R,
    alloc: Global,
) -> Result<Vec<Member<Held<Sleep<'a, R>>, NoGate>>, Fail> {
    let mut members = Vec::new(alloc);
    for number in 1..16u8 {
        members.push(held_member(alloc, number, Vec::new(alloc), None, NoGate)?)?;
    }
    members.push(held_member(alloc, 16, told(alloc)?, Some(Sleep { rt }), NoGate)?)?;
    Ok(members)
}

// Threads that try again and again would take all the processor time that there is.
#[test]
fn intakes_sleep_while_they_wait_for_packets(rt: HostRuntime) -> Result<(), Fail> {
    let members = crowd(&rt, rt.alloc())?;
    let before = rt.process_cpu_time()?;
    let served = ran(&rt, rt.alloc(), members, 0)?;
    let after = rt.process_cpu_time()?;
    let used = after.checked_sub(before).ok_or("a clock that went back")?;
    assert_eq!(rt; served.len(), 16);
    assert!(rt; used < Duration::from_secs(1));
    Ok(())
}

// Two members, each held up at its first operation or in its round.
fn held_members<'a>(
    alloc: Global,
    first: Meeting<'a>,
    second: Meeting<'a>,
    tell: Meeting<'a>,
) -> Result<Vec<Member<Held<Meeting<'a>>, Meeting<'a>>>, Fail> {
    let one = held_member(alloc, 1, told(alloc)?, None, first)?;
    let two = held_member(alloc, 2, told(alloc)?, Some(tell), second)?;
    both(alloc, one, two)
}

// The first member's round and the second's first tell wait for each other, so the round is held while the first member's
// intake waits for a packet. The second member's round waits for that tell too, so a round before the first tell would
// wait in vain.
fn saw_each_other<R: Threads + Wait + Sync>(rt: &R, alloc: Global) -> Result<bool, Fail> {
    let first = AtomicBool::new(false);
    let second = AtomicBool::new(false);
    let told = AtomicBool::new(false);
    let first_saw = AtomicBool::new(false);
    let second_saw = AtomicBool::new(false);
    let tell_saw = AtomicBool::new(false);
    let members = held_members(
        alloc,
        meet(&first, &told, &first_saw),
        meet(&second, &told, &second_saw),
        meet(&told, &first, &tell_saw),
    )?;
    let _served = ran(rt, alloc, members, 1)?;
    Ok(
        first_saw.load(Ordering::SeqCst)
            && second_saw.load(Ordering::SeqCst)
            && tell_saw.load(Ordering::SeqCst),
    )
}

#[test]
fn a_round_is_held_while_an_intake_waits(rt: HostRuntime) -> Result<(), Fail> {
    assert!(rt; saw_each_other(&rt, rt.alloc())?);
    Ok(())
}

// An operation with a price beyond its range.
fn bad() -> Op {
    JOB.wait(u32::MAX).preempt(0).op()
}

// The numbers of the coordinators that come back of a fleet whose second member is told what is out of range, and the
// refusal.
fn given_back<R: Threads + Wait + Sync>(
    rt: &R,
    alloc: Global,
) -> Result<(Refusal, Vec<u8>, usize), Fail> {
    let mut tells = told(alloc)?;
    tells.push(bad())?;
    let one = member(alloc, 1, told(alloc)?, NoGate)?;
    let two = member(alloc, 2, tells, NoGate)?;
    let members = both(alloc, one, two)?;
    let Err(fault) = run_fleet(rt, alloc, members, 3) else {
        return Err("a bad operation was told".into());
    };
    let mut numbers = Vec::new(alloc);
    for coordinator in fault.coordinators.iter() {
        numbers.push(coordinator.number().value())?;
    }
    Ok((fault.refusal, numbers, fault.members.len()))
}

// So many jobs, and then one whose price of waiting is out of its range.
fn late(alloc: Global, jobs: u32) -> Result<Vec<Op>, Fail> {
    let mut tells = Vec::new(alloc);
    for number in 0..jobs {
        tells.push(JOB.id(u128::from(number)).op())?;
    }
    tells.push(bad())?;
    Ok(tells)
}

// A job whose price of preemption is out of its range.
fn soon(alloc: Global) -> Result<Vec<Op>, Fail> {
    let op = JOB.wait(0).preempt(u32::MAX).op();
    Ok([op].to_vec(alloc)?)
}

// Why a fleet is refused whose first member is refused after many tells, and the second at once.
fn refused_twice<R: Threads + Wait + Sync>(rt: &R, alloc: Global) -> Result<Refusal, Fail> {
    let one = member(alloc, 1, late(alloc, 300)?, NoGate)?;
    let two = member(alloc, 2, soon(alloc)?, NoGate)?;
    let members = both(alloc, one, two)?;
    match run_fleet(rt, alloc, members, 0) {
        Ok(_) => Err("a bad operation was told".into()),
        Err(fault) => Ok(fault.refusal),
    }
}

#[test]
fn the_first_member_as_listed_is_named(rt: HostRuntime) -> Result<(), Fail> {
    for _ in 0..10 {
        let refusal = refused_twice(&rt, rt.alloc())?;
        assert!(rt; matches!(refusal, Refusal::BadOp(Field::Wait)));
    }
    Ok(())
}

#[test]
fn a_refused_fleet_gives_its_coordinators_back(rt: HostRuntime) -> Result<(), Fail> {
    let (refusal, numbers, members) = given_back(&rt, rt.alloc())?;
    assert!(rt; matches!(refusal, Refusal::BadOp(_)));
    assert!(rt; &*numbers == [1, 2].as_slice());
    assert_eq!(rt; members, 0);
    Ok(())
}
