//! Inboxes that threads share.

use crate::told;
use fm_delta::packet::Packet;
use fm_inbox::inbox::Inbox;
use fm_inbox::owned_port::{OwnedPort, PortPool};
use fm_records::refusal::Refusal;
use std::alloc::Global;
use std::sync::Wait;
use std::test::Fail;
use std::thread;
use std::thread::Threads;

fn packet(alloc: Global, number: u64) -> Result<Packet, Fail> {
    Ok(told::packet(alloc, number, &[])?)
}

#[test]
fn an_inbox_of_one(rt: HostRuntime) -> Result<(), Fail> {
    let (inbox, mut ports) = Inbox::new(rt.alloc(), 1, 1)?;
    let Some(mut port) = ports.pop() else {
        return Err("no port".into());
    };
    assert!(rt; inbox.put(&rt, &mut port, packet(rt.alloc(), 1)?).is_ok());
    match inbox.put(&rt, &mut port, packet(rt.alloc(), 2)?) {
        Ok(()) => assert!(rt; false, "room for a second packet"),
        Err(fault) => {
            assert_eq!(rt; fault.refusal.number(), 10);
            assert_eq!(rt; fault.packet.number, 2);
        }
    }
    assert_eq!(rt; inbox.take(&rt, &mut port)?.number, 1);
    assert_eq!(rt; inbox.take(&rt, &mut port).err(), Some(Refusal::InboxEmpty));
    let (inbox, mut ports) = match inbox.close(&rt, ports) {
        Ok(_) => return Err("closed without its port".into()),
        Err(kept) => {
            assert_eq!(rt; kept.refusal, Refusal::NotMine(0));
            (kept.inbox, kept.ports)
        }
    };
    ports.push(port)?;
    match inbox.close(&rt, ports) {
        Ok(left) => assert_eq!(rt; left.len(), 0),
        Err(_) => assert!(rt; false, "its port is there"),
    }
    Ok(())
}

// Puts packets with the numbers below the count, each once there is room.
fn put_all<R: Wait>(rt: &R, alloc: Global, port: &mut OwnedPort, count: u64) -> Result<(), Fail> {
    for number in 0..count {
        let mut waiting = packet(alloc, number)?;
        for _ in rt.forever() {
            match port.put(rt, waiting) {
                Ok(()) => break,
                Err(fault) => waiting = fault.packet,
            }
            thread::yield_now();
        }
    }
    Ok(())
}

// Takes so many packets, each once there is one. Whether their numbers rise from 0.
fn take_all<R: Wait>(rt: &R, port: &mut OwnedPort, count: u64) -> bool {
    let mut rise = true;
    for number in 0..count {
        for _ in rt.forever() {
            if let Ok(packet) = port.take(rt) {
                rise = rise && packet.number == number;
                break;
            }
            thread::yield_now();
        }
    }
    rise
}

fn exchange<R: Threads + Wait + Sync>(rt: &R, alloc: Global) -> Result<bool, Fail> {
    let mut pool = PortPool::new(alloc, 2, 4)?;
    let mut one = pool.lend_port()?.ok_or("a port")?;
    let mut two = pool.lend_port()?.ok_or("another")?;
    let (sent, rise) = thread::join(
        rt,
        move || put_all(rt, alloc, &mut one, 100),
        move || take_all(rt, &mut two, 100),
    );
    sent?;
    Ok(rise && pool.lend_port()?.is_none())
}

#[test]
fn two_threads_and_a_small_inbox(rt: HostRuntime) -> Result<(), Fail> {
    assert!(rt; exchange(&rt, rt.alloc())?);
    Ok(())
}

// What became of a packet that was put once.
#[derive(PartialEq, Drop)]
enum Became {
    Put,
    GivenBackForFull,
    LostOrOtherwise,
}

// Puts the packet, and returns the port with its result.
fn put_once<R: Wait>(rt: &R, mut port: OwnedPort, packet: Packet) -> (OwnedPort, Became) {
    let number = packet.number;
    let became = match port.put(rt, packet) {
        Ok(()) => Became::Put,
        Err(fault) if fault.refusal == Refusal::InboxFull && fault.packet.number == number => {
            Became::GivenBackForFull
        }
        Err(_) => Became::LostOrOtherwise,
    };
    (port, became)
}

// What became of the packets 1 and 2 of two threads, and which one was taken then.
fn both_put<R: Threads + Wait + Sync>(
    rt: &R,
    alloc: Global,
) -> Result<(Became, Became, u64), Fail> {
    let mut pool = PortPool::new(alloc, 2, 1)?;
    let one = pool.lend_port()?.ok_or("a port")?;
    let two = pool.lend_port()?.ok_or("another")?;
    let (packet_one, packet_two) = (packet(alloc, 1)?, packet(alloc, 2)?);
    let ((mut one, first), (_, second)) = thread::join(
        rt,
        move || put_once(rt, one, packet_one),
        move || put_once(rt, two, packet_two),
    );
    let taken = one.take(rt)?.number;
    Ok((first, second, taken))
}

#[test]
fn two_threads_put_into_an_inbox_of_one(rt: HostRuntime) -> Result<(), Fail> {
    let became = both_put(&rt, rt.alloc())?;
    assert!(rt;
        became == (Became::Put, Became::GivenBackForFull, 1)
            || became == (Became::GivenBackForFull, Became::Put, 2)
    );
    Ok(())
}
