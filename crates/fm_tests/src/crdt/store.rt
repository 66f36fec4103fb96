//! Stores: what is written and found again, each cut and each changed byte of a small file, other heads, and compaction.

use crate::coordinators::coordinator_id;
use crate::samples::JOB;
use crate::told::packet;
use fm_delta::packet::Packet;
use fm_know::knowledge::Knowledge;
use fm_records::refusal::Refusal;
use fm_store::device::Device;
use fm_store::disk::Disk;
use fm_store::frames::put_frame;
use fm_store::head::Head;
use fm_store::known::AllKnown;
use fm_store::memory::Memory;
use fm_store::pieces::split_packets;
use fm_store::recovery::{knowledge_of, recover};
use fm_store::store::{append_packet, open_store, read_store, rewrite_store};
use fm_store::store_fault::StoreFault;
use std::alloc::Global;
use std::test::Fail;
use std::time::Duration;
use std::{fs, thread};

// The file of a store of coordinators 1 and 2 with the label "west" and two packets, as tests/stored.py writes it. Its
// head ends at 64, and the packets at 192 and 286.
const STORE: [u8; 286] = [
    0x46, 0x4d, 0x53, 0x54, 0x4f, 0x52, 0x45, 0x31, 0, 0, 0, 0, 0, 0, 0, 7, 0xa3, 0xeb, 0x8d, 0xb8,
    0x9f, 0xc5, 0x12, 0x3c, 0xd7, 0xa7, 0xb6, 0xe5, 0xf5, 0xa6, 0xbb, 0x84, 0xe3, 0x9f, 0x4a, 0x84,
    0xe7, 0xa3, 0x3b, 0xe6, 0x51, 0xc, 0xad, 0x57, 0xc7, 0xcf, 0x80, 0x6a, 0xe0, 0xf8, 4, 0xad, 9,
    0xb0, 0xbb, 0xcb, 2, 1, 2, 0x77, 0x65, 0x73, 0x74, 0xff, 0, 0, 0, 0, 0, 0, 0, 0x4f, 0xba, 0xf3,
    0x17, 0x1d, 0x10, 0x44, 0x11, 0x1c, 0x70, 0x46, 0xe, 0xb8, 0x7b, 0xda, 0xe7, 0xf9, 0xb7, 0x19,
    0x4d, 0x6b, 0x9e, 0x1d, 0x97, 0x17, 0xb, 0xf9, 0xec, 0x99, 0x63, 0xc2, 0x13, 0xc5, 0x9c, 0xa1,
    0, 0x25, 0xbf, 0x8b, 0x9a, 0x4d, 0x46, 0x44, 0x47, 0x32, 1, 0, 0, 0, 0, 0, 0, 0, 3, 0, 0, 0, 0,
    0, 0, 0, 1, 0, 0, 0, 0, 0, 0, 0, 0, 0, 0, 0, 0, 0, 0, 0, 1, 0, 0, 0, 0, 0, 0, 0, 2, 1, 0, 0, 0,
    2, 0x58, 0, 0, 3, 0x20, 0, 0, 0, 0, 0, 0, 0, 0, 0, 0, 0, 0, 0, 0, 0, 0, 0, 0, 0, 0, 0, 0, 0, 0,
    0xff, 0, 0, 0, 0, 0, 0, 0, 0x2d, 0x22, 0xb, 0x2f, 0x8d, 0x3e, 9, 0xff, 0xab, 0x12, 0x18, 0xe5,
    0x2e, 0xfe, 0x3d, 0xe0, 0x83, 0x67, 0xe0, 0x87, 0x53, 0x9a, 0xdc, 0xad, 0xe7, 0xca, 0xdd, 3,
    0x7f, 0xb2, 0x3d, 0x9f, 0x65, 0x33, 7, 0x6b, 0x70, 7, 0xa3, 0xcf, 6, 0x46, 0x44, 0x47, 0x32, 1,
    0, 0, 0, 0, 0, 0, 0, 4, 0, 0, 0, 0, 0, 0, 0, 0, 0, 0, 0, 0, 0, 0, 0, 0, 0, 0, 0, 0, 0, 0, 0, 0,
    0, 0, 0, 0, 0, 0, 0, 0, 0xff,
];

// The functions below have no contract: the tests are of what is answered, and proofs of them stay short.

fn head(alloc: Global, label: &str, listed: &[u8]) -> Result<Head, Fail> {
    let mut numbers = Vec::new(alloc);
    for number in listed {
        numbers.push(coordinator_id(*number)?)?;
    }
    Ok(Head::new(String::from_str(alloc, label)?, numbers).ok_or("no such head")?)
}

fn west(alloc: Global) -> Result<Head, Fail> {
    head(alloc, "west", &[1, 2])
}

fn memory(alloc: Global, bytes: &[u8]) -> Result<Memory, Fail> {
    Ok(Memory::new(Vec::from_slice(alloc, bytes)?))
}

// Packet 3, of a job, if there is one, and else packet 4, of nothing.
fn sample(alloc: Global, number: u64) -> Result<Packet, Refusal> {
    if number == 4 {
        packet(alloc, 4, &[])
    } else {
        packet(alloc, number, &[JOB.version(2).wait(600).op()])
    }
}

// How many packets are found in the bytes, and how many bytes the store has.
fn found(alloc: Global, head: &Head, bytes: &[u8]) -> Result<(usize, usize), StoreFault> {
    let found = recover(alloc, head, bytes)?;
    Ok((found.packets.len(), found.whole))
}

fn opened(alloc: Global, device: &mut Memory, head: &Head) -> Result<usize, StoreFault> {
    let packets = open_store(alloc, device, head)?;
    Ok(packets.len())
}

// The bytes of the store with a bit changed of the byte at the place.
fn with_bit(alloc: Global, place: usize) -> Result<Vec<u8>, Fail> {
    let mut changed = Vec::from_slice(alloc, &STORE)?;
    if let Some(byte) = changed.get_mut(place) {
        *byte ^= 1 << (place % 8);
    }
    Ok(changed)
}

// How many packets are whole in so many bytes of the store, and how many bytes these packets take with what is before.
fn whole_of(len: usize) -> (usize, usize) {
    if len < 64 {
        (0, 0)
    } else if len < 192 {
        (0, 64)
    } else if len < 286 {
        (1, 192)
    } else {
        (2, 286)
    }
}

// Where the part of the store begins that has the place.
fn begin_of(place: usize) -> usize {
    if place < 8 {
        0
    } else if place < 64 {
        8
    } else if place < 192 {
        64
    } else {
        192
    }
}

#[test]
fn two_packets_are_written_as_documented(rt: HostRuntime) -> Result<(), Fail> {
    let alloc = rt.alloc();
    let head = west(alloc)?;
    let mut device = memory(alloc, &[])?;
    assert_eq!(rt; opened(alloc, &mut device, &head), Ok(0));
    assert!(rt; device.bytes() == &STORE[..64]);
    append_packet(alloc, &mut device, &sample(alloc, 3)?)?;
    append_packet(alloc, &mut device, &sample(alloc, 4)?)?;
    assert!(rt; device.bytes() == STORE.as_slice());
    assert_eq!(rt; device.synced(), 64);
    device.sync()?;
    assert_eq!(rt; device.synced(), 286);
    Ok(())
}

#[test]
fn what_a_failed_sync_left_is_written_anew(rt: HostRuntime) -> Result<(), Fail> {
    let alloc = rt.alloc();
    // two packets read back, and a crash leaves the head alone
    let mut device = Memory::after_failed_sync(Vec::from_slice(alloc, &STORE)?, 64);
    assert!(rt; !device.is_sound());
    device.sync()?;
    assert_eq!(rt; device.synced(), 64);
    assert_eq!(rt; opened(alloc, &mut device, &west(alloc)?), Ok(2));
    assert!(rt; device.bytes() == STORE.as_slice());
    assert_eq!(rt; device.synced(), 286);
    append_packet(alloc, &mut device, &sample(alloc, 4)?)?;
    device.sync()?;
    assert_eq!(rt; device.synced(), device.bytes().len());
    Ok(())
}

#[test]
fn a_torn_end_after_a_failed_sync_is_cut_off(rt: HostRuntime) -> Result<(), Fail> {
    let alloc = rt.alloc();
    let mut device = Memory::after_failed_sync(Vec::from_slice(alloc, &STORE[..285])?, 0);
    assert_eq!(rt; opened(alloc, &mut device, &west(alloc)?), Ok(1));
    assert!(rt; device.bytes() == &STORE[..192]);
    assert_eq!(rt; device.synced(), 192);
    Ok(())
}

#[test]
fn packets_are_found_in_their_order(rt: HostRuntime) -> Result<(), Fail> {
    let alloc = rt.alloc();
    let mut device = memory(alloc, &STORE)?;
    let packets = open_store(alloc, &mut device, &west(alloc)?)?;
    let wanted = [sample(alloc, 3)?, sample(alloc, 4)?];
    assert_eq!(rt; packets.len(), 2);
    for (found, wanted) in packets.iter().zip(wanted.iter()) {
        assert!(rt; found == wanted);
    }
    assert!(rt; device.bytes() == STORE.as_slice());
    Ok(())
}

#[test]
fn each_cut_is_found_whole(rt: HostRuntime) -> Result<(), Fail> {
    let alloc = rt.alloc();
    let head = west(alloc)?;
    for len in 0..287 {
        let wanted = whole_of(len);
        let mut bytes = Vec::from_slice(alloc, &STORE[..len])?;
        assert_eq!(rt; found(alloc, &head, &bytes), Ok(wanted));
        bytes.extend_from_slice(&[0; 7])?;
        assert_eq!(rt; found(alloc, &head, &bytes), Ok(wanted));
    }
    Ok(())
}

#[test]
fn each_changed_byte_is_damage(rt: HostRuntime) -> Result<(), Fail> {
    let alloc = rt.alloc();
    let head = west(alloc)?;
    for place in 0..286 {
        let begin = begin_of(place);
        let changed = with_bit(alloc, place)?;
        assert_eq!(rt;
            found(alloc, &head, &changed),
            Err(StoreFault::Damaged(begin))
        );
    }
    Ok(())
}

#[test]
fn a_torn_end_is_cut_off(rt: HostRuntime) -> Result<(), Fail> {
    let alloc = rt.alloc();
    let mut device = memory(alloc, &STORE[..285])?;
    assert_eq!(rt; opened(alloc, &mut device, &west(alloc)?), Ok(1));
    assert!(rt; device.bytes() == &STORE[..192]);
    append_packet(alloc, &mut device, &sample(alloc, 4)?)?;
    assert!(rt; device.bytes() == STORE.as_slice());
    Ok(())
}

#[test]
fn an_unfinished_head_is_made_anew(rt: HostRuntime) -> Result<(), Fail> {
    let alloc = rt.alloc();
    for len in [0, 1, 7, 8, 9, 24, 63] {
        let mut device = memory(alloc, &STORE[..len])?;
        assert_eq!(rt; opened(alloc, &mut device, &west(alloc)?), Ok(0));
        assert!(rt; device.bytes() == &STORE[..64]);
    }
    Ok(())
}

#[test]
fn a_store_of_another_cluster_is_left_alone(rt: HostRuntime) -> Result<(), Fail> {
    let alloc = rt.alloc();
    let others = [
        head(alloc, "east", &[1, 2])?,
        head(alloc, "", &[1, 2])?,
        head(alloc, "west", &[1, 3])?,
        head(alloc, "west", &[2, 1])?,
        head(alloc, "west", &[1])?,
        head(alloc, "west", &[1, 2, 3])?,
    ];
    for other in &others {
        let mut device = memory(alloc, &STORE)?;
        assert_eq!(rt;
            opened(alloc, &mut device, other),
            Err(StoreFault::OtherCluster)
        );
        assert!(rt; device.bytes() == STORE.as_slice());
    }
    Ok(())
}

#[test]
fn other_files_are_no_stores(rt: HostRuntime) -> Result<(), Fail> {
    let alloc = rt.alloc();
    let head = west(alloc)?;
    assert_eq!(rt;
        found(alloc, &head, b"FMSTORE2"),
        Err(StoreFault::Damaged(0))
    );
    assert_eq!(rt;
        found(alloc, &head, b"FMS TORE"),
        Err(StoreFault::Damaged(0))
    );
    let mut bytes = Vec::from_slice(alloc, &STORE[..192])?;
    put_frame(&mut bytes, b"no packet")?;
    assert_eq!(rt; found(alloc, &head, &bytes), Err(StoreFault::Damaged(192)));
    Ok(())
}

#[test]
fn one_packet_takes_the_place_of_all(rt: HostRuntime) -> Result<(), Fail> {
    let alloc = rt.alloc();
    let head = west(alloc)?;
    let mut device = memory(alloc, &STORE)?;
    let packets = open_store(alloc, &mut device, &head)?;
    let (sender, other) = (coordinator_id(1)?, coordinator_id(2)?);
    assert!(rt; knowledge_of(alloc, &packets, other)? == Knowledge::empty(alloc));
    let mut whole = Vec::new(alloc);
    whole.push(Packet {
        sender,
        number: 3,
        value: knowledge_of(alloc, &packets, sender)?,
    })?;
    rewrite_store(alloc, &mut device, &head, &whole)?;
    assert!(rt; device.bytes() == &STORE[..192]);
    assert_eq!(rt; device.synced(), 192);
    Ok(())
}

#[test]
fn a_store_is_read_into_what_is_known(rt: HostRuntime) -> Result<(), Fail> {
    let alloc = rt.alloc();
    let head = west(alloc)?;
    let (sender, other) = (coordinator_id(1)?, coordinator_id(2)?);
    let mut device = memory(alloc, &STORE)?;
    let packets = open_store(alloc, &mut device, &head)?;
    let mut all = AllKnown::none(alloc, &[sender, other])?;
    read_store(alloc, &mut device, &head, &mut all)?;
    // coordinator 2 has no packets
    let known = all.packets()?;
    assert_eq!(rt; known.len(), 1);
    let first = known.first().ok_or("nothing is known")?;
    assert_eq!(rt; first.sender, sender);
    assert!(rt; first.value == knowledge_of(alloc, &packets, sender)?);
    Ok(())
}

// A packet of so many jobs.
fn packet_of_jobs(alloc: Global, count: u128) -> Result<Packet, Refusal> {
    let mut all = Vec::new(alloc);
    for id in 1..count + 1 {
        all.push(JOB.id(id).version(2).wait(600).op())?;
    }
    packet(alloc, 5, &all)
}

// The pieces of the packet.
fn split(alloc: Global, packet: Packet, most: usize) -> Result<Vec<Packet>, Fail> {
    let mut packets = Vec::new(alloc);
    packets.push(packet)?;
    Ok(split_packets(packets, most)?)
}

#[test]
fn a_packet_is_halved_until_it_fits(rt: HostRuntime) -> Result<(), Fail> {
    let alloc = rt.alloc();
    // 300 jobs have 45 + 300 * 34 = 10,245 bytes, 150 have 5,145, and 75 have 2,595
    for (most, count) in [(10245, 1), (10244, 2), (5145, 2), (5144, 4), (0, 4)] {
        let pieces = split(alloc, packet_of_jobs(alloc, 300)?, most)?;
        assert_eq!(rt; pieces.len(), count);
        for piece in &pieces {
            assert_eq!(rt; piece.value.jobs().len(), 300 / count);
            assert_eq!(rt; piece.number, 5);
        }
        let whole = packet_of_jobs(alloc, 300)?;
        assert!(rt; knowledge_of(alloc, &pieces, whole.sender)? == whole.value);
    }
    Ok(())
}

// The files that a disk at the path leaves are removed, if they are there.
fn removed(rt: &HostRuntime, path: &str, mark: &str) {
    let _ = fs::remove_file(rt, path);
    let _ = fs::remove_file(rt, mark);
}

// The packets of the store in the file at the path, after one more was added.
fn grown(rt: &HostRuntime, path: &str, number: u64) -> Result<usize, Fail> {
    let alloc = rt.alloc();
    let mut disk = Disk::open(rt, path)?;
    let packets = open_store(alloc, &mut disk, &west(alloc)?)?;
    append_packet(alloc, &mut disk, &sample(alloc, number)?)?;
    disk.sync()?;
    disk.close();
    Ok(packets.len())
}

#[test]
fn a_file_keeps_what_was_added(rt: HostRuntime) -> Result<(), Fail> {
    let alloc = rt.alloc();
    let path = "tested.store";
    removed(&rt, path, "tested.store.clean");
    assert_eq!(rt; grown(&rt, path, 3)?, 0);
    assert_eq!(rt; grown(&rt, path, 4)?, 1);
    let mut disk = Disk::open(&rt, path)?;
    assert!(rt; disk.is_sound());
    assert!(rt; Disk::open(&rt, path).is_err());
    assert!(rt; disk.read(alloc)?.as_slice() == STORE.as_slice());
    disk.cut(200)?;
    assert_eq!(rt; open_store(alloc, &mut disk, &west(alloc)?)?.len(), 1);
    append_packet(alloc, &mut disk, &sample(alloc, 4)?)?;
    assert!(rt; disk.read(alloc)?.as_slice() == STORE.as_slice());
    removed(&rt, path, "tested.store.clean");
    Ok(())
}

// Whether the file is known to be on the disk as a whole, if the mark of a good end has these bytes.
fn is_sound_by(rt: &HostRuntime, path: &str, mark: &[u8]) -> Result<bool, Fail> {
    fs::write(rt, "marked.store.clean", mark)?;
    Ok(Disk::open(rt, path)?.is_sound())
}

#[test]
fn a_mark_counts_that_is_of_the_file_as_it_is(rt: HostRuntime) -> Result<(), Fail> {
    let alloc = rt.alloc();
    let path = "marked.store";
    removed(&rt, path, "marked.store.clean");
    assert!(rt; !Disk::open(&rt, path)?.is_sound());
    assert_eq!(rt; grown(&rt, path, 3)?, 0);
    let mark = fs::read(&rt, "marked.store.clean")?;
    assert!(rt; is_sound_by(&rt, path, &mark)?);
    for len in 0..mark.len() {
        assert!(rt; !is_sound_by(&rt, path, &mark[..len])?);
    }
    for place in 0..mark.len() {
        let mut forged = Vec::from_slice(alloc, &mark)?;
        if let Some(byte) = forged.get_mut(place) {
            *byte ^= 1;
        }
        assert!(rt; !is_sound_by(&rt, path, &forged)?);
    }
    // a change in the same tick of the system's clock would not be seen
    thread::sleep(&rt, Duration::from_millis(50));
    let bytes = fs::read(&rt, path)?;
    fs::write(&rt, path, &bytes)?;
    assert!(rt; !is_sound_by(&rt, path, &mark)?);
    removed(&rt, path, "marked.store.clean");
    Ok(())
}
