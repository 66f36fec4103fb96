//! Readers and writers that fail or are interrupted.

use fm_dimacs::out::{Out, Over};
use fm_io::input::read_input;
use fm_io::interrupts::Resuming;
use fm_io::sending::send;
use fm_io::source::Input;
use fm_records::refusal::Refusal;
use std::alloc::Global;
use std::io::{self, Read, Write};
use std::test::Fail;

const TEXT: &[u8] = b"thirty bytes that go in and out";

// What becomes of a reader at the end of its bytes.
#[derive(Clone, Copy, PartialEq, Eq, Drop)]
enum End {
    Is,
    Fails,
}

// A reader that gives a byte at a time, is interrupted before each, and at the end of its bytes fails or ends.
#[derive(Drop)]
struct Drips<'a> {
    bytes: &'a [u8],
    end: End,
    waits: bool,
}

impl Read for Drips<'_> {
    fn read(&mut self, piece: &mut [u8]) -> io::Result<usize> {
        self.waits = !self.waits;
        if self.waits {
            return Err(io::Error::from(io::ErrorKind::Interrupted));
        }
        if self.bytes.is_empty() && self.end == End::Fails {
            return Err(io::Error::from(io::ErrorKind::Other));
        }
        let n = piece.len().min(1).min(self.bytes.len());
        let (front, back) = self.bytes.split_at(n);
        piece[..n].copy_from_slice(front);
        self.bytes = back;
        Ok(n)
    }
}

fn input_of(bytes: &[u8], end: End) -> Input<Drips<'_>> {
    Input::new(Drips {
        bytes,
        end,
        waits: false,
    })
}

#[test]
fn a_reader_fails_at_each_read_in_turn(rt: HostRuntime) -> Result<(), Fail> {
    let alloc = rt.alloc();
    for end in 0..=TEXT.len() {
        let fault = read_input(alloc, &mut input_of(&TEXT[..end], End::Fails)).err();
        assert_eq!(rt; fault, Some(Refusal::BadScript(0)), "after {end} bytes");
    }
    Ok(())
}

#[test]
fn a_read_that_is_interrupted_is_made_again(rt: HostRuntime) -> Result<(), Fail> {
    let read = read_input(rt.alloc(), &mut input_of(TEXT, End::Is))?;
    assert_eq!(rt; read.as_slice(), TEXT);
    Ok(())
}

// A writer that takes a byte at a time, is interrupted before each, has room for so many, and may fail to let them out.
#[derive(Drop)]
struct Narrow {
    bytes: Vec<u8>,
    room: usize,
    flushes: bool,
    waits: bool,
}

impl Write for Narrow {
    fn write(&mut self, piece: &[u8]) -> io::Result<usize> {
        self.waits = !self.waits;
        if self.waits {
            return Err(io::Error::from(io::ErrorKind::Interrupted));
        }
        let n = piece.len().min(1).min(self.room);
        self.bytes.extend_from_slice(&piece[..n])?;
        self.room -= n;
        Ok(n)
    }

    fn flush(&mut self) -> io::Result<()> {
        if self.flushes {
            Ok(())
        } else {
            Err(io::Error::from(io::ErrorKind::Other))
        }
    }
}

fn sink_of(alloc: Global, room: usize, flushes: bool) -> Over<Resuming<Narrow>> {
    Over::new(Resuming::new(Narrow {
        bytes: Vec::new(alloc),
        room,
        flushes,
        waits: false,
    }))
}

#[test]
fn a_writer_fails_at_each_write_in_turn(rt: HostRuntime) -> Result<(), Fail> {
    let alloc = rt.alloc();
    for room in 0..=TEXT.len() {
        let mut sink = sink_of(alloc, room, true);
        let sent = send(&mut sink, TEXT);
        let wanted = if room < TEXT.len() {
            Err(Refusal::WriteFault)
        } else {
            Ok(())
        };
        assert_eq!(rt; sent, wanted, "with room for {room} bytes");
        assert_eq!(rt;
            sink.into_inner().into_inner().bytes.as_slice(),
            &TEXT[..room]
        );
    }
    Ok(())
}

#[test]
fn a_text_that_is_not_let_out_is_a_fault(rt: HostRuntime) -> Result<(), Fail> {
    let mut sink = sink_of(rt.alloc(), TEXT.len(), false);
    assert_eq!(rt; send(&mut sink, TEXT), Err(Refusal::WriteFault));
    Ok(())
}

#[test]
fn an_interrupted_write_is_a_fault_of_over(rt: HostRuntime) -> Result<(), Fail> {
    let mut sink = Over::new(
        sink_of(rt.alloc(), TEXT.len(), true)
            .into_inner()
            .into_inner(),
    );
    assert_eq!(rt; (sink.put(TEXT), sink.failed()), (0, true));
    assert_eq!(rt; (sink.put(TEXT), sink.failed()), (1, true));
    Ok(())
}
