//! Texts of a small network, and writers that take little or fail. What other networks come to, `tests/served.py` has.

use crate::samples::small_cluster;
use crate::told::known;
use fm_dimacs::dump::dump;
use fm_dimacs::out::{Out, Over};
use fm_dimacs::read::read;
use fm_dimacs::solution::write_solution;
use fm_flow::solve::solve;
use fm_know::knowledge::Knowledge;
use fm_know::laws::law_can_be;
use fm_net::network::Network;
use fm_policy::build::build;
use fm_records::refusal::Refusal;
use std::alloc::Global;
use std::io::{self, Write};
use std::test::Fail;

// The functions below have no contract: the tests are of what is answered, and proofs of them stay short.

fn network_of(alloc: Global, known: &Knowledge) -> Result<Network, Refusal> {
    law_can_be(known);
    Ok(build(alloc, known)?)
}

fn waiting(alloc: Global) -> Result<Network, Refusal> {
    let known = known(alloc, &small_cluster())?;
    network_of(alloc, &known)
}

fn text_of(alloc: Global, network: &Network) -> Result<Vec<u8>, Refusal> {
    let mut out = Over::new(Vec::new(alloc));
    dump(alloc, network, &mut out)?;
    Ok(out.into_inner())
}

const WAITING: &str = "c 1 S
c 2 U 00000000-0000-0000-0000-000000000001
c 3 R 100
c 4 M 00000000-0000-0000-0000-00000000000a
c 5 T 00000000-0000-0000-0000-000000000011
p min 5 5
n 1 -1
n 5 1
a 2 1 0 1 0
a 3 4 0 2 100
a 4 1 0 2 0
a 5 2 0 1 500
a 5 3 0 1 0
";

fn text_of_waiting(alloc: Global) -> Result<Vec<u8>, Refusal> {
    let network = waiting(alloc)?;
    text_of(alloc, &network)
}

#[test]
fn a_task_waits(rt: HostRuntime) {
    let is_waiting = match text_of_waiting(rt.alloc()) {
        Ok(text) => text.as_slice() == WAITING.as_bytes(),
        Err(_) => false,
    };
    assert!(rt; is_waiting);
}

// The number of the first line that breaks a rule, 0 if the text is a network's.
fn broken_line(alloc: Global, text: &[u8]) -> Result<usize, Refusal> {
    match read(alloc, text) {
        Ok(_) => Ok(0),
        Err(Refusal::BadDimacs(line)) => Ok(line),
        Err(refusal) => Err(refusal),
    }
}

fn is_read_as(alloc: Global, text: &[u8], network: &Network) -> Result<bool, Refusal> {
    let found = read(alloc, text)?;
    Ok(found == *network)
}

fn sink_alone(alloc: Global) -> Result<Network, Refusal> {
    Ok(Network::new(alloc)?)
}

fn waiting_is_read(alloc: Global) -> Result<bool, Refusal> {
    let network = waiting(alloc)?;
    is_read_as(alloc, WAITING.as_bytes(), &network)
}

// Whether the text of the sink alone is this, and is read as that.
fn sink_is_read(alloc: Global) -> Result<(bool, bool), Refusal> {
    let sink = sink_alone(alloc)?;
    let text = text_of(alloc, &sink)?;
    let is_sink = text.as_slice() == b"c 1 S\np min 1 0\n".as_slice();
    Ok((is_sink, is_read_as(alloc, &text, &sink)?))
}

#[test]
fn what_is_written_is_read(rt: HostRuntime) {
    assert_eq!(rt; waiting_is_read(rt.alloc()), Ok(true));
    assert_eq!(rt; sink_is_read(rt.alloc()), Ok((true, true)));
}

// If the text that waits is cut off after so many lines, the next one is missing.
#[test]
fn a_text_cut_off_behind_each_byte(rt: HostRuntime) -> Result<(), Fail> {
    for end in 0..WAITING.len() {
        let text = &WAITING.as_bytes()[..end];
        let lines = text.iter().filter(|byte| **byte == b'\n').count();
        assert_eq!(rt;
            broken_line(rt.alloc(), text)?,
            lines.saturating_add(1),
            "{end} bytes"
        );
    }
    Ok(())
}

// What stands once in the text that waits, what is put in its place, and the first line that breaks a rule then.
const CHANGES: &[(&str, &str, usize)] = &[
    ("p min 5 5", "p min 5 6", 14),
    ("a 5 3 0 1 0\n", "", 13),
    ("c 1 S", "c 1 S ", 1),
    ("c 1 S", "c 01 S", 1),
    ("c 1 S", "c 0 S", 1),
    ("c 1 S\n", "", 1),
    ("c 1 S\n", "\nc 1 S\n", 1),
    ("c 1 S", "C 1 S", 1),
    ("c 1 S\n", "c 1 S\r\n", 1),
    ("c 1 S", "c 1 R 5", 1),
    ("c 2 U", "c  2 U", 2),
    ("c 2 U", "c 1 U", 2),
    ("c 2 U", "c 3 U", 2),
    ("c 2 U", "c +2 U", 2),
    ("c 2 U", "c 2 S\nc 3 U", 2),
    (
        "c 2 U 00000000-0000-0000-0000-000000000001",
        "c 2 U 00000000000000000000000000000001",
        2,
    ),
    (
        "c 3 R 100\n",
        "c 3 U 00000000-0000-0000-0000-000000000001\n",
        3,
    ),
    (
        "c 3 R 100\n",
        "c 3 U 00000000-0000-0000-0000-000000000000\n",
        3,
    ),
    ("c 3 R 100", "c 3 R 0100", 3),
    ("c 3 R 100", "c 3 R 1000001", 3),
    ("c 3 R 100", "c 3 R 1000000", 0),
    ("c 3 R 100", "c 3 R -1", 3),
    ("c 3 R 100", "c 3 X 100", 3),
    ("00000000000a", "00000000000A", 4),
    (
        "c 5 T 00000000-0000-0000-0000-000000000011\n",
        "c 5 R 200\n",
        5,
    ),
    ("p min 5 5", "p min 4 5", 6),
    ("p min 5 5", "p min 6 5", 6),
    ("p min 5 5", "p min 5 05", 6),
    ("p min 5 5", "p max 5 5", 6),
    ("p min 5 5", "p min 5 18446744073709551616", 6),
    ("p min 5 5", "p min 5 18446744073709551615", 14),
    ("p min 5 5", "p min 5 4", 13),
    ("p min 5 5", "p min 5", 6),
    ("n 1 -1\n", "", 7),
    ("n 1 -1", "n 1 -2", 7),
    ("n 1 -1", "n 1 1", 7),
    ("n 1 -1\nn 5 1", "n 5 1\nn 1 -1", 7),
    ("n 5 1", "n 4 1", 8),
    ("n 5 1\n", "", 8),
    ("n 5 1\n", "n 5 1\nn 5 1\n", 9),
    ("a 2 1 0 1 0", "a 2 1 1 1 0", 9),
    ("a 2 1 0 1 0", "a 0 1 0 1 0", 9),
    ("a 2 1 0 1 0", "a 6 1 0 1 0", 9),
    ("a 2 1 0 1 0", "a 2 3 0 1 0", 9),
    ("a 2 1 0 1 0", "a 2 1 0 0 0", 9),
    ("a 2 1 0 1 0", "a 2 1 0 18446744073709551615 0", 0),
    ("a 2 1 0 1 0", "a 2 1 0 18446744073709551616 0", 9),
    ("a 2 1 0 1 0", "a 2 1 0 1 1000000000", 0),
    ("a 2 1 0 1 0", "a 2 1 0 1 1000000001", 9),
    ("a 2 1 0 1 0", "a 2 1 0 1 00", 9),
    ("a 2 1 0 1 0", "a 2 1 0 1", 9),
    (
        "a 2 1 0 1 0\na 3 4 0 2 100",
        "a 3 4 0 2 100\na 2 1 0 1 0",
        10,
    ),
    ("a 3 4 0 2 100", "a 2 1 0 1 0", 10),
    (
        "a 5 2 0 1 500\na 5 3 0 1 0",
        "a 5 3 0 1 0\na 5 2 0 1 500",
        13,
    ),
    ("a 5 3 0 1 0\n", "a 5 3 0 1 0", 13),
    ("a 5 3 0 1 0\n", "a 5 3 0 1 0\n\n", 14),
    ("a 5 3 0 1 0\n", "a 5 3 0 1 0\na 5 4 0 1 0\n", 14),
    ("a 5 3 0 1 0\n", "a 5 3 0 1 0\nc", 14),
];

#[test]
fn each_rule_broken_once(rt: HostRuntime) -> Result<(), Fail> {
    for (old, new, line) in CHANGES {
        let text = WAITING.replacen(rt.alloc(), *old, new, 1)?;
        assert_eq!(rt;
            broken_line(rt.alloc(), text.as_bytes())?,
            *line,
            "{old} by {new}"
        );
    }
    Ok(())
}

// A writer that takes at most so many bytes at a time, answers a fault once it took `room`, and counts its writes.
#[derive(Drop)]
struct Narrow {
    bytes: Vec<u8>,
    at_a_time: usize,
    room: usize,
    writes: usize,
}

impl Write for Narrow {
    fn write(&mut self, piece: &[u8]) -> io::Result<usize> {
        if self.room == 0 {
            return Err(io::Error::from(io::ErrorKind::StorageFull));
        }
        let n = piece.len().min(self.at_a_time).min(self.room);
        self.bytes.extend_from_slice(&piece[..n])?;
        self.room -= n;
        self.writes = self.writes.saturating_add(1);
        Ok(n)
    }

    fn flush(&mut self) -> io::Result<()> {
        Ok(())
    }
}

fn writer_of(alloc: Global, at_a_time: usize, room: usize) -> Over<Narrow> {
    Over::new(Narrow {
        bytes: Vec::new(alloc),
        at_a_time,
        room,
        writes: 0,
    })
}

fn dump_to(alloc: Global, known: &Knowledge, out: &mut Over<Narrow>) -> Result<(), Refusal> {
    let network = network_of(alloc, known)?;
    dump(alloc, &network, out)
}

// Writes the solution of the network of what is known.
fn solve_to(alloc: Global, known: &Knowledge, out: &mut Over<Narrow>) -> Result<(), Refusal> {
    law_can_be(known);
    let network = build(alloc, known)?;
    let (flow, _potentials) = solve(alloc, &network)?;
    write_solution(alloc, &network, &flow, out)
}

// The task runs on the machine.
const SOLUTION: &str = "s 100
f 3 4 1
f 4 1 1
f 5 3 1
";

// What is written of the task that waits.
#[derive(Clone, Copy, Drop)]
enum Text {
    Network,
    Solution,
}

impl Text {
    fn whole(self) -> &'static str {
        match self {
            Text::Network => WAITING,
            Text::Solution => SOLUTION,
        }
    }

    fn write(self, alloc: Global, out: &mut Over<Narrow>) -> Result<(), Refusal> {
        let known = known(alloc, &small_cluster())?;
        match self {
            Text::Network => dump_to(alloc, &known, out),
            Text::Solution => solve_to(alloc, &known, out),
        }
    }
}

// What became of writing: why it was refused, whether the writer failed, how much it takes of nothing then, and what it
// took.
#[derive(Drop)]
struct Outcome {
    refusal: Option<Refusal>,
    failed: bool,
    more: usize,
    writer: Narrow,
}

fn written(alloc: Global, text: Text, at_a_time: usize, room: usize) -> Outcome {
    let mut out = writer_of(alloc, at_a_time, room);
    let refusal = text.write(alloc, &mut out).err();
    let failed = out.failed();
    let more = if failed { out.put(b"") } else { 0 };
    Outcome {
        refusal,
        failed,
        more,
        writer: out.into_inner(),
    }
}

// Whether the writer failed, and took so many bytes before it did, of which the text begins.
fn fails_after(alloc: Global, text: Text, at_a_time: usize, room: usize, taken: usize) -> bool {
    let written = written(alloc, text, at_a_time, room);
    let bytes = &written.writer.bytes;
    written.refusal == Some(Refusal::WriteFault)
        && written.failed
        && written.more == 0
        && bytes.len() == taken
        && text.whole().as_bytes().starts_with(bytes)
}

// Whether the whole text goes out, a byte at each write.
fn goes_out(alloc: Global, text: Text) -> bool {
    let written = written(alloc, text, 1, 1000);
    let whole = text.whole().as_bytes();
    written.refusal.is_none()
        && !written.failed
        && written.writer.bytes.as_slice() == whole
        && written.writer.writes == whole.len()
}

#[test]
fn a_writer_fails_after_ten_bytes(rt: HostRuntime) {
    assert!(rt; fails_after(rt.alloc(), Text::Network, 1000, 10, 10));
}

#[test]
fn a_writer_takes_a_byte_at_a_time(rt: HostRuntime) {
    assert!(rt; goes_out(rt.alloc(), Text::Network));
}

#[test]
fn a_writer_takes_nothing(rt: HostRuntime) {
    assert!(rt; fails_after(rt.alloc(), Text::Network, 0, 1000, 0));
}

#[test]
fn a_writer_fails_at_each_write_in_turn(rt: HostRuntime) {
    for room in 0..WAITING.len() {
        assert!(rt;
            fails_after(rt.alloc(), Text::Network, 7, room, room),
            "after {room} bytes"
        );
    }
}

#[test]
fn a_solution_goes_out_a_byte_at_a_time(rt: HostRuntime) {
    assert!(rt; goes_out(rt.alloc(), Text::Solution));
}

#[test]
fn a_writer_takes_nothing_of_a_solution(rt: HostRuntime) {
    assert!(rt; fails_after(rt.alloc(), Text::Solution, 0, 1000, 0));
}

#[test]
fn a_writer_of_a_solution_fails_at_each_write_in_turn(rt: HostRuntime) {
    for room in 0..SOLUTION.len() {
        assert!(rt;
            fails_after(rt.alloc(), Text::Solution, 7, room, room),
            "after {room} bytes"
        );
    }
}
