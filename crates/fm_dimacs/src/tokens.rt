//! Reading a text from its front: each reader returns what it found and the text after it.
//!
//! A number or an id has one spelling here, so numbers with leading zeros, and UUIDs in other forms than lower case
//! with hyphens, are refused.

ghost use Rattle.std.specs.Prelude.{◌≡◌, ℕ, ◌<◌, ◌^◌, ◌+◌, ◌-◌, ◌*◌, true, SomeIff, IfOk, IfSome};
ghost use Rattle.std.specs.Char.{is_ascii_digit};
ghost use Rattle.fm_net.specs.declared.node.Node.{Node as NodeName};
ghost use Rattle.fm_net.specs.Nodes.{IsInRange};
ghost use Rattle.fm_dimacs.specs.inner.Scan.{Reads, ReadsWithin, past_text, digits_from, fitting, number_at, id_at, request_at, named_at, kind_at, node_at, problem_at, numbers_at};

use fm_net::node::Node;
use fm_records::ids::{JobId, MachineId, TaskId};
use fm_records::ops::MOST_BANDWIDTH;
use fm_records::refusal::Refusal;
use std::alloc::Global;
use std::str;

// What follows the text.
pub(crate) fn after<'a>(bytes: &'a [u8], text: &[u8]) -> Option<&'a [u8]>
    ensures { Reads (λ x. x.now) result (past_text text.now bytes.now) }
{
    bytes.strip_prefix(text)
}

// A number of 64 bits without leading zeros.
#[tactic(auto, unfolding(crate::specs::inner::Scan::number_at))]
fn number(bytes: &[u8]) -> Option<(u64, &[u8])>
    ensures { Reads (λ x. (x.0, x.1.now)) result (number_at bytes.now) }
{
    let Some((first, rest)) = bytes.split_first() else {
        return None;
    };
    if *first == b'0' {
        return Some((0, rest));
    }
    if !first.is_ascii_digit() {
        return None;
    }
    digits(u64::from(*first - b'0'), rest)
}

// The number that the digits go on to from the first one.
fn digits(first: u64, bytes: &[u8]) -> Option<(u64, &[u8])>
    ensures { Reads (λ x. (x.0, x.1.now)) result (fitting (digits_from first bytes.now)) }
{
    let mut number = first;
    for (i, byte) in bytes.iter().enumerate() {
        if !byte.is_ascii_digit() {
            return Some((number, &bytes[i..]));
        }
        let Some(next) = with_digit(number, *byte) else {
            return None;
        };
        number = next;
    }
    Some((number, &bytes[bytes.len()..]))
}

// The number with one more digit, if it fits.
fn with_digit(number: u64, digit: u8) -> Option<u64>
    requires { is_ascii_digit digit ≡ true }
    ensures { SomeIff result (number * 10 + (digit - 48) < 2 ^ 64) (number * 10 + (digit - 48)) }
{
    let Some(tens) = number.checked_mul(10) else {
        return None;
    };
    tens.checked_add(u64::from(digit - b'0'))
}

// The numbers of an arc's line: the IDs of its ends, the capacity and the cost.
#[tactic(auto, unfolding(crate::specs::inner::Scan::numbers_at))]
pub(crate) fn numbers(bytes: &[u8]) -> Option<((u64, u64, u64, u64), &[u8])>
    ensures { Reads (λ x. (x.0, x.1.now)) result (numbers_at bytes.now) }
{
    let rest = after(bytes, b"a ")?;
    let (source, rest) = number(rest)?;
    let rest = after(rest, b" ")?;
    let (target, rest) = number(rest)?;
    let rest = after(rest, b" 0 ")?;
    let (capacity, rest) = number(rest)?;
    let rest = after(rest, b" ")?;
    let (cost, rest) = number(rest)?;
    let behind = after(rest, b"\n")?;
    Some(((source, target, capacity, cost), behind))
}

// The number of arcs of the problem line with this number of nodes.
#[tactic(auto, unfolding(crate::specs::inner::Scan::problem_at))]
pub(crate) fn problem(nodes: u64, bytes: &[u8]) -> Option<(u64, &[u8])>
    ensures { Reads (λ x. (x.0, x.1.now)) result (problem_at nodes bytes.now) }
{
    let rest = after(bytes, b"p min ")?;
    let (found, rest) = number(rest)?;
    let rest = after(rest, b" ")?;
    let (arcs, rest) = number(rest)?;
    let rest = after(rest, b"\n")?;
    if found == nodes {
        Some((arcs, rest))
    } else {
        None
    }
}

// A request, and the line's end.
#[tactic(auto, unfolding(crate::specs::inner::Scan::request_at))]
fn request(bytes: &[u8]) -> Option<(Node, &[u8])>
    ensures reads { Reads (λ x. (x.0, x.1.now)) result (request_at bytes.now) }
    ensures in_range { IfSome result (λ x. IsInRange x.0) }
{
    let (found, rest) = number(bytes)?;
    let rest = after(rest, b"\n")?;
    if found <= u64::from(MOST_BANDWIDTH) {
        Some((Node::Request(found as u32), rest))
    } else {
        None
    }
}

// A UUID in lower case with hyphens.
#[tactic(auto, unfolding(crate::specs::inner::Scan::id_at), using(crate::proofs::Uuids::short_no_id, crate::proofs::Uuids::no_text_no_id))]
fn id(alloc: Global, bytes: &[u8]) -> Result<Option<(u128, &[u8])>, Refusal>
    ensures reads { ReadsWithin (λ x. (x.0, x.1.now)) result (id_at bytes.now) }
    ensures fits { IfOk result (λ found. IfSome found (λ x. x.0 < 2 ^ 128)) }
{
    if bytes.len() < 36 {
        return Ok(None);
    }
    let (word, rest) = bytes.split_at(36);
    let Ok(text) = str::from_utf8(word) else {
        return Ok(None);
    };
    let Some(id) = JobId::read(text) else {
        return Ok(None);
    };
    let again = id.text(alloc)?;
    if again.as_bytes() == word {
        Ok(Some((id.value(), rest)))
    } else {
        Ok(None)
    }
}

// The id that a node is named by, and the line's end.
#[tactic(auto, unfolding(crate::specs::inner::Scan::named_at))]
fn named(alloc: Global, bytes: &[u8]) -> Result<Option<(u128, &[u8])>, Refusal>
    ensures reads { (node : ℕ → NodeName) → ReadsWithin (λ x. (node x.0, x.1.now)) result (named_at node bytes.now) }
    ensures fits { IfOk result (λ found. IfSome found (λ x. x.0 < 2 ^ 128)) }
{
    let Some((id, rest)) = id(alloc, bytes)? else {
        return Ok(None);
    };
    Ok(after(rest, b"\n").map(|behind| (id, behind)))
}

// A node's kind and name, and the line's end.
#[tactic(auto, unfolding(crate::specs::inner::Scan::kind_at))]
fn kind(alloc: Global, bytes: &[u8]) -> Result<Option<(Node, &[u8])>, Refusal>
    ensures reads { ReadsWithin (λ x. (x.0, x.1.now)) result (kind_at bytes.now) }
    ensures in_range { IfOk result (λ found. IfSome found (λ x. IsInRange x.0)) }
{
    if let Some(rest) = after(bytes, b" S\n") {
        return Ok(Some((Node::Sink, rest)));
    }
    if let Some(rest) = after(bytes, b" U ") {
        let found = named(alloc, rest)?;
        return Ok(found.map(|(id, rest)| (Node::Unscheduled(JobId::new(id)), rest)));
    }
    if let Some(rest) = after(bytes, b" R ") {
        return Ok(request(rest));
    }
    if let Some(rest) = after(bytes, b" M ") {
        let found = named(alloc, rest)?;
        return Ok(found.map(|(id, rest)| (Node::Machine(MachineId::new(id)), rest)));
    }
    if let Some(rest) = after(bytes, b" T ") {
        let found = named(alloc, rest)?;
        return Ok(found.map(|(id, rest)| (Node::Task(TaskId::new(id)), rest)));
    }
    Ok(None)
}

// The comment of the node with the ID.
#[tactic(auto, unfolding(crate::specs::inner::Scan::node_at))]
pub(crate) fn node(alloc: Global, id: u64, bytes: &[u8]) -> Result<Option<(Node, &[u8])>, Refusal>
    ensures reads { ReadsWithin (λ x. (x.0, x.1.now)) result (node_at id bytes.now) }
    ensures in_range { IfOk result (λ found. IfSome found (λ x. IsInRange x.0)) }
{
    let Some(rest) = after(bytes, b"c ") else {
        return Ok(None);
    };
    match number(rest) {
        Some((found, rest)) if found == id => kind(alloc, rest),
        _ => Ok(None),
    }
}
