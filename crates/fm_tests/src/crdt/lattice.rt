//! Each constructor of the lattice, maps, and shared values.

use fm_lattice::constructors::{Both, Lex, Max, Min, Opt};
use fm_lattice::join::{Join, OutOfMemory, copied, law_assoc, law_comm, law_idem};
use fm_lattice::map::JoinMap;
use fm_lattice::shared::Shared;
use std::alloc::{AllocError, Global};
use std::test::Fail;

// The functions below have no contract: the tests are of what is answered, and proofs of them stay short.

// Each is below the other, so they are equal.
fn is_same<T: Join>(a: &T, b: &T) -> bool {
    a.leq(b) && b.leq(a)
}

// Whether the first is below the second, which is not below it.
fn is_less<T: Join>(a: &T, b: &T) -> bool {
    a.leq(b) && !b.leq(a)
}

fn are_apart<T: Join>(a: &T, b: &T) -> bool {
    !a.leq(b) && !b.leq(a)
}

pub(crate) fn joined<T: Join>(a: &T, b: &T) -> Result<T, Fail> {
    Ok(a.joined(b)?)
}

// Whether the laws are seen to hold of the values, and a copy of the last is the same. The contracts say so of all
// values.
fn obey_laws<T: Join>(a: &T, b: &T, c: &T) -> Result<bool, Fail> {
    law_assoc(a, b, c);
    law_comm(a, b);
    law_idem(c);
    let first = a.joined(b)?;
    let last = b.joined(c)?;
    Ok(
        is_same(&first.joined(c)?, &a.joined(&last)?)
            && is_same(&first, &b.joined(a)?)
            && is_same(&c.joined(c)?, c)
            && is_same(&copied(c)?, c),
    )
}

#[test]
fn the_greater_first_part_wins(rt: HostRuntime) -> Result<(), Fail> {
    let old = Lex(1u64, Max(9u8));
    let new = Lex(2u64, Max(3u8));
    let higher = Lex(2u64, Max(9u8));
    assert_eq!(rt; joined(&old, &new)?, new);
    assert_eq!(rt; joined(&higher, &new)?, higher);
    assert!(rt; is_less(&old, &new));
    Ok(())
}

#[test]
fn the_lesser_wins(rt: HostRuntime) -> Result<(), Fail> {
    assert_eq!(rt; joined(&Min(4u8), &Min(7))?, Min(4));
    assert!(rt; is_less(&Min(7u8), &Min(4)));
    Ok(())
}

#[test]
fn none_is_below_all(rt: HostRuntime) -> Result<(), Fail> {
    let none: Opt<Max<u8>> = Opt(None);
    let some = Opt(Some(Max(0u8)));
    assert_eq!(rt; joined(&none, &some)?, some);
    assert!(rt; is_less(&none, &some));
    Ok(())
}

#[test]
fn parts_join_apart(rt: HostRuntime) -> Result<(), Fail> {
    let one = Both(Max(1u8), Min(1u8));
    let two = Both(Max(2u8), Min(2u8));
    assert_eq!(rt; joined(&one, &two)?, Both(Max(2), Min(1)));
    assert!(rt; are_apart(&one, &two));
    Ok(())
}

type Small = JoinMap<u8, Max<u8>>;

// A map of the values, each put at its key.
fn small(alloc: Global, values: &[(u8, u8)]) -> Result<Small, Fail> {
    let mut map = JoinMap::new(alloc);
    for (key, value) in values {
        put(&mut map, *key, *value)?;
    }
    Ok(map)
}

fn put(map: &mut Small, key: u8, value: u8) -> Result<(), Fail> {
    map.put(key, Max(value))?;
    Ok(())
}

fn join_into(map: &mut Small, other: &Small) -> Result<(), Fail> {
    map.join_into(other)?;
    Ok(())
}

fn copy_of(map: &Small) -> Result<Small, Fail> {
    Ok(map.copy()?)
}

fn value(map: &Small, key: u8) -> Option<u8> {
    match map.get(&key) {
        Some(value) => Some(value.0),
        None => None,
    }
}

fn keys(alloc: Global, map: &Small) -> Result<Vec<u8>, Fail> {
    let mut keys = Vec::new(alloc);
    for (key, _) in map.iter() {
        keys.push(*key)?;
    }
    Ok(keys)
}

// Whether it has these keys alone, in order, and these values.
fn holds(alloc: Global, map: &Small, values: &[(u8, u8)]) -> Result<bool, Fail> {
    let keys = keys(alloc, map)?;
    Ok(
        map.len() == values.len()
            && map.is_empty() == values.is_empty()
            && keys.iter().eq(values.iter().map(|pair| &pair.0))
            && values.iter().all(|pair| value(map, pair.0) == Some(pair.1)),
    )
}

#[test]
fn maps_join_key_by_key(rt: HostRuntime) -> Result<(), Fail> {
    let alloc = rt.alloc();
    assert!(rt; holds(alloc, &small(alloc, &[])?, &[])?);
    let mut left = small(alloc, &[(1, 4), (2, 1)])?;
    let right = small(alloc, &[(2, 6), (3, 0)])?;
    let mut both = joined(&left, &right)?;
    join_into(&mut left, &right)?;
    assert!(rt; is_same(&left, &both));
    assert!(rt; is_same(&copy_of(&both)?, &both));
    put(&mut both, 2, 0)?;
    assert!(rt; is_same(&left, &both));
    assert!(rt; is_less(&right, &both));
    assert!(rt; holds(alloc, &both, &[(1, 4), (2, 6), (3, 0)])?);
    assert_eq!(rt; value(&both, 4), None);
    Ok(())
}

type Spots = JoinMap<u8, Min<(u64, u64)>>;

type Proposals = JoinMap<(u64, u32), Spots>;

fn spots(alloc: Global, values: &[(u8, (u64, u64))]) -> Result<Spots, Fail> {
    let mut spots = JoinMap::new(alloc);
    for (key, spot) in values {
        spots.put(*key, Min(*spot))?;
    }
    Ok(spots)
}

fn proposals(alloc: Global, attempt: u32, values: &[(u8, (u64, u64))]) -> Result<Proposals, Fail> {
    let mut proposals = JoinMap::new(alloc);
    let spots = spots(alloc, values)?;
    proposals.put((7, attempt), spots)?;
    Ok(proposals)
}

// Proposals by task and attempt, then by coordinator: the least spot counts.
#[test]
fn the_laws_hold_of_nested_maps(rt: HostRuntime) -> Result<(), Fail> {
    let a = proposals(rt.alloc(), 1, &[(1, (4, 2))])?;
    let b = proposals(rt.alloc(), 1, &[(1, (4, 1)), (2, (9, 9))])?;
    let c = proposals(rt.alloc(), 2, &[(1, (4, 1)), (2, (9, 9))])?;
    assert!(rt; obey_laws(&a, &b, &c)?);
    Ok(())
}

// What is known of a machine in an incarnation: its state and a report.
type Machine = Lex<u64, Both<Opt<Max<u64>>, Opt<Max<(u64, u32)>>>>;

type Machines = JoinMap<u64, Machine>;

fn machine(incarnation: u64, state: Option<u64>, report: Option<(u64, u32)>) -> Machine {
    let state = state.map(|state| Max(state));
    let report = report.map(|report| Max(report));
    Lex(incarnation, Both(Opt(state), Opt(report)))
}

fn machines(alloc: Global, machine: Machine) -> Result<Machines, Fail> {
    let mut machines = JoinMap::new(alloc);
    machines.put(5, machine)?;
    Ok(machines)
}

// Whether the two are joined to this one machine.
fn join_to(one: &Machines, other: &Machines, machine: Machine) -> Result<bool, Fail> {
    Ok(one.joined(other)?.get(&5) == Some(&machine))
}

// Machines by incarnation: a state and a report of the greatest incarnation.
#[test]
fn the_laws_hold_of_lexicographic_values(rt: HostRuntime) -> Result<(), Fail> {
    let a = machines(rt.alloc(), machine(1, Some(8), None))?;
    let b = machines(rt.alloc(), machine(1, None, Some((3, 950))))?;
    let c = machines(rt.alloc(), machine(2, None, Some((1, 0))))?;
    assert!(rt; obey_laws(&a, &b, &c)?);
    assert!(rt; join_to(&a, &b, machine(1, Some(8), Some((3, 950))))?);
    assert!(rt; join_to(&a, &c, machine(2, None, Some((1, 0))))?);
    Ok(())
}

type Counts = JoinMap<u32, Max<u8>>;

// What is shared or copied stays unchanged, in each of several blocks.
#[test]
fn what_is_shared_stays_as_it_was(rt: HostRuntime) -> Result<(), Fail> {
    let mut map: Counts = JoinMap::new(rt.alloc());
    for key in 0..400u32 {
        map.put(key, Max(1))?;
    }
    let kept = map.share()?;
    let copy = kept.copy()?;
    map.put(7, Max(9))?;
    map.put(500, Max(2))?;
    let mut more: Counts = JoinMap::new(rt.alloc());
    more.put(300, Max(8))?;
    map.join_into(&more)?;
    assert!(rt; is_same(&kept, &copy) && kept.leq(&map) && !map.leq(&kept));
    assert_eq!(rt;
        (kept.len(), kept.get(&7), kept.get(&300)),
        (400, Some(&Max(1)), Some(&Max(1)))
    );
    assert_eq!(rt;
        (map.len(), map.get(&7), map.get(&300)),
        (401, Some(&Max(9)), Some(&Max(8)))
    );
    assert_eq!(rt; (kept.get(&500), map.get(&500)), (None, Some(&Max(2))));
    Ok(())
}

// What is written into a value that is owned, and what another owner sees then.
fn written(alloc: Global) -> Result<(u8, u8), OutOfMemory> {
    let mut value = Shared::new(alloc, 1u8)?;
    let kept = value.share()?;
    *value.own()? = 2;
    Ok((*value.get(), *kept.get()))
}

#[test]
fn what_is_owned_is_written_for_its_owner_alone(rt: HostRuntime) {
    assert_eq!(rt; written(rt.alloc()), Ok((2, 1)));
}

// A value of which no memory suffices for a clone.
#[derive(Drop)]
struct Only;

impl Clone for Only {
    fn clone(&self) -> Result<Only, AllocError> {
        Err(AllocError)
    }
}

// Whether the value can be owned alone, with another owner, and alone again.
fn owned(alloc: Global) -> Result<[bool; 3], OutOfMemory> {
    let mut value = Shared::new(alloc, Only)?;
    let alone = value.own().is_ok();
    let other = value.share()?;
    let together = value.own().is_ok();
    drop(other);
    Ok([alone, together, value.own().is_ok()])
}

#[test]
fn what_has_one_owner_is_not_cloned(rt: HostRuntime) {
    assert_eq!(rt; owned(rt.alloc()), Ok([true, false, true]));
}

// A map of each of so many keys.
fn single_keys(alloc: Global, count: u32) -> Result<Vec<Counts>, Fail> {
    let mut maps = Vec::new(alloc);
    for key in 0..count {
        let mut map = JoinMap::new(alloc);
        map.put(key, Max(0))?;
        maps.push(map)?;
    }
    Ok(maps)
}

// Whether it has a key more, or if memory ran out as many as before.
fn joins_or_not(map: &mut Counts, other: &Counts) -> bool {
    let before = map.len();
    match map.join_into(other) {
        Ok(()) => map.len() == before.saturating_add(1),
        Err(_) => map.len() == before,
    }
}

// Memory is ample here. `tests/wrong_bodies` has an allocation among these joins refused, in a tree in which one is
// half done then.
#[test]
fn a_refused_join_of_maps_leaves_no_key(rt: HostRuntime) -> Result<(), Fail> {
    let mut map = JoinMap::new(rt.alloc());
    for other in &single_keys(rt.alloc(), 300)? {
        assert!(rt; joins_or_not(&mut map, other));
    }
    Ok(())
}
