//! The winners of attempts, met in one walk: a merge join of the tasks and the proposals.
//!
//! A look-up of the winner for each task would be O(n log n). Tasks and proposals are in the same order, so one walk
//! along both passes each proposal once.

ghost use Rattle.std.specs.Prelude.{◌≡◌, ℕ, option_map};
ghost use Rattle.std.specs.declared.cmp.Ordering.TheVariants.{Less};
ghost use Rattle.fm_lattice.specs.Maps.{lookup};
ghost use Rattle.fm_records.specs.Orders.{attempt_cmp};
ghost use Rattle.fm_records.specs.Facts.{head_option};
ghost use Rattle.fm_tally.specs.WinnerScan.{winner_spot};

use fm_know::knowledge::Knowledge;
use fm_lattice::constructors::Min;
use fm_lattice::map::{JoinMap, Pairs};
use fm_records::ids::{CoordId, TaskId};
use fm_records::records::Spot;
use std::cmp::Ordering;
use std::marker::Model;

/// The entries for attempts that are still ahead, by task and attempt.
#[derive(Drop)]
pub struct Winners<'a> {
    // The first of them, if one is left.
    first: Option<(&'a (TaskId, u32), &'a JoinMap<CoordId, Min<Spot>>)>,
    later: Pairs<'a, (TaskId, u32), JoinMap<CoordId, Min<Spot>>>,
}

impl<'a> Model for Winners<'a> {
    ghost use Rattle.std.specs.Prelude.{◌≡◌, ℕ, List, [], true, is_none, option_map};
    ghost use Rattle.std.specs.List.{cons_option};
    ghost use Rattle.fm_records.specs.declared.records.Spot.{Spot as At};
    ghost use Rattle.fm_records.specs.Orders.{attempt_cmp};
    ghost use Rattle.fm_lattice.specs.Maps.{IsRising};

    ghost Value = { List ((ℕ × ℕ) × List (ℕ × At)) };

    ghost view = { λ w. cons_option (option_map (λ e. (e.0.now, e.1.now)) w.first) w.later };

    ghost invariant = { λ w. IsRising attempt_cmp (cons_option (option_map (λ e. (e.0.now, e.1.now)) w.first) w.later)
        × (is_none w.first ≡ true → w.later ≡ []) };
}

impl<'a> Winners<'a> {
    /// All entries that are known.
    pub fn of(knowledge: &'a Knowledge) -> Winners<'a>
        ensures { result ≡ knowledge.now.proposals }
    {
        let mut later = knowledge.proposals().iter();
        let first = later.next();
        Winners { first, later }
    }

    /// The spot of the entry that wins the attempt, if it is still ahead. All entries before that attempt are left behind, so ask for
    /// one after the other. O(1) for each entry that is left behind.
    pub fn spot(&mut self, task: TaskId, attempt: u32) -> Option<Spot>
        ensures spot { result ≡ winner_spot self.old (task, attempt) }
        ensures later { (t a : ℕ) → attempt_cmp (task, attempt) (t, a) ≡ Less
            → lookup attempt_cmp (t, a) self.new ≡ lookup attempt_cmp (t, a) self.old }
    {
        'entries: while let Some((at, entries)) = self.first {
            match at.cmp(&(task, attempt)) {
                Ordering::Less => self.first = self.later.next(),
                Ordering::Equal => return first_spot(entries),
                Ordering::Greater => return None,
            }
        }
        None
    }
}

// The spot of the least coordinator that has an entry.
fn first_spot(entries: &JoinMap<CoordId, Min<Spot>>) -> Option<Spot>
    ensures { result ≡ option_map (λ w. w.1) (head_option entries.now) }
{
    let (_, spot) = entries.iter().next()?;
    Some(spot.0)
}
