//! The order in which tasks are placed: those without preferences by falling worth, and then those that prefer machines.
//!
//! Any order comes to a least flow, since each unit goes over a cheapest path (Jewell, 1958). Tasks of one request and
//! worth are placed together. Most tasks need no search: they go to the next slot if that costs no more than the label.
//! Tasks that prefer machines come last, those with the fewest choices first, since each of them is one more that later
//! searches may move.

use crate::Tried;
use crate::assignment::Destination;
use crate::board::Board;
use crate::costs::{NONE, cost_at, raise};
use crate::path_search::{End, Paths};
use std::alloc::Global;

// Tasks of one request and worth, which is negated: sorted by these fields.
#[derive(Clone, Copy, PartialEq, Eq, PartialOrd, Ord, Drop)]
struct Class {
    below: i64,
    request: usize,
    count: usize,
}

// A task that prefers machines, with the number of its choices and its worth, negated: sorted by these fields.
#[derive(Clone, Copy, PartialEq, Eq, PartialOrd, Ord, Drop)]
struct Chooser {
    choices: usize,
    below: i64,
    task: usize,
}

/// Places all tasks that are worth it. Answers whether the searches came to their ends.
pub(crate) fn place_all(alloc: Global, paths: &mut Paths) -> Tried<bool> {
    for class in &classes_of(alloc, &paths.board)? {
        place_class(paths, class)?;
    }
    for chooser in &choosers_of(alloc, &paths.board)? {
        place_task(paths, chooser.task)?;
    }
    Ok(paths.may_go_on())
}

// The tasks without preferences, by falling worth.
fn classes_of(alloc: Global, board: &Board) -> Tried<Vec<Class>> {
    let mut classes = Vec::new(alloc);
    for request in 0..board.instance.requests.len() {
        add_classes(&mut classes, board, request)?;
    }
    classes.sort_unstable();
    Ok(classes)
}

// Adds the classes of a request.
fn add_classes(classes: &mut Vec<Class>, board: &Board, request: usize) -> Tried<()> {
    let mut class = Class {
        below: 0,
        request,
        count: 0,
    };
    for worth in board.instance.worths_of(request) {
        let below = worth.saturating_neg();
        if below != class.below && class.count > 0 {
            classes.push(class)?;
            class.count = 0;
        }
        class.below = below;
        class.count = class.count.saturating_add(1);
    }
    if class.count > 0 {
        classes.push(class)?;
    }
    Ok(())
}

// The tasks that prefer machines, those with the fewest choices first, then by falling worth.
fn choosers_of(alloc: Global, board: &Board) -> Tried<Vec<Chooser>> {
    let tasks = &board.instance.preferring;
    let mut choosers = Vec::with_capacity(alloc, tasks.len())?;
    for (task, preferring) in tasks.iter().enumerate() {
        choosers.push(Chooser {
            choices: preferring.end.saturating_sub(preferring.first),
            below: preferring.worth.saturating_neg(),
            task,
        })?;
    }
    choosers.sort_unstable();
    Ok(choosers)
}

// Places the tasks of a class, as long as they are worth it.
fn place_class(paths: &mut Paths, class: &Class) -> Tried<()> {
    let worth = class.below.saturating_neg();
    let mut left = i64::try_from(class.count).unwrap_or(i64::MAX);
    for _ in 0..class.count {
        if left <= 0 || paths.board.request_label(class.request) >= worth {
            break;
        }
        let sent = place_some(paths, class.request, worth, left)?;
        if sent <= 0 {
            break;
        }
        paths.board.place(class.request, sent);
        left = left.saturating_sub(sent);
    }
    Ok(())
}

// Places as many tasks of the request as one path has room for, of so many. Answers how many.
fn place_some(paths: &mut Paths, request: usize, worth: i64, most: i64) -> Tried<i64> {
    let exit = paths.board.exit(request)?;
    let is_alone = paths.board.full.machines.is_empty()
        && cost_at(&paths.board.movable.by_request, request) >= exit.price;
    if exit.price > paths.board.request_label(request) && !is_alone {
        paths.search_for(request, worth)?;
        return send_over(paths, most);
    }
    raise(
        &mut paths.board.request_labels,
        request,
        exit.price.min(worth),
    );
    if exit.price >= worth {
        return Ok(0);
    }
    send_to(&mut paths.board, request, exit.machine, most)
}

// Sends as many units as the path that was found has room for, of so many. Answers how many: none if there is no such path.
fn send_over(paths: &mut Paths, most: i64) -> Tried<i64> {
    if paths.end == End::Stay || !paths.may_go_on() {
        return Ok(0);
    }
    paths.send(most)
}

// Sends as many tasks of a request to a machine as it has room for, of so many. Answers how many.
fn send_to(board: &mut Board, request: usize, machine: usize, most: i64) -> Tried<i64> {
    let free = board.slots_of(machine).free.max(1);
    let count = most.min(free).min(board.room(request, machine));
    board.add_units(request, machine, count)?;
    board.take(machine, count)?;
    Ok(count)
}

// Places a task that prefers machines, if it is worth it.
fn place_task(paths: &mut Paths, task: usize) -> Tried<()> {
    let preferring = paths.board.instance.task(task);
    let least = paths.board.elsewhere(task);
    if least >= preferring.worth || !paths.may_go_on() {
        return Ok(());
    }
    let machine = slot_at(&paths.board, task, least);
    if machine != NONE {
        paths.board.move_task(task, Destination::Straight(machine))?;
        return paths.board.take(machine, 1);
    }
    if paths.board.request_label(preferring.request) == least {
        let exit = paths.board.exit(preferring.request)?;
        if exit.price == least {
            paths.board.move_task(task, Destination::ByRequest)?;
            paths.board.add_units(preferring.request, exit.machine, 1)?;
            return paths.board.take(exit.machine, 1);
        }
    }
    paths.search_for_task(task, preferring.worth)?;
    if paths.end != End::Stay && paths.may_go_on() {
        paths.send(1)?;
    }
    Ok(())
}

// The machine of its choice whose next slot costs the task no more than that.
fn slot_at(board: &Board, task: usize, least: i64) -> usize {
    for choice in board.instance.choices_of(&board.instance.task(task)) {
        if board.price(choice.machine).saturating_sub(choice.gain) == least {
            return choice.machine;
        }
    }
    NONE
}
