//! Why a task waits or runs, as text.

ghost use Rattle.std.specs.Prelude.{◌≡◌, ◌++◌, ◌-◌, length, take, slice_get, IfOk, OnOk, IsOkUnless, string_bytes};
ghost use Rattle.fm_query.specs.ReasonsText.{answer_line, bound_text, change_text, choice_text, choices_text, reason_cost_line, dearer_text, exact_text, example_head, example_text, goal_text, is_exact, is_first_exact, held_reason_text, at_least_text, listed_text, machines_text, not_live_text, not_live_cause, unknown_text, others_text, remedy_place_text, price_line, price_text, reasons_text, remedy_end, room_line, schedule_text, running_text, theory_line, waiting_text, IsReasonsText};

use crate::text_lines::{LineText, write_lines};
use fm_know::knowledge::Knowledge;
use fm_know::record_facts::is_done;
use fm_net::node::Node;
use fm_records::ids::{MachineId, TaskId};
use fm_records::records::SpecReg;
use fm_records::refusal::Refusal;
use fm_why::reasons::{Alternative, Change, Choice, Choices, Move, Reasons, Remedy, SHOWN};
use fm_why::why::why;
use std::alloc::Global;

// How many moves of an example are listed: so the text has fewer than 20 lines for a cluster of any size.
const MOVES: usize = 5;

/// Where the task is, by what is known, and for a live task that no machine holds, how much dearer each schedule is that
/// runs it on one of the five cheapest machines, at least, or exactly if such a schedule was found; if it waits, also up to
/// two changes of a machine by which it would run. Refused only if memory runs out. It costs what `why` does.
pub fn why_text(alloc: Global, knowledge: &Knowledge, task: TaskId) -> Result<String, Refusal>
    ensures ok { IfOk result (λ text. IsReasonsText knowledge.now task (string_bytes text)) }
    ensures err { IsOkUnless result Refusal.OutOfMemory }
{
    let reasons = why(alloc, knowledge, task)?;
    reasons_text(alloc, knowledge, task, &reasons)
}

// The reasons as text.
fn reasons_text(
    alloc: Global,
    knowledge: &Knowledge,
    task: TaskId,
    reasons: &Reasons,
) -> Result<String, Refusal>
    ensures ok { IfOk result (λ text. string_bytes text ≡ reasons_text knowledge.now task reasons.now) }
    ensures err { IsOkUnless result Refusal.OutOfMemory }
{
    match reasons {
        Reasons::Unknown => unknown_text(alloc, task),
        Reasons::NotLive => not_live_text(alloc, knowledge, task),
        Reasons::Held(machine) => held_text(alloc, task, *machine),
        Reasons::Free(choices) => choices_text(alloc, task, choices),
    }
}

// The text of a task that is not known.
fn unknown_text(alloc: Global, task: TaskId) -> Result<String, Refusal>
    ensures ok { IfOk result (λ text. string_bytes text ≡ unknown_text task) }
    ensures err { IsOkUnless result Refusal.OutOfMemory }
{
    let name = task.text(alloc)?;
    Ok(format!(in alloc; "task {name} is not known\n")?)
}

// The text of a task that is not live.
fn not_live_text(alloc: Global, knowledge: &Knowledge, task: TaskId) -> Result<String, Refusal>
    ensures ok { IfOk result (λ text. string_bytes text ≡ not_live_text knowledge.now task) }
    ensures err { IsOkUnless result Refusal.OutOfMemory }
{
    let name = task.text(alloc)?;
    let cause = not_live_cause(knowledge, task, knowledge.spec(task));
    Ok(format!(in alloc; "task {name} is not live: {cause}\n")?)
}

// Why a task with the spec is not live, if it is not.
fn not_live_cause(knowledge: &Knowledge, task: TaskId, spec: Option<SpecReg>) -> &'static str
    ensures { result.now ≡ not_live_cause knowledge.now task spec }
{
    let Some(spec) = spec else {
        return "its spec is not known";
    };
    if spec.withdrawn {
        "it is withdrawn"
    } else if is_done(knowledge.attempt(task).phase) {
        "it is done"
    } else {
        match knowledge.job(spec.job) {
            None => "its job is not known",
            Some(_) => "its job is withdrawn",
        }
    }
}

// The text of a task that a machine holds.
fn held_text(alloc: Global, task: TaskId, machine: MachineId) -> Result<String, Refusal>
    ensures ok { IfOk result (λ text. string_bytes text ≡ held_reason_text task machine) }
    ensures err { IsOkUnless result Refusal.OutOfMemory }
{
    let name = task.text(alloc)?;
    let holder = machine.text(alloc)?;
    Ok(format!(in alloc; "task {name} is held by machine {holder}\n")?)
}

// What there is to choose for a task, as text.
fn choices_text(alloc: Global, task: TaskId, choices: &Choices) -> Result<String, Refusal>
    ensures ok { IfOk result (λ text. string_bytes text ≡ choices_text task choices.now) }
    ensures err { IsOkUnless result Refusal.OutOfMemory }
{
    let mut lines = String::new(alloc);
    write_answer(alloc, task, choices, &mut lines)?;
    write_schedule(alloc, choices, &mut lines)?;
    write_machines(alloc, choices, &mut lines)?;
    write_others(&choices.machines, &mut lines)?;
    write_room(choices, &mut lines)?;
    write_theory(&mut lines)?;
    Ok(lines)
}

// Appends the schedule that runs the task on the cheapest machine, if one was found, and the cheapest machines.
fn write_machines(alloc: Global, choices: &Choices, lines: &mut String) -> Result<(), Refusal>
    ensures ok { OnOk result (string_bytes lines.new ≡ string_bytes lines.old ++ machines_text choices.now) }
    ensures err { IsOkUnless result Refusal.OutOfMemory }
{
    write_example(alloc, choices, lines)?;
    write_listed(alloc, choices, lines)
}

// Appends a line for each of the cheapest machines.
fn write_listed(alloc: Global, choices: &Choices, lines: &mut String) -> Result<(), Refusal>
    ensures ok { OnOk result (string_bytes lines.new ≡ string_bytes lines.old ++ listed_text choices.now) }
    ensures err { IsOkUnless result Refusal.OutOfMemory }
{
    for (choice, found) in choices.machines.iter().zip(&choices.examples) {
        write_choice(alloc, choices.least, choice, found, lines)?;
        lines.push_str("\n")?;
    }
    Ok(())
}

// Appends a machine, and how much dearer it is there.
fn write_choice(
    alloc: Global,
    least: u128,
    choice: &Choice,
    found: &Option<Alternative>,
    lines: &mut String,
) -> Result<(), Refusal>
    ensures ok { OnOk result (string_bytes lines.new
        ≡ string_bytes lines.old ++ choice_text least (choice.now, found.now)) }
    ensures err { IsOkUnless result Refusal.OutOfMemory }
{
    let machine = choice.machine.text(alloc)?;
    let cost = choice.cost;
    write!(lines, "on machine {machine} it costs {cost}")?;
    write_dearer(least, choice, found, lines)
}

// Appends how much dearer it is on the machine: at least, or just that if such a schedule was found.
fn write_dearer(
    least: u128,
    choice: &Choice,
    found: &Option<Alternative>,
    lines: &mut String,
) -> Result<(), Refusal>
    ensures ok { OnOk result (string_bytes lines.new
        ≡ string_bytes lines.old ++ dearer_text least choice.now found.now) }
    ensures err { IsOkUnless result Refusal.OutOfMemory }
{
    if is_exact(least, choice, found) {
        return write_exact(choice, lines);
    }
    write_at_least(choice, lines)?;
    if let Some(example) = found {
        let beyond = example.cost.saturating_sub(least);
        write!(lines, "; one was found that costs {beyond} more")?;
    }
    Ok(())
}

// Appends that the cheapest schedule with the task on the machine is just so much dearer.
fn write_exact(choice: &Choice, lines: &mut String) -> Result<(), Refusal>
    ensures ok { OnOk result (string_bytes lines.new ≡ string_bytes lines.old ++ exact_text choice.now) }
    ensures err { IsOkUnless result Refusal.OutOfMemory }
{
    let dearer = choice.dearer;
    write!(
        lines,
        ", and the cheapest schedule that runs it there costs exactly {dearer} more"
    )?;
    Ok(())
}

// Appends that each schedule with the task on the machine is so much dearer at least.
fn write_at_least(choice: &Choice, lines: &mut String) -> Result<(), Refusal>
    ensures ok { OnOk result (string_bytes lines.new ≡ string_bytes lines.old ++ at_least_text choice.now) }
    ensures err { IsOkUnless result Refusal.OutOfMemory }
{
    let dearer = choice.dearer;
    write!(
        lines,
        ", and each schedule that runs it there costs at least {dearer} more"
    )?;
    Ok(())
}

// Appends the answer.
fn write_answer(
    alloc: Global,
    task: TaskId,
    choices: &Choices,
    lines: &mut String,
) -> Result<(), Refusal>
    ensures ok { OnOk result (string_bytes lines.new ≡ string_bytes lines.old ++ answer_line task choices.now) }
    ensures err { IsOkUnless result Refusal.OutOfMemory }
{
    let name = task.text(alloc)?;
    write!(lines, "task {name}")?;
    if choices.waits {
        write_waiting(choices, lines)
    } else {
        write_running(choices, lines)
    }
}

// Appends what it would cost if a task that runs waited.
fn write_running(choices: &Choices, lines: &mut String) -> Result<(), Refusal>
    ensures ok { OnOk result (string_bytes lines.new ≡ string_bytes lines.old ++ running_text choices.now) }
    ensures err { IsOkUnless result Refusal.OutOfMemory }
{
    let waiting = choices.waiting;
    write!(
        lines,
        " runs in this schedule: leaving it to wait would cost at least {waiting} more\n"
    )?;
    Ok(())
}

// Appends what it would take to run a task that waits.
fn write_waiting(choices: &Choices, lines: &mut String) -> Result<(), Refusal>
    ensures ok { OnOk result (string_bytes lines.new
        ≡ string_bytes lines.old ++ waiting_text choices.now (slice_get choices.now.machines.items 0)) }
    ensures err { IsOkUnless result Refusal.OutOfMemory }
{
    match choices.machines.first() {
        Some(first) => {
            let wait = choices.wait;
            write!(
                lines,
                " waits, which costs {wait}: running it on the cheapest machine with room would cost "
            )?;
            write_bound(choices, first, lines)?;
        }
        None => {
            let request = choices.request;
            write!(
                lines,
                " waits: no machine has room for its request of {request}\n"
            )?;
        }
    }
    Ok(())
}

// Appends what the schedule costs, until when that is least, and by which changes the task would run.
fn write_schedule(alloc: Global, choices: &Choices, lines: &mut String) -> Result<(), Refusal>
    ensures ok { OnOk result (string_bytes lines.new ≡ string_bytes lines.old ++ schedule_text choices.now) }
    ensures err { IsOkUnless result Refusal.OutOfMemory }
{
    write_cost(choices, lines)?;
    write_price(choices, lines)?;
    write_lines(alloc, choices.remedies.as_slice(), lines)
}

// Whether a schedule was found that runs the task on the machine and costs no more than each must.
fn is_exact(least: u128, choice: &Choice, found: &Option<Alternative>) -> bool
    ensures { result ≡ is_exact least choice.now found.now }
{
    match found {
        Some(example) => example.cost >= least && example.cost - least == choice.dearer,
        None => false,
    }
}

// The same of the cheapest machine, whose example is the first.
fn is_first_exact(choices: &Choices, first: &Choice) -> bool
    ensures { result ≡ is_first_exact choices.now first.now }
{
    match choices.examples.first() {
        Some(found) => is_exact(choices.least, first, found),
        None => false,
    }
}

// Appends how much dearer it is on the cheapest machine.
fn write_bound(choices: &Choices, first: &Choice, lines: &mut String) -> Result<(), Refusal>
    ensures ok { OnOk result (string_bytes lines.new ≡ string_bytes lines.old ++ bound_text choices.now first.now) }
    ensures err { IsOkUnless result Refusal.OutOfMemory }
{
    let dearer = first.dearer;
    if is_first_exact(choices, first) {
        write!(lines, "exactly {dearer} more\n")?;
    } else {
        write!(lines, "at least {dearer} more\n")?;
    }
    Ok(())
}

// Appends what the schedule costs.
fn write_cost(choices: &Choices, lines: &mut String) -> Result<(), Refusal>
    ensures ok { OnOk result (string_bytes lines.new ≡ string_bytes lines.old ++ reason_cost_line choices.now) }
    ensures err { IsOkUnless result Refusal.OutOfMemory }
{
    let least = choices.least;
    write!(lines, "this schedule costs {least}, and none costs less\n")?;
    Ok(())
}

// Appends up to which price of waiting the schedule stays least, if it leaves the task waiting.
fn write_price(choices: &Choices, lines: &mut String) -> Result<(), Refusal>
    ensures ok { OnOk result (string_bytes lines.new ≡ string_bytes lines.old ++ price_line choices.now) }
    ensures err { IsOkUnless result Refusal.OutOfMemory }
{
    if choices.waits {
        write_price_of(choices.price, lines)
    } else {
        Ok(())
    }
}

// Appends the price, if there is one.
fn write_price_of(price: Option<u128>, lines: &mut String) -> Result<(), Refusal>
    ensures ok { OnOk result (string_bytes lines.new ≡ string_bytes lines.old ++ price_text price) }
    ensures err { IsOkUnless result Refusal.OutOfMemory }
{
    if let Some(price) = price {
        write!(
            lines,
            "it stays least while the price of waiting is {price} or less for this task, and as it is for all others\n"
        )?;
    }
    Ok(())
}

// Appends the schedule that runs the task on the cheapest machine, if one was found.
fn write_example(alloc: Global, choices: &Choices, lines: &mut String) -> Result<(), Refusal>
    ensures ok { OnOk result (string_bytes lines.new ≡ string_bytes lines.old
        ++ example_text (slice_get choices.now.machines.items 0) (slice_get choices.now.examples.items 0)) }
    ensures err { IsOkUnless result Refusal.OutOfMemory }
{
    match (choices.machines.first(), choices.examples.first()) {
        (Some(first), Some(Some(example))) => {
            write_example_head(alloc, first, example, lines)?;
            write_lines(alloc, first_moves(&example.moves), lines)
        }
        _ => Ok(()),
    }
}

// Appends what the schedule costs, and how many tasks go elsewhere in it.
fn write_example_head(
    alloc: Global,
    first: &Choice,
    example: &Alternative,
    lines: &mut String,
) -> Result<(), Refusal>
    ensures ok { OnOk result (string_bytes lines.new ≡ string_bytes lines.old ++ example_head first.now example.now) }
    ensures err { IsOkUnless result Refusal.OutOfMemory }
{
    let machine = first.machine.text(alloc)?;
    let moves = example.moves.as_slice().len();
    let cost = example.cost;
    write!(
        lines,
        "a schedule that runs it on machine {machine} costs {cost}; tasks that go elsewhere in it: {moves}\n"
    )?;
    Ok(())
}

// The first moves of the list.
fn first_moves(moves: &[Move]) -> &[Move]
    ensures { result.now ≡ take 5 moves.now }
{
    if moves.len() > MOVES {
        &moves[..MOVES]
    } else {
        moves
    }
}

// Appends how many machines are not listed, if there are any, and how much dearer the cheapest of them is.
fn write_others(machines: &[Choice], lines: &mut String) -> Result<(), Refusal>
    ensures ok { OnOk result (string_bytes lines.new
        ≡ string_bytes lines.old ++ others_text (length machines.now - SHOWN) (slice_get machines.now SHOWN)) }
    ensures err { IsOkUnless result Refusal.OutOfMemory }
{
    if let Some(next) = machines.get(SHOWN) {
        let (more, dearer) = (machines.len() - SHOWN, next.dearer);
        write!(
            lines,
            "on each of {more} other machines with room at least {dearer} more\n"
        )?;
    }
    Ok(())
}

// Appends how many machines have room.
fn write_room(choices: &Choices, lines: &mut String) -> Result<(), Refusal>
    ensures ok { OnOk result (string_bytes lines.new ≡ string_bytes lines.old ++ room_line choices.now) }
    ensures err { IsOkUnless result Refusal.OutOfMemory }
{
    let (request, known) = (choices.request, choices.known);
    let room = choices.machines.as_slice().len();
    write!(
        lines,
        "room for its request of {request} on {room} of {known} machines that are known\n"
    )?;
    Ok(())
}

// Appends the theory.
fn write_theory(lines: &mut String) -> Result<(), Refusal>
    ensures ok { OnOk result (string_bytes lines.new ≡ string_bytes lines.old ++ theory_line) }
    ensures err { IsOkUnless result Refusal.OutOfMemory }
{
    lines.push_str(
        "by potentials that certify the schedule: what is sent over an empty arc costs at least its reduced cost more\n",
    )?;
    Ok(())
}

impl LineText for Move {
    ghost use Rattle.fm_query.specs.ReasonsText.{move_text};

    ghost line_text = { move_text };

    fn write_text(&self, alloc: Global, lines: &mut String) -> Result<(), Refusal> {
        let task = self.task.text(alloc)?;
        write!(lines, "in it task {task}")?;
        write_goal(alloc, self.to, lines)
    }
}

// Appends where a task goes.
fn write_goal(alloc: Global, to: Node, lines: &mut String) -> Result<(), Refusal>
    ensures ok { OnOk result (string_bytes lines.new ≡ string_bytes lines.old ++ goal_text to) }
    ensures err { IsOkUnless result Refusal.OutOfMemory }
{
    match to {
        Node::Unscheduled(_) => lines.push_str(" waits")?,
        Node::Request(request) => write!(lines, " goes over its request of {request}")?,
        Node::Machine(machine) => {
            let name = machine.text(alloc)?;
            write!(lines, " runs on machine {name}")?;
        }
        Node::Sink | Node::Task(_) => {}
    }
    Ok(())
}

impl LineText for Remedy {
    ghost use Rattle.fm_query.specs.ReasonsText.{remedy_text};

    ghost line_text = { remedy_text };

    fn write_text(&self, alloc: Global, lines: &mut String) -> Result<(), Refusal> {
        write_change(self.change, lines)?;
        let machine = self.machine.text(alloc)?;
        write!(lines, " on machine {machine}")?;
        write_place(alloc, self, lines)?;
        write_remedy_end(self, lines)
    }
}

// Appends a change of a machine.
fn write_change(change: Change, lines: &mut String) -> Result<(), Refusal>
    ensures ok { OnOk result (string_bytes lines.new ≡ string_bytes lines.old ++ change_text change) }
    ensures err { IsOkUnless result Refusal.OutOfMemory }
{
    match change {
        Change::Slot => lines.push_str("with 1 more slot")?,
        Change::Bandwidth(by) => write!(lines, "with {by} more bandwidth")?,
    }
    Ok(())
}

// Appends where the task would run.
fn write_place(alloc: Global, remedy: &Remedy, lines: &mut String) -> Result<(), Refusal>
    ensures ok { OnOk result (string_bytes lines.new ≡ string_bytes lines.old ++ remedy_place_text remedy.now) }
    ensures err { IsOkUnless result Refusal.OutOfMemory }
{
    if remedy.place == remedy.machine {
        lines.push_str(" it would run there")?;
    } else {
        let place = remedy.place.text(alloc)?;
        write!(lines, " it would run on machine {place}")?;
    }
    Ok(())
}

// Appends what the schedule costs in which the task runs.
fn write_remedy_end(remedy: &Remedy, lines: &mut String) -> Result<(), Refusal>
    ensures ok { OnOk result (string_bytes lines.new ≡ string_bytes lines.old ++ remedy_end remedy.now) }
    ensures err { IsOkUnless result Refusal.OutOfMemory }
{
    let cost = remedy.cost;
    write!(
        lines,
        ": the schedule then costs {cost}, and none costs less"
    )?;
    Ok(())
}
