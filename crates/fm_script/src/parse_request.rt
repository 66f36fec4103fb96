//! Reading a line of a stream from JSON, as a request that has all that the line may ask for.
//!
//! A line comes from outside, so its form is checked here and nowhere else: which members there are, their types, and
//! names. Ranges of operations and digits of packets are checked by what they are for.

ghost use Rattle.std.specs.Prelude.{◌≡◌, ◌⊎◌, IfOk, IfErr, option_map};
ghost use Rattle.serde_json.specs.Find.{as_str};
ghost use Rattle.serde_json.specs.View.{view};
ghost use Rattle.fm_script.specs.Json.{bind};
ghost use Rattle.fm_script.specs.Script.{coordinators_of, script_step_of};
ghost use Rattle.fm_script.specs.Requests.{Asks, Does, Opens, Takes, request_model, question_named, listing_named, job_or_task_in, machine_in, question_of_one, question_of_two, cut_under, cut_asked, when_true, general_asked, alone_of, asked_at, question_asked, own_news_asked, asked_by_three, request_from, line_checked, AsksNothing, RequestsNothing};
ghost use Rattle.fm_script.specs.StreamLines.{IsAskedBy, IsCheckedLine, IsStreamLine, IsPlainLine};
ghost use Rattle.fm_script.specs.inner.LineValues.{IsLineOf};

use crate::names::Names;
use crate::parse_script::{
    coordinators_in, is_object_of, items_in, number_8_in, number_in, range_in, step_in, text_in,
};
use crate::request::{CheckedLine, CheckedRequest, Request, StreamLine};
use fm_coord::entry::Range;
use fm_lattice::join::OutOfMemory;
use fm_question::question::{Listing, Question, Subject};
use fm_records::ids::{JobId, MachineId, TaskId};
use fm_records::refusal::Refusal;
use serde_json::Value;
use std::alloc::Global;

/// What a line of a stream asks for, given that packets of the names were cut before. The line is an object of one
/// member (`coordinators`, `renew`, or an `ask` of `agree` or `version`), or of an `at` and one of `cut`, `news`,
/// `take`, `tell`, `deliver`, `trim`, `round`, `relieve` and `ask`, the last of `graph`, `solve`, `plan`, `winners`,
/// `stops`, `end`, `size`, `over` or `list`. With more members it is an `at` with `news` and `mine`, or with an `ask`: of `why` with a
/// `task`, of `list` with an `of` (`jobs`, `machines`, `tasks` or `waiting`), or of `next` with a `job`, with a
/// `task`, or with a `machine` and its `incarnation`. Or it has an `ask` of `check` and a `line` that is an object, which asks for
/// anything or nothing. Further members of an operation and of a cut are ignored, and of equal members the last counts.
/// `BadScript(0)` if the line is no JSON or asks for nothing known, as a cut under one of the names; `OutOfMemory` if
/// memory runs out. It costs the reading of the line as JSON, and a look-up of a name.
pub fn read_line(alloc: Global, line: &[u8], names: &Names) -> Result<StreamLine, Refusal>
    ensures ok { IfOk result (λ l. IsStreamLine names.now line.now l) }
    ensures err { IfErr result (λ e. RequestsNothing names.now line.now e) }
    ensures plain { IfOk result (λ l. IsPlainLine l) }
{
    match Value::from_slice(alloc, line) {
        Ok(value) => line_in(alloc, &value, names),
        Err(error) if error.is_memory() => Err(Refusal::OutOfMemory),
        Err(_) => Err(Refusal::BadScript(0)),
    }
}

// What the value of a line asks for.
fn line_in(alloc: Global, value: &Value, names: &Names) -> Result<StreamLine, Refusal>
    ensures ok { IfOk result (λ l. IsLineOf names.now (view value.now) l) }
    ensures err { IfErr result (λ e. (e ≡ Refusal.OutOfMemory)
        ⊎ ((e ≡ Refusal.BadScript 0) × AsksNothing names.now (view value.now))) }
    ensures plain { IfOk result (λ l. IsPlainLine l) }
{
    if let Some(line) = line_checked_in(value) {
        let checked = checked_in(alloc, line, names)?;
        return Ok(StreamLine::Check(checked));
    }
    match request_in(alloc, value, names)? {
        Some(request) => Ok(StreamLine::Request(request)),
        None => Err(Refusal::BadScript(0)),
    }
}

// The line that a value asks to check.
fn line_checked_in(value: &Value) -> Option<&Value>
    ensures { option_map (λ v. view v.now) result ≡ line_checked (view value.now) }
{
    if !is_object_of(value, 2) {
        return None;
    }
    if text_in(value, "ask")? != "check" {
        return None;
    }
    let line = value.get("line")?;
    match line.as_object() {
        Some(_) => Some(line),
        None => None,
    }
}

// What the line that is checked asks for.
fn checked_in(alloc: Global, line: &Value, names: &Names) -> Result<CheckedLine, OutOfMemory>
    ensures { IfOk result (λ c. IsCheckedLine names.now (view line.now) c) }
{
    let asked = checked_request_in(alloc, line, names)?;
    Ok(CheckedLine {
        at: number_8_in(line, "at").unwrap_or(0),
        asked,
    })
}

// The same, without its number.
fn checked_request_in(
    alloc: Global,
    line: &Value,
    names: &Names,
) -> Result<CheckedRequest, OutOfMemory>
    ensures { IfOk result (λ asked. IsAskedBy names.now (view line.now) asked) }
{
    if line_checked_in(line).is_some() {
        return Ok(CheckedRequest::Check);
    }
    match request_in(alloc, line, names)? {
        Some(request) => Ok(CheckedRequest::Request(request)),
        None => Ok(CheckedRequest::Nothing),
    }
}

// What a value asks for, given that packets of the names were cut before.
fn request_in(alloc: Global, value: &Value, names: &Names) -> Result<Option<Request>, OutOfMemory>
    ensures { IfOk result (λ q. option_map request_model q ≡ request_from names.now (view value.now)) }
{
    if is_object_of(value, 1) {
        return alone_in(alloc, value);
    }
    if is_object_of(value, 3) {
        return Ok(asked_by_three_in(value));
    }
    if is_object_of(value, 4) {
        return Ok(asked_of_two_in(value));
    }
    if !is_object_of(value, 2) {
        return Ok(None);
    }
    match number_8_in(value, "at") {
        Some(at) => asked_in(alloc, value, names, at),
        None => Ok(None),
    }
}

// What an object of one member asks for.
fn alone_in(alloc: Global, value: &Value) -> Result<Option<Request>, OutOfMemory>
    ensures { IfOk result (λ q. option_map request_model q ≡ alone_of (view value.now)) }
{
    if value.get("coordinators").is_some() {
        opening_in(alloc, value)
    } else if let Some(asked) = value.get("renew") {
        Ok(if_true(asked, Request::Renew))
    } else if let Some(asked) = value.get("ask") {
        Ok(general_in(asked))
    } else {
        Ok(None)
    }
}

// What a coordinator is asked for by an object of two members.
fn asked_in(
    alloc: Global,
    value: &Value,
    names: &Names,
    at: u8,
) -> Result<Option<Request>, OutOfMemory>
    ensures { IfOk result (λ q. option_map request_model q ≡ asked_at names.now at (view value.now)) }
{
    if let Some(cut) = value.get("cut") {
        cut_asked_in(alloc, cut, names, at)
    } else if let Some(asked) = value.get("news") {
        Ok(if_true(asked, Request::News { at }))
    } else if let Some(packet) = value.get("take") {
        packet_in(alloc, packet, at)
    } else if let Some(asked) = value.get("ask") {
        Ok(asked_by_word_in(asked, at))
    } else {
        Ok(deed_in(value, names))
    }
}

// The coordinators with which a stream begins.
fn opening_in(alloc: Global, value: &Value) -> Result<Option<Request>, OutOfMemory>
    ensures { IfOk result (λ q. option_map request_model q ≡ option_map Opens (coordinators_of (view value.now))) }
{
    let Some(items) = items_in(value, "coordinators") else {
        return Ok(None);
    };
    match coordinators_in(alloc, items)? {
        Some(listed) => Ok(Some(Request::Open(listed))),
        None => Ok(None),
    }
}

// The request, if the value is true.
fn if_true(asked: &Value, request: Request) -> Option<Request>
    ensures { option_map request_model result ≡ when_true (request_model request) (view asked.now) }
{
    if asked.as_bool()? {
        Some(request)
    } else {
        None
    }
}

// A question to no coordinator, by its word.
fn general_in(asked: &Value) -> Option<Request>
    ensures { option_map request_model result ≡ general_asked (view asked.now) }
{
    let word = asked.as_str()?;
    if word == "agree" {
        Some(Request::Agree)
    } else if word == "version" {
        Some(Request::Version)
    } else {
        None
    }
}

// A cut of the range, under a new name or under none.
fn cut_asked_in(
    alloc: Global,
    cut: &Value,
    names: &Names,
    at: u8,
) -> Result<Option<Request>, OutOfMemory>
    ensures { IfOk result (λ q. option_map request_model q ≡ cut_asked names.now at (view cut.now)) }
{
    if cut.as_object().is_none() {
        return Ok(None);
    }
    let Some(range) = range_in(cut) else {
        return Ok(None);
    };
    match cut.get("name") {
        Some(name) => cut_under_in(alloc, name, names, at, range),
        None => Ok(Some(Request::Cut {
            at,
            range,
            name: None,
        })),
    }
}

// A cut under the name that a value is, if it is new.
fn cut_under_in(
    alloc: Global,
    name: &Value,
    names: &Names,
    at: u8,
    range: Range,
) -> Result<Option<Request>, OutOfMemory>
    ensures { IfOk result (λ q. option_map request_model q ≡ cut_under names.now at range (view name.now)) }
{
    let Some(name) = name.as_str() else {
        return Ok(None);
    };
    if names.place(name).is_some() {
        return Ok(None);
    }
    let name = Some(String::from_str(alloc, name)?);
    Ok(Some(Request::Cut { at, range, name }))
}

// A packet that is taken in, by its digits.
fn packet_in(alloc: Global, packet: &Value, at: u8) -> Result<Option<Request>, OutOfMemory>
    ensures { IfOk result (λ q. option_map request_model q ≡ option_map (Takes at) (as_str (view packet.now))) }
{
    let Some(digits) = packet.as_str() else {
        return Ok(None);
    };
    let digits = String::from_str(alloc, digits)?;
    Ok(Some(Request::Take { at, digits }))
}

// A question to a coordinator that needs nothing beside its word.
fn asked_by_word_in(asked: &Value, at: u8) -> Option<Request>
    ensures { option_map request_model result ≡ option_map (Asks at) (bind (as_str (view asked.now)) question_named) }
{
    let question = question_in(asked.as_str()?)?;
    Some(Request::Ask { at, question })
}

// What a coordinator is asked for by an object of three members.
fn asked_by_three_in(value: &Value) -> Option<Request>
    ensures { option_map request_model result ≡ asked_by_three (view value.now) }
{
    match value.get("news") {
        Some(news) => own_news_in(news, value),
        None => asked_of_one_in(value),
    }
}

// A question to a coordinator that needs one member beside its word.
fn asked_of_one_in(value: &Value) -> Option<Request>
    ensures { option_map request_model result ≡ question_asked question_of_one (view value.now) }
{
    let at = number_8_in(value, "at")?;
    let question = question_of_one_in(text_in(value, "ask")?, value)?;
    Some(Request::Ask { at, question })
}

// A question to a coordinator that needs two members beside its word.
fn asked_of_two_in(value: &Value) -> Option<Request>
    ensures { option_map request_model result ≡ question_asked question_of_two (view value.now) }
{
    let at = number_8_in(value, "at")?;
    let question = question_of_two_in(text_in(value, "ask")?, value)?;
    Some(Request::Ask { at, question })
}

// A cut of a coordinator's own deltas, by true and true.
fn own_news_in(news: &Value, value: &Value) -> Option<Request>
    ensures { option_map request_model result ≡ own_news_asked (view value.now) (view news.now) }
{
    let at = number_8_in(value, "at")?;
    if news.as_bool()? {
        if_true(value.get("mine")?, Request::OwnNews { at })
    } else {
        None
    }
}

// What is asked by the word alone.
fn question_in(word: &str) -> Option<Question>
    ensures { result ≡ question_named word.now }
{
    if word == "graph" {
        Some(Question::Graph)
    } else if word == "solve" {
        Some(Question::Solve)
    } else if word == "plan" {
        Some(Question::Plan)
    } else if word == "winners" {
        Some(Question::Winners)
    } else if word == "stops" {
        Some(Question::Stops)
    } else if word == "end" {
        Some(Question::End)
    } else if word == "size" {
        Some(Question::Size)
    } else if word == "over" {
        Some(Question::Over)
    } else if word == "list" {
        Some(Question::List(Listing::All))
    } else {
        None
    }
}

// What is asked by the word and one member.
fn question_of_one_in(word: &str, value: &Value) -> Option<Question>
    ensures { result ≡ question_of_one word.now (view value.now) }
{
    if word == "why" {
        let task = TaskId::read(text_in(value, "task")?)?;
        Some(Question::Why(task))
    } else if word == "list" {
        let listing = listing_in(text_in(value, "of")?)?;
        Some(Question::List(listing))
    } else if word == "next" {
        let subject = job_or_task_in(value)?;
        Some(Question::Next(subject))
    } else {
        None
    }
}

// What is asked by the word and two members.
fn question_of_two_in(word: &str, value: &Value) -> Option<Question>
    ensures { result ≡ question_of_two word.now (view value.now) }
{
    if word == "next" {
        let subject = machine_in(value)?;
        Some(Question::Next(subject))
    } else {
        None
    }
}

// The records of a kind, by its name.
fn listing_in(kind: &str) -> Option<Listing>
    ensures { result ≡ listing_named kind.now }
{
    if kind == "jobs" {
        Some(Listing::Jobs)
    } else if kind == "machines" {
        Some(Listing::Machines)
    } else if kind == "tasks" {
        Some(Listing::Tasks)
    } else if kind == "waiting" {
        Some(Listing::Waiting)
    } else {
        None
    }
}

// A job or a task, by its id.
fn job_or_task_in(value: &Value) -> Option<Subject>
    ensures { result ≡ job_or_task_in (view value.now) }
{
    if value.get("job").is_some() {
        let job = JobId::read(text_in(value, "job")?)?;
        Some(Subject::Job(job))
    } else {
        let task = TaskId::read(text_in(value, "task")?)?;
        Some(Subject::Task(task))
    }
}

// A machine at an incarnation.
fn machine_in(value: &Value) -> Option<Subject>
    ensures { result ≡ machine_in (view value.now) }
{
    let machine = MachineId::read(text_in(value, "machine")?)?;
    let incarnation = number_in(value, "incarnation")?;
    Some(Subject::Machine(machine, incarnation))
}

// A step as in a script.
fn deed_in(value: &Value, names: &Names) -> Option<Request>
    ensures { option_map request_model result ≡ option_map Does (script_step_of names.now (view value.now)) }
{
    Some(Request::Do(step_in(value, names)?))
}
