//! Reading a script from JSON, with the number of the first step that is strange.
//!
//! The value that the JSON reader returns is turned into steps as data (`script`), member by member. Each step of the
//! value is dropped once it is read, so that a long script is not in memory twice.

ghost use Rattle.std.specs.Prelude.{◌≡◌, ◌⊎◌, ℕ, ◌+◌, List, [], ◌∷◌, Some, None, ◌++◌, IfOk, IfErr, IsSome, OnOk, map, option_map, IsUtf8};
ghost use Rattle.serde_json.specs.Data.{Data};
ghost use Rattle.serde_json.specs.Read.{read as read_text};
ghost use Rattle.serde_json.specs.View.{view};
ghost use Rattle.fm_script.specs.Json.{number_at, number_32_at, number_8_at, flag_at, text_at, id_at, has_size, items_at};
ghost use Rattle.std.specs.List.{flat_map};
ghost use Rattle.std.specs.Option.{option_to_list};
ghost use Rattle.fm_coord.specs.Numbers.{AreDistinct};
ghost use Rattle.fm_script.specs.Script.{parse_job, preference_entry, preference_entries, prefer_of, parse_spec, phase_named, parse_progress, first_strange, parse_machine, parse_report, propose_of, op_of, range_of, cut_of, delivery_of, round_of, relief_of, act_of, script_step_of, steps_of, names_in, coordinator_of, listed_of, script_fault, IsScriptOf};

use crate::names::Names;
use crate::parse_share::share_in;
use crate::script::{RoundKind, Script, ScriptAct, ScriptStep};
use fm_coord::entry::Range;
use fm_lattice::join::OutOfMemory;
use fm_records::ids::{CoordId, JobId, MachineId, TaskId};
use fm_records::ops::{Op, Phase};
use fm_records::prefer::Prefer;
use fm_records::refusal::Refusal;
use fm_share::share::Share;
use serde_json::Value;
use std::alloc::Global;
use std::mem;

/// The script that a JSON text spells: an object whose `coordinators` list at least one number, distinct ones from 1 to
/// 64, and whose `steps` list objects of an `at` and one of `tell`, `cut`, `deliver`, `trim`, `round` and `relieve`.
/// `BadScript(0)` if the text is no JSON or no script as a whole, else `BadScript(K)` for the first strange step K,
/// counted from 1. Further members of the script, of an operation and of a cut are ignored, and of equal members the
/// last counts.
pub fn read_script(alloc: Global, text: &[u8]) -> Result<Script, Refusal>
    ensures ok { IfOk result (λ s. (d : Data) × (read_text text.now ≡ Some d)
        × IsScriptOf d s.coordinators.items s.names s.steps.items) }
    ensures err { IfErr result (λ e. (e ≡ Refusal.OutOfMemory)
        ⊎ (((IsUtf8 text.now → read_text text.now ≡ None) × (e ≡ Refusal.BadScript 0))
        ⊎ ((d : Data) × (read_text text.now ≡ Some d) × (option_map Refusal.BadScript (script_fault d) ≡ Some e)))) }
    ensures distinct { IfOk result (λ s. AreDistinct s.coordinators.items) }
{
    match Value::from_slice(alloc, text) {
        Ok(mut value) => script_in(alloc, &mut value),
        Err(error) if error.is_memory() => Err(Refusal::OutOfMemory),
        Err(_) => Err(Refusal::BadScript(0)),
    }
}

// The script that a value spells, whose steps are dropped one by one as they are read.
fn script_in(alloc: Global, value: &mut Value) -> Result<Script, Refusal>
    ensures ok { IfOk result (λ s. IsScriptOf (view value.old) s.coordinators.items s.names s.steps.items) }
    ensures err { IfErr result (λ e. (e ≡ Refusal.OutOfMemory)
        ⊎ (option_map Refusal.BadScript (script_fault (view value.old)) ≡ Some e)) }
    ensures distinct { IfOk result (λ s. AreDistinct s.coordinators.items) }
{
    let Some(listed) = items_in(value, "coordinators") else {
        return Err(Refusal::BadScript(0));
    };
    let Some(coordinators) = coordinators_in(alloc, listed)? else {
        return Err(Refusal::BadScript(0));
    };
    let Some(items) = take_items(alloc, value, "steps") else {
        return Err(Refusal::BadScript(0));
    };
    let mut names = Names::new(alloc);
    let steps = steps_in(alloc, items, &mut names)?;
    Ok(Script {
        coordinators,
        names,
        steps,
    })
}

// The coordinators that the items list.
pub(crate) fn coordinators_in(
    alloc: Global,
    items: &[Value],
) -> Result<Option<Vec<CoordId>>, OutOfMemory>
    ensures { IfOk result (λ listed. option_map (λ v. v.items) listed ≡ listed_of (map view items.now)) }
{
    let mut listed = Vec::new(alloc);
    for item in items {
        let Some(number) = coordinator_in(item) else {
            return Ok(None);
        };
        if listed.contains(&number) {
            return Ok(None);
        }
        listed.push(number)?;
    }
    if listed.is_empty() {
        return Ok(None);
    }
    Ok(Some(listed))
}

// The coordinator that an item names.
pub(crate) fn coordinator_in(item: &Value) -> Option<CoordId>
    ensures { result ≡ coordinator_of (view item.now) }
{
    let number = u8::try_from(item.as_u64()?).ok()?;
    CoordId::new(number)
}

// The steps that the items spell, each one, with the names of the packets that they cut.
fn steps_in(alloc: Global, items: Vec<Value>, names: &mut Names) -> Result<Vec<ScriptStep>, Refusal>
    requires { names.old ≡ [] }
    ensures ok { IfOk result (λ v. steps_of [] (map view items.items) ≡ map Some v.items) }
    ensures names { OnOk result (names.new ≡ flat_map names_in (map view items.items)) }
    ensures err { IfErr result (λ e. (e ≡ Refusal.OutOfMemory)
        ⊎ (option_map Refusal.BadScript (first_strange [] 1 (map view items.items)) ≡ Some e)) }
{
    let mut steps = Vec::with_capacity(alloc, items.len())?;
    for item in items {
        let step = step_in(&item, names).ok_or(Refusal::BadScript(steps.len() + 1))?;
        keep_name(&item, names)?;
        steps.extend_from_slice(&[step])?;
    }
    Ok(steps)
}

// Keeps the name that a step gives a packet, if it cuts one.
pub(crate) fn keep_name(item: &Value, names: &mut Names) -> Result<(), OutOfMemory>
    requires { IsSome (script_step_of names.old (view item.now)) }
    ensures { OnOk result (names.new ≡ names.old ++ names_in (view item.now)) }
{
    if let Some(name) = name_in(item) {
        names.add(name)?;
    }
    Ok(())
}

// The step that an object of two members spells, given that packets of the names were cut before.
pub(crate) fn step_in(value: &Value, names: &Names) -> Option<ScriptStep>
    ensures { result ≡ script_step_of names.now (view value.now) }
{
    if !is_object_of(value, 2) {
        return None;
    }
    let at = number_8_in(value, "at")?;
    let act = act_in(value, names)?;
    Some(ScriptStep { at, act })
}

// What happens in a step.
fn act_in(value: &Value, names: &Names) -> Option<ScriptAct>
    ensures { result ≡ act_of names.now (view value.now) }
{
    if let Some(cut) = value.get("cut") {
        cut_in(cut, names)
    } else if let Some(told) = value.get("tell") {
        Some(ScriptAct::Tell(op_in(told)?))
    } else if let Some(packet) = value.get("deliver") {
        delivery_in(packet, names)
    } else if let Some(floor) = value.get("trim") {
        Some(ScriptAct::Trim(floor.as_u64()?))
    } else if let Some(asked) = value.get("round") {
        round_in(asked)
    } else {
        relief_in(value.get("relieve")?)
    }
}

// A cut under a new name.
fn cut_in(cut: &Value, names: &Names) -> Option<ScriptAct>
    ensures { result ≡ cut_of names.now (view cut.now) }
{
    let name = text_in(cut, "name")?;
    let range = range_in(cut)?;
    if names.place(name).is_some() {
        return None;
    }
    Some(ScriptAct::Cut(range))
}

// What a cut's packet comes from.
pub(crate) fn range_in(cut: &Value) -> Option<Range>
    ensures { result ≡ range_of (view cut.now) }
{
    match (cut.get("from"), cut.get("to")) {
        (None, None) => Some(Range::Full),
        (Some(from), Some(to)) => Some(Range::Interval(from.as_u64()?, to.as_u64()?)),
        (None, Some(_)) | (Some(_), None) => None,
    }
}

// A delivery by a packet's name.
pub(crate) fn delivery_in(packet: &Value, names: &Names) -> Option<ScriptAct>
    ensures { result ≡ delivery_of names.now (view packet.now) }
{
    let name = packet.as_str()?;
    let place = names.place(name).unwrap_or(names.len());
    Some(ScriptAct::Deliver(place))
}

// A round of the whole plan is asked for by true, and of a share by an object.
pub(crate) fn round_in(asked: &Value) -> Option<ScriptAct>
    ensures { result ≡ round_of (view asked.now) }
{
    match asked.as_bool() {
        Some(true) => Some(ScriptAct::Round(RoundKind::Share(Share::whole()))),
        Some(false) => None,
        None => Some(ScriptAct::Round(RoundKind::Share(share_in(asked)?))),
    }
}

// A round of the relief is asked for by true.
pub(crate) fn relief_in(asked: &Value) -> Option<ScriptAct>
    ensures { result ≡ relief_of (view asked.now) }
{
    if asked.as_bool()? {
        Some(ScriptAct::Round(RoundKind::Relief))
    } else {
        None
    }
}

// The name that a step gives a packet, if it cuts one.
fn name_in(value: &Value) -> Option<&str>
    ensures { option_to_list (option_map (λ s. s.now) result) ≡ names_in (view value.now) }
{
    text_in(value.get("cut")?, "name")
}

// The operation that an object of one member spells.
fn op_in(value: &Value) -> Option<Op>
    ensures { result ≡ op_of (view value.now) }
{
    if !is_object_of(value, 1) {
        return None;
    }
    if let Some(fields) = value.get("job") {
        job_in(fields)
    } else if let Some(fields) = value.get("spec") {
        spec_in(fields)
    } else if let Some(fields) = value.get("progress") {
        progress_in(fields)
    } else if let Some(fields) = value.get("machine") {
        machine_in(fields)
    } else if let Some(fields) = value.get("report") {
        report_in(fields)
    } else {
        propose_in(value.get("propose")?)
    }
}

// The operations by their fields.
fn job_in(fields: &Value) -> Option<Op>
    ensures { result ≡ parse_job (view fields.now) }
{
    Some(Op::Job {
        id: JobId::read(text_in(fields, "id")?)?,
        version: number_in(fields, "version")?,
        writer: number_8_in(fields, "writer")?,
        withdrawn: flag_in(fields, "withdrawn")?,
        wait: number_32_in(fields, "wait")?,
        preempt: number_32_in(fields, "preempt")?,
    })
}

fn spec_in(fields: &Value) -> Option<Op>
    ensures { result ≡ parse_spec (view fields.now) }
{
    Some(Op::Spec {
        id: TaskId::read(text_in(fields, "id")?)?,
        version: number_in(fields, "version")?,
        writer: number_8_in(fields, "writer")?,
        withdrawn: flag_in(fields, "withdrawn")?,
        job: JobId::read(text_in(fields, "job")?)?,
        request: number_32_in(fields, "request")?,
        prefer: prefer_in(fields)?,
    })
}

// The machines that a spec prefers: none if it has no such member.
pub(crate) fn prefer_in(fields: &Value) -> Option<Prefer>
    ensures { result ≡ prefer_of (view fields.now) }
{
    if fields.get("prefer").is_none() {
        return Some(Prefer::default());
    }
    entries_in(items_in(fields, "prefer")?)
}

// The machines with their credits that the items spell: four at most.
fn entries_in(items: &[Value]) -> Option<Prefer>
    ensures { result ≡ preference_entries (map view items.now) }
{
    match items {
        [] => Some(Prefer::default()),
        [a] => Prefer::new(&[entry_in(a)?]),
        [a, b] => Prefer::new(&[entry_in(a)?, entry_in(b)?]),
        [a, b, c] => Prefer::new(&[entry_in(a)?, entry_in(b)?, entry_in(c)?]),
        [a, b, c, d] => Prefer::new(&[entry_in(a)?, entry_in(b)?, entry_in(c)?, entry_in(d)?]),
        _ => None,
    }
}

// A machine with its credit.
fn entry_in(fields: &Value) -> Option<(MachineId, u32)>
    ensures { result ≡ preference_entry (view fields.now) }
{
    let machine = MachineId::read(text_in(fields, "machine")?)?;
    Some((machine, number_32_in(fields, "credit")?))
}

fn progress_in(fields: &Value) -> Option<Op>
    ensures { result ≡ parse_progress (view fields.now) }
{
    Some(Op::Progress {
        id: TaskId::read(text_in(fields, "id")?)?,
        attempt: number_32_in(fields, "attempt")?,
        phase: phase_in(text_in(fields, "phase")?)?,
    })
}

fn machine_in(fields: &Value) -> Option<Op>
    ensures { result ≡ parse_machine (view fields.now) }
{
    Some(Op::Machine {
        id: MachineId::read(text_in(fields, "id")?)?,
        incarnation: number_in(fields, "incarnation")?,
        version: number_in(fields, "version")?,
        writer: number_8_in(fields, "writer")?,
        up: flag_in(fields, "up")?,
        slots: number_32_in(fields, "slots")?,
        nic: number_32_in(fields, "nic")?,
    })
}

fn report_in(fields: &Value) -> Option<Op>
    ensures { result ≡ parse_report (view fields.now) }
{
    Some(Op::Report {
        id: MachineId::read(text_in(fields, "id")?)?,
        incarnation: number_in(fields, "incarnation")?,
        number: number_in(fields, "number")?,
        used: number_32_in(fields, "used")?,
    })
}

fn propose_in(fields: &Value) -> Option<Op>
    ensures { result ≡ propose_of (view fields.now) }
{
    Some(Op::Propose {
        id: TaskId::read(text_in(fields, "id")?)?,
        attempt: number_32_in(fields, "attempt")?,
        coordinator: number_8_in(fields, "coordinator")?,
        machine: MachineId::read(text_in(fields, "machine")?)?,
        incarnation: number_in(fields, "incarnation")?,
    })
}

// A phase by its name.
pub(crate) fn phase_in(name: &str) -> Option<Phase>
    ensures { result ≡ phase_named name.now }
{
    if name == "pending" {
        Some(Phase::Pending)
    } else if name == "running" {
        Some(Phase::Running)
    } else if name == "done" {
        Some(Phase::Done)
    } else {
        None
    }
}

// Whether the value is an object of that many members.
pub(crate) fn is_object_of(value: &Value, members: usize) -> bool
    ensures { result ≡ has_size members (view value.now) }
{
    match value.as_object() {
        Some(object) => object.len() == members,
        None => false,
    }
}

// The members of an object, each at the type that it is to have.
pub(crate) fn number_in(fields: &Value, name: &str) -> Option<u64>
    ensures { result ≡ number_at name.now (view fields.now) }
{
    fields.get(name)?.as_u64()
}

pub(crate) fn number_32_in(fields: &Value, name: &str) -> Option<u32>
    ensures { result ≡ number_32_at name.now (view fields.now) }
{
    u32::try_from(number_in(fields, name)?).ok()
}

pub(crate) fn number_8_in(fields: &Value, name: &str) -> Option<u8>
    ensures { result ≡ number_8_at name.now (view fields.now) }
{
    u8::try_from(number_in(fields, name)?).ok()
}

pub(crate) fn flag_in(fields: &Value, name: &str) -> Option<bool>
    ensures { result ≡ flag_at name.now (view fields.now) }
{
    fields.get(name)?.as_bool()
}

pub(crate) fn text_in<'a>(fields: &'a Value, name: &str) -> Option<&'a str>
    ensures { option_map (λ s. s.now) result ≡ text_at name.now (view fields.now) }
{
    fields.get(name)?.as_str()
}

// The items of the array in the member of the name.
pub(crate) fn items_in<'a>(value: &'a Value, name: &str) -> Option<&'a [Value]>
    ensures { option_map (λ items. map view items.now) result ≡ items_at name.now (view value.now) }
{
    let items = value.get(name)?.as_array()?;
    Some(items.as_slice())
}

// Takes the items of the array in the member of the name, and leaves none there.
pub(crate) fn take_items(alloc: Global, value: &mut Value, name: &str) -> Option<Vec<Value>>
    ensures { option_map (λ v. map view v.items) result ≡ items_at name.now (view value.old) }
{
    let items = value.get_mut(name)?.as_array_mut()?;
    Some(mem::replace(items, Vec::new(alloc)))
}
