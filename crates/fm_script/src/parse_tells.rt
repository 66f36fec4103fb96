//! Reading a script of tells alone from JSON.

ghost use Rattle.std.specs.Prelude.{◌≡◌, ◌⊎◌, [], Some, None, IfOk, IfErr, map, option_map};
ghost use Rattle.serde_json.specs.Data.{Data};
ghost use Rattle.serde_json.specs.View.{view};
ghost use Rattle.fm_coord.specs.Numbers.{AreDistinct};
ghost use Rattle.fm_script.specs.Script.{told_in, tell_of, first_untold, tells_fault, AreTellsOf};
ghost use Rattle.fm_script.specs.Texts.{SpellsTells, SpellsNoTells};

use crate::names::Names;
use crate::parse_script::{coordinators_in, items_in, step_in, take_items};
use crate::script::{ScriptAct, ScriptStep, Tell, Tells};
use fm_records::refusal::Refusal;
use serde_json::Value;
use std::alloc::Global;

/// The script of tells alone that a JSON text spells: a script, as `read_script` reads it, each step of which tells.
/// `BadScript(0)` if the text is no JSON or no script as a whole, else `BadScript(K)` for the first step K, counted
/// from 1, that is strange or does something else.
pub fn read_tells(alloc: Global, text: &[u8]) -> Result<Tells, Refusal>
    ensures ok { IfOk result (λ s. SpellsTells text.now s.coordinators.items s.tells.items) }
    ensures err { IfErr result (λ e. SpellsNoTells text.now e) }
    ensures distinct { IfOk result (λ s. AreDistinct s.coordinators.items) }
{
    match Value::from_slice(alloc, text) {
        Ok(mut value) => tells_in(alloc, &mut value),
        Err(error) if error.is_memory() => Err(Refusal::OutOfMemory),
        Err(_) => Err(Refusal::BadScript(0)),
    }
}

// The script of tells that a value spells.
fn tells_in(alloc: Global, value: &mut Value) -> Result<Tells, Refusal>
    ensures ok { IfOk result (λ s. AreTellsOf (view value.old) s.coordinators.items s.tells.items) }
    ensures err { IfErr result (λ e. (e ≡ Refusal.OutOfMemory)
        ⊎ (option_map Refusal.BadScript (tells_fault (view value.old)) ≡ Some e)) }
    ensures distinct { IfOk result (λ s. AreDistinct s.coordinators.items) }
{
    let Some(listed) = items_in(value, "coordinators") else {
        return Err(Refusal::BadScript(0));
    };
    let Some(coordinators) = coordinators_in(alloc, listed)? else {
        return Err(Refusal::BadScript(0));
    };
    let Some(items) = take_items(alloc, value, "steps") else {
        return Err(Refusal::BadScript(0));
    };
    let tells = all_in(alloc, items)?;
    Ok(Tells {
        coordinators,
        tells,
    })
}

// What the items tell, each one.
fn all_in(alloc: Global, items: Vec<Value>) -> Result<Vec<Tell>, Refusal>
    ensures ok { IfOk result (λ v. map tell_of (map view items.items) ≡ map Some v.items) }
    ensures err { IfErr result (λ e. (e ≡ Refusal.OutOfMemory)
        ⊎ (option_map Refusal.BadScript (first_untold 1 (map view items.items)) ≡ Some e)) }
{
    let names = Names::new(alloc);
    let mut tells = Vec::with_capacity(alloc, items.len())?;
    for item in items {
        let tell = tell_in(&item, &names).ok_or(Refusal::BadScript(tells.len() + 1))?;
        tells.extend_from_slice(&[tell])?;
    }
    Ok(tells)
}

// What an item tells, if it is a step that does. No packet has a name if all steps tell.
fn tell_in(item: &Value, names: &Names) -> Option<Tell>
    requires { names.now ≡ [] }
    ensures { result ≡ tell_of (view item.now) }
{
    match step_in(item, names) {
        Some(step) => told_in(step),
        None => None,
    }
}

// What a step tells, if it does.
fn told_in(step: ScriptStep) -> Option<Tell>
    ensures { result ≡ told_in step }
{
    let ScriptStep { at, act } = step;
    match act {
        ScriptAct::Tell(op) => Some(Tell { at, op }),
        _ => None,
    }
}
