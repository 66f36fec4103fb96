//! The laws of the first fault of a script: when there is one, and what a run refuses there.
//!
//! Each function does nothing: its contract is the law.

ghost use Rattle.std.specs.Prelude.{◌≡◌, ◌↔◌, ℕ, List, None, is_none, is_some, option_map};
ghost use Rattle.serde_json.specs.Data.{Data};
ghost use Rattle.fm_records.specs.declared.refusal.Refusal.TheVariants as refusal;
ghost use Rattle.fm_script.specs.declared.script.ScriptStep.{ScriptStep};
ghost use Rattle.fm_script.specs.Script.{script_step_of, script_fault, IsScriptOf};
ghost use Rattle.fm_script.specs.ScriptFaults.{step_form, form_fault, value_fault, first_asking, refusal_named, IsScript};

/// A value has a fault of form as a step exactly if it is no step, and as a script exactly if it is no script. The
/// fault of a script is at the step that `read_script` names, where 0 is the script as a whole.
pub fn law_form()
    ensures step { (names : List (List ℕ)) (d : Data)
        → is_none (step_form names d) ≡ is_some (script_step_of names d) }
    ensures script { (d : Data) → form_fault d ≡ None ↔ IsScript d }
    ensures named { (d : Data) → option_map refusal_named (form_fault d) ≡ option_map refusal.BadScript (script_fault d) }
{}

/// The first fault of a value that spells a script is the first of its steps that asks for what it cannot get.
pub fn law_asking()
    ensures { (d : Data) (listed : List ℕ) (names : List (List ℕ)) (steps : List ScriptStep)
        → IsScriptOf d listed names steps → value_fault d ≡ first_asking listed 0 1 steps }
{}
