//! The laws of what the program answers.
//!
//! Each function does nothing: its contract is the law.

ghost use Rattle.std.specs.Prelude.{◌≡◌, ◌+◌, ℕ, List, None, Some, false};
ghost use Rattle.fm_records.specs.Options.{passes};
ghost use Rattle.fm_world.specs.Worlds.{WorldOfSets, cause_of};
ghost use Rattle.fm_script.specs.declared.script.ScriptStep.{ScriptStep};
ghost use Rattle.fm_script.specs.declared.script_fault.StepFault.{StepFault};
ghost use Rattle.fm_script.specs.declared.script_fault.ScriptFault.TheVariants as script;
ghost use Rattle.fm_script.specs.ScriptFaults.{first_asking, step_refusal};
ghost use Rattle.fm_service.specs.WorldSteps.{step_at};
ghost use Rattle.fm_serve.specs.CheckedSteps.{ComesTo, is_looked_for};
ghost use Rattle.fm_serve.specs.ScriptSteps.{world_act_of};

/// The step that a check names is refused in every world that the steps before it make, and for the cause that the
/// check names. If a check accepts a script, no step of it is refused for a cause that a check looks for. Of a round it
/// is the view that this speaks of: its commit has no such cause.
pub fn law_check()
    ensures named { (listed : List ℕ) (steps : List ScriptStep) (place : ℕ) (fault : StepFault) (step : ScriptStep)
        (w : WorldOfSets) → first_asking listed 0 1 steps ≡ Some (script.Step (1 + place) fault)
        → ComesTo listed steps place step w
        → cause_of w (step_at step.at (world_act_of step.act)) ≡ Some (step_refusal (1 + place) fault) }
    ensures accepted { (listed : List ℕ) (steps : List ScriptStep) (place : ℕ) (step : ScriptStep) (w : WorldOfSets)
        → first_asking listed 0 1 steps ≡ None → ComesTo listed steps place step w
        → passes is_looked_for (cause_of w (step_at step.at (world_act_of step.act))) ≡ false }
{}
