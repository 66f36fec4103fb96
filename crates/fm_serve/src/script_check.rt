//! The check of a script: its first fault as a line, without running it.

ghost use Rattle.std.specs.Prelude.{◌≡◌, IfOk, IfErr};
ghost use Rattle.fm_args.specs.Invocation as told;
ghost use Rattle.fm_serve.specs.Answers.{Wants, IsCommandRefused};
ghost use Rattle.fm_serve.specs.Endings.{ending_checked};

use crate::check_text::check_text;
use crate::ending::Ending;
use crate::fault::Fault;
use crate::respond::RunResult;
use fm_script::find_fault::find_fault;
use fm_script::script_fault::ScriptFault;
use std::alloc::Global;

/// The line of the first fault of the script that the text is to spell, or the line that there is none. Refused only if
/// memory runs out.
pub(crate) fn checked(alloc: Global, text: &[u8]) -> Result<RunResult, Fault>
    ensures ok { IfOk result (λ a. Wants told.check text.now a.ending a.output.items) }
    ensures err { IfErr result (λ fault. IsCommandRefused told.check text.now fault) }
{
    let found = match find_fault(alloc, text) {
        Ok(found) => found,
        Err(error) => return Err(Fault::from(error)),
    };
    match check_text(alloc, found) {
        Ok(line) => Ok(RunResult {
            ending: ending_checked(found),
            output: line.into_bytes(),
        }),
        Err(refusal) => Err(Fault::from(refusal)),
    }
}

// How a check ends.
fn ending_checked(fault: Option<ScriptFault>) -> Ending
    ensures { result ≡ ending_checked fault }
{
    match fault {
        Some(_) => Ending::AtFault,
        None => Ending::Done,
    }
}
