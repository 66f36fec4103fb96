//! The version of the program.

ghost use Rattle.std.specs.Prelude.{◌≡◌, IfOk, IsOkUnless, string_bytes};
ghost use Rattle.fm_query.specs.QueryTexts.{version_text};

use fm_records::refusal::Refusal;
use std::alloc::Global;

/// The version of the program, and the formats of packets that it reads, as a line.
pub const VERSION: &str = "firmament 0.5.0 FDG1 FDG2\n";

/// That line as a text of its own. Refused only if memory runs out.
pub fn version_text(alloc: Global) -> Result<String, Refusal>
    ensures ok { IfOk result (λ text. string_bytes text ≡ version_text) }
    ensures err { IsOkUnless result Refusal.OutOfMemory }
{
    Ok(String::from_str(alloc, VERSION)?)
}
