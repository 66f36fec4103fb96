//! Numbers in decimal digits.

ghost use Rattle.std.specs.Prelude.{◌≡◌, ◌++◌, OnOk, decimal, string_bytes};

use fm_lattice::join::OutOfMemory;
use itoa::Buffer;

// Appends the text, and after it the number.
pub(crate) fn push_number(line: &mut String, before: &str, number: u64) -> Result<(), OutOfMemory>
    ensures { OnOk result (string_bytes line.new ≡ string_bytes line.old ++ before.now ++ decimal number) }
{
    let mut buffer = Buffer::new();
    line.push_str(before)?;
    line.push_str(buffer.format(number))?;
    Ok(())
}
