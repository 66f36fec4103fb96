//! What a line would be answered, as text.

ghost use Rattle.std.specs.Prelude.{◌≡◌, ◌++◌, codes, IfOk, OnOk, IsOkUnless, string_bytes};
ghost use Rattle.fm_service.specs.VerdictText.{verdict_text, cause_text};

use fm_query::field_ranges::range_text;
use fm_records::refusal::Refusal;
use std::alloc::Global;

/// `accepted`, or `refused N` and a line with the cause, which names the coordinator if there is none of the number. Refused only if memory
/// runs out. O(1).
pub(crate) fn verdict_text(
    alloc: Global,
    at: u8,
    verdict: Option<Refusal>,
) -> Result<Vec<u8>, Refusal>
    ensures ok { IfOk result (λ text. text.items ≡ verdict_text at verdict) }
    ensures err { IsOkUnless result Refusal.OutOfMemory }
{
    let mut text = String::new(alloc);
    match verdict {
        None => text.push_str("accepted\n")?,
        Some(refusal) => {
            let number = refusal.number();
            write!(text, "refused {number}\n")?;
            write_cause(&mut text, at, refusal)?;
            text.push('\n')?;
        }
    }
    Ok(text.into_bytes())
}

// Appends the cause.
fn write_cause(text: &mut String, at: u8, refusal: Refusal) -> Result<(), Refusal>
    ensures ok { OnOk result (string_bytes text.new ≡ string_bytes text.old ++ cause_text at refusal) }
    ensures err { IsOkUnless result Refusal.OutOfMemory }
{
    match refusal {
        Refusal::BadOp(member) => text.push_str(range_text(member))?,
        Refusal::HistoryFull => text.push_str("the history is full")?,
        Refusal::BadInterval => text.push_str("there are no such deltas")?,
        Refusal::Trimmed(floor) => write!(text, "deltas below {floor} are trimmed")?,
        Refusal::BadPacket(place) => write!(text, "the digits are no packet: see byte {place}")?,
        Refusal::NoCoordinator => write!(text, "no coordinator has the number {at}")?,
        Refusal::NoPacket => text.push_str("no packet has this name")?,
        Refusal::VersionsSpent => {
            text.push_str("the known version is 18446744073709551615, the greatest")?;
        }
        Refusal::AttemptsSpent => {
            text.push_str("the known attempt is 4294967295, the greatest")?;
        }
        Refusal::BadScript(_) => {
            text.push_str("the line is none that can be asked now, by its form or by a member")?;
        }
        _ => text.push_str("it is refused")?,
    }
    Ok(())
}
