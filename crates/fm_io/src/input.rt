//! A complete input, up to a bound, so that an endless source is refused before it takes all memory.

ghost use Rattle.std.specs.Prelude.{◌≡◌, ◌≤◌, IfOk, IfErr, IfSome, OnOk, vec_len};
ghost use Rattle.fm_io.specs.Sources.{IsUnread};

use crate::source::Source;
use fm_records::refusal::Refusal;
use std::alloc::Global;

/// The most bytes that an input may have.
pub const MOST_BYTES: usize = 16_777_216;

/// All bytes of the source, up to its end. `BadScript(0)` if the source fails or gives more than `MOST_BYTES` bytes,
/// else refused only if memory runs out; then some of its bytes may be consumed. O(n).
pub fn read_input<S: Source>(alloc: Global, source: &mut S) -> Result<Vec<u8>, Refusal>
    ensures whole { IfOk result (λ bytes. IfSome (S.remaining source.old) (λ all. bytes.items ≡ all)) }
    ensures size { IfOk result (λ bytes. vec_len bytes ≤ MOST_BYTES) }
    ensures ok_fails_not { OnOk result (S.has_failed source.new ≡ S.has_failed source.old) }
    ensures err { IfErr result (λ refusal. IsUnread refusal (S.remaining source.old) (S.remaining source.new)
        (S.has_failed source.new)) }
{
    let mut bytes = Vec::new(alloc);
    let mut piece = [0u8; 65_536];
    'pieces: loop {
        let Some(count) = source.get(&mut piece) else {
            return Err(Refusal::BadScript(0));
        };
        if count == 0 {
            return Ok(bytes);
        }
        if count > MOST_BYTES - bytes.len() {
            return Err(Refusal::BadScript(0));
        }
        bytes.extend_from_slice(&piece[..count])?;
    }
}
