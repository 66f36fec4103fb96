//! Writing complete pieces to an output that may take a part of each.

ghost use Rattle.std.specs.Prelude.{IsOkUnless};
ghost use Rattle.fm_dimacs.specs.Sending.{IsSent};

use crate::out::Out;
use fm_records::refusal::Refusal;

/// Puts the complete piece, in as many puts as the writer needs. Refused by the writer, which then has failed, in
/// this call unless it had before; then a prefix of the piece is written.
pub fn put_all<W: Out>(out: &mut W, piece: &[u8]) -> Result<(), Refusal>
    ensures sent { IsSent result (W.written out.old) (W.written out.new) (W.has_failed out.old)
        (W.has_failed out.new) piece.now }
    ensures cause { IsOkUnless result Refusal.WriteFault }
{
    let mut rest = piece;
    while !rest.is_empty() {
        let taken = out.put(rest);
        if taken == 0 {
            return Err(Refusal::WriteFault);
        }
        rest = &rest[taken..];
    }
    Ok(())
}
