//! The texts of networks alone: a filter for dumps of other programs.

ghost use Rattle.std.specs.Prelude.{◌≡◌, OnOk, OnErr};
ghost use Rattle.std.specs.Io.KnownBytes.{Appends};
ghost use Rattle.fm_dimacs.specs.Sending.{AppendsPrefix};

use fm_dimacs::dump::dump;
use fm_dimacs::out::Out;
use fm_dimacs::read::read;
use fm_records::refusal::Refusal;
use std::alloc::Global;

/// Passes a dump on, byte for byte, if it is the text of a network. Refused for the first line that breaks a rule,
/// and then nothing is written; by the writer; or if memory runs out.
pub fn pass_on<W: Out>(alloc: Global, text: &[u8], out: &mut W) -> Result<(), Refusal>
    ensures ok { OnOk result (Appends (W.written out.old) (W.written out.new) text.now) }
{
    let network = read(alloc, text)?;
    dump(alloc, &network, out)
}
