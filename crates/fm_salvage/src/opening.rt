//! Opening: the head of a file, whoever's it is, or why there is none.

ghost use Rattle.std.specs.Prelude.{◌≡◌, ◌++◌, ℕ, List, length, IfOk, IfErr};
ghost use Rattle.fm_store.specs.declared.frames.Tail.{Tail as TailValue};
ghost use Rattle.fm_store.specs.Heads.{head_record};
ghost use Rattle.fm_store.specs.Stores.{magic};
ghost use Rattle.fm_salvage.specs.StoreFronts.{HasNoHead};
ghost use Rattle.fm_salvage.specs.inner.FrameReading.{HasHead};
ghost use Rattle.fm_salvage.specs.declared.frame_reading.Pause.TheVariants as pause;

use crate::frame_reading::Pause;
use fm_lattice::join::OutOfMemory;
use fm_records::ids::CoordId;
use fm_store::frames::{Tail, record_at};
use fm_store::head::head_in;
use fm_store::recovery::{behind_magic, is_torn_magic};
use std::alloc::Global;

// Where the record of the head begins: behind `FMSTORE1`.
const HEAD_PLACE: usize = 8;

// The head of a file, and the frames behind it.
#[derive(Drop)]
pub(crate) struct Opened<'a> {
    // How many bytes the record of the head has.
    pub(crate) size: usize,
    pub(crate) numbers: Vec<CoordId>,
    pub(crate) label: &'a [u8],
    pub(crate) frames: &'a [u8],
}

// The head of the bytes, and what is behind it; else how they end, and where.
pub(crate) fn head_of(alloc: Global, bytes: &[u8]) -> Result<Opened<'_>, Pause>
    ensures ok { IfOk result (λ x. HasHead (record { label = x.label.now; numbers = x.numbers.items })
        x.frames.now bytes.now) }
    ensures size { IfOk result (λ x. x.size ≡ length (head_record (record { label = x.label.now; numbers = x.numbers.items }))) }
    ensures err { IfErr result (λ e. (tail : TailValue) (place : ℕ) → e ≡ pause.End tail place
        → HasNoHead tail place bytes.now) }
{
    let Some(frames) = behind_magic(bytes) else {
        return Err(without_magic(bytes));
    };
    match record_at(frames) {
        Ok((record, rest)) => match head_in(alloc, record) {
            Ok(Some((numbers, label))) => Ok(Opened {
                size: record.len(),
                numbers,
                label,
                frames: rest,
            }),
            Ok(None) => Err(Pause::End(Tail::Damaged, HEAD_PLACE)),
            Err(OutOfMemory) => Err(Pause::OutOfMemory),
        },
        Err(Tail::Damaged) => Err(Pause::End(Tail::Damaged, HEAD_PLACE)),
        Err(_) => Err(Pause::End(Tail::Torn, HEAD_PLACE)),
    }
}

// How bytes end that do not begin as a store.
fn without_magic(bytes: &[u8]) -> Pause
    requires { (rest : List ℕ) → bytes.now ≡ magic ++ rest → ⊥ }
    ensures { (tail : TailValue) (place : ℕ) → result ≡ pause.End tail place → HasNoHead tail place bytes.now }
{
    if is_torn_magic(bytes) {
        Pause::End(Tail::Torn, 0)
    } else {
        Pause::End(Tail::Damaged, 0)
    }
}
