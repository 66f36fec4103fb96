//! Why a value could not be read from bytes.

ghost use Rattle.std.specs.Prelude.{◌≡◌};
ghost use Rattle.fm_wire.specs.declared.decode_error.DecodeError.TheVariants.{Memory, Fault};

use fm_lattice::join::OutOfMemory;

/// Memory ran out, or the bytes have a fault.
#[derive(Debug, Clone, Copy, PartialEq, Eq, Drop)]
pub(crate) enum DecodeError {
    Memory,
    /// How many bytes there are from the fault to the end.
    Fault(usize),
}

impl From<OutOfMemory> for DecodeError {
    ghost from_gives = { λ _ e. e ≡ Memory };

    fn from(_: OutOfMemory) -> DecodeError {
        DecodeError::Memory
    }
}

impl From<usize> for DecodeError {
    ghost from_gives = { λ left e. e ≡ Fault left };

    fn from(left: usize) -> DecodeError {
        DecodeError::Fault(left)
    }
}
