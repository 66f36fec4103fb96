//! What is printed for a file, and where the file is damaged.

ghost use Rattle.std.specs.Prelude.{◌≡◌};
ghost use Rattle.fm_salvage.specs.StoreFronts.{damage_of};

use fm_store::frames::Tail;

/// The text for a file, and where the file is damaged, if it is.
#[derive(Debug, Drop)]
pub struct Salvaged {
    pub text: Vec<u8>,
    pub damage: Option<usize>,
}

// Where the bytes are damaged that end so at the place, if they are.
pub(crate) fn damage_of(tail: Tail, place: usize) -> Option<usize>
    ensures { result ≡ damage_of tail place }
{
    match tail {
        Tail::Damaged => Some(place),
        Tail::Clean | Tail::Torn => None,
    }
}
