//! Ids as they are written, without a text of their own in memory.

ghost use Rattle.std.specs.Prelude.{◌≡◌};
ghost use Rattle.uuid.specs.Text.{hyphenated_text, lower};
ghost use Rattle.fm_records.specs.Ids.{id_text};

use uuid::Uuid;
use uuid::fmt::Hyphenated;

/// What writes the id with the number as a UUID in lower case with hyphens. It allocates nothing.
pub(crate) fn hyphenated(number: u128) -> Hyphenated
    ensures { hyphenated_text lower result ≡ id_text number }
{
    Uuid::from_u128(number).hyphenated()
}
