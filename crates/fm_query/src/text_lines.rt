//! Lines of text, for each item of a list and for each entry of a map.
//!
//! A text is defined by the line of one item. What holds of the lines of a list or a map is proved here, once for all
//! texts.

ghost use Rattle.std.specs.Prelude.{◌≡◌, ◌++◌, ℕ, List, OnOk, IsOkUnless, string_bytes};
ghost use Rattle.std.specs.List.{flat_map};
ghost use Rattle.fm_query.specs.TextLines.{text_of_lines};

use fm_lattice::chain::Chain;
use fm_lattice::join::Join;
use fm_lattice::map::JoinMap;
use fm_records::refusal::Refusal;
use std::alloc::Global;

/// What a line of text can say.
pub(crate) trait LineText {
    /// The text of its line, without the line feed.
    ghost line_text: { Self → List ℕ };

    /// Appends that text.
    fn write_text(&self, alloc: Global, lines: &mut String) -> Result<(), Refusal>
        ensures ok { OnOk result (string_bytes lines.new ≡ string_bytes lines.old ++ line_text self.now) }
        ensures err { IsOkUnless result Refusal.OutOfMemory };
}

/// Appends a line for each of the items.
pub(crate) fn write_lines<T: LineText>(
    alloc: Global,
    items: &[T],
    lines: &mut String,
) -> Result<(), Refusal>
    ensures ok { OnOk result (string_bytes lines.new ≡ string_bytes lines.old ++ text_of_lines T.line_text items.now) }
    ensures err { IsOkUnless result Refusal.OutOfMemory }
{
    for item in items {
        item.write_text(alloc, lines)?;
        lines.push('\n')?;
    }
    Ok(())
}

/// What lines of text can say of a value and its key in a map.
pub(crate) trait EntryText<K: Chain>: Join {
    /// Those lines.
    ghost entry_text: { K × Self → List ℕ };

    /// Appends them.
    fn write_text(&self, alloc: Global, key: K, lines: &mut String) -> Result<(), Refusal>
        ensures ok { OnOk result (string_bytes lines.new ≡ string_bytes lines.old ++ entry_text (key, self.now)) }
        ensures err { IsOkUnless result Refusal.OutOfMemory };
}

/// Appends the lines of each entry, keys rising.
pub(crate) fn write_map<K: Chain, V: EntryText<K>>(
    alloc: Global,
    map: &JoinMap<K, V>,
    lines: &mut String,
) -> Result<(), Refusal>
    ensures ok { OnOk result (string_bytes lines.new ≡ string_bytes lines.old ++ flat_map V.entry_text map.now) }
    ensures err { IsOkUnless result Refusal.OutOfMemory }
{
    for (key, value) in map.iter() {
        value.write_text(alloc, *key, lines)?;
    }
    Ok(())
}
