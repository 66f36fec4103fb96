//! The fields of operations and their ranges, as text.

ghost use Rattle.std.specs.Prelude.{◌≡◌};
ghost use Rattle.fm_query.specs.FieldRanges.{range_text as text_of_range};

use fm_records::ops::Field;

/// The name of the field, and the range that `Op::check` allows it. O(1).
pub fn range_text(field: Field) -> &'static str
    ensures { result.now ≡ text_of_range field }
{
    match field {
        Field::Writer => "writer must be from 1 to 64",
        Field::Wait => "wait must be from 0 to 1000000000",
        Field::Preempt => "preempt must be from 0 to 1000000000",
        Field::Request => "request must be from 0 to 1000000",
        Field::Prefer => {
            "prefer must list machines by rising id, with credits from 0 to 1000000000"
        }
        Field::Slots => "slots must be from 1 to 1000",
        Field::Nic => "nic must be from 0 to 1000000",
        Field::Used => "used must be from 0 to 1000000000",
        Field::Coordinator => "coordinator must be from 1 to 64",
    }
}
