//! Values at places, with a default beyond the end, so that no read can fail.

ghost use Rattle.std.specs.Prelude.{◌≡◌, slice_index, slice_index_or};
ghost use Rattle.fm_cycles.specs.Found.{costs_in};

/// The value at a place, and the other one beyond the end.
pub fn value_or<T: Copy + Drop>(values: &[T], place: usize, other: T) -> T
    ensures { result ≡ slice_index_or values.now place other }
{
    values.get(place).copied().unwrap_or(other)
}

/// The cost at a node, 0 beyond the end.
pub(crate) fn cost_at(costs: &[i128], node: usize) -> i128
    ensures { result ≡ costs_in costs.now node }
{
    value_or(costs, node, 0)
}

/// The units on an arc, 0 beyond the end.
pub(crate) fn units_at(units: &[u64], arc: usize) -> u64
    ensures { result ≡ slice_index units.now arc }
{
    value_or(units, arc, 0)
}
