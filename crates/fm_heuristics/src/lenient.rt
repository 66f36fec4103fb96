//! Reads and writes that pass over places beyond the end.
//!
//! A wrong place then costs a better flow, which is found afterwards, and is never out of bounds.

/// Writes the value at a place; beyond the end, nothing.
pub(crate) fn put<T: Copy + Drop>(values: &mut [T], place: usize, value: T) {
    if let Some(there) = values.get_mut(place) {
        *there = value;
    }
}

/// The values from the first place to before the end; none if there are no such places.
pub(crate) fn part<T>(values: &[T], first: usize, end: usize) -> &[T] {
    values.get(first..end).unwrap_or(&[])
}
