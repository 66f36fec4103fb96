//! Costs in rows, by number.

/// No number.
pub(crate) const NONE: usize = usize::MAX;

/// A cost beyond all others.
pub(crate) const FAR: i64 = 1 << 50;

/// The cost of that number.
pub(crate) fn cost_at(costs: &[i64], number: usize) -> i64 {
    costs.get(number).copied().unwrap_or(FAR)
}

/// Raises a cost to another, if that is more.
pub(crate) fn raise(costs: &mut [i64], number: usize, to: i64) {
    if let Some(cost) = costs.get_mut(number) {
        *cost = (*cost).max(to);
    }
}

/// Lowers a cost to another, if that is less.
pub(crate) fn lower(costs: &mut [i64], number: usize, to: i64) {
    if let Some(cost) = costs.get_mut(number) {
        *cost = (*cost).min(to);
    }
}

/// Puts a cost in place of another.
pub(crate) fn put(costs: &mut [i64], number: usize, to: i64) {
    if let Some(cost) = costs.get_mut(number) {
        *cost = to;
    }
}
