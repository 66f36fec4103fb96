//! Tests of what runs in threads: inboxes, locked coordinators, fleets.

mod again;
mod exchange;
mod fleet;
mod held;
mod inbox;
mod waiting;
