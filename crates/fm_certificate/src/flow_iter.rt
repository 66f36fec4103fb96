//! The walk over a flow's units.

ghost use Rattle.std.specs.Prelude.{◌≡◌};
ghost use Rattle.std.specs.Iterator.{YieldsFirst, YieldsFirstBy, item_count};
ghost use Rattle.fm_certificate.specs.Totals.{walk_entry};

use fm_net::node::Node;
use std::marker::Model;

/// The units that are left of a walk, as (from, to, units), by (from, to).
#[derive(Drop)]
pub struct FlowIter<'a> {
    rest: &'a [((Node, Node), u64)],
}

impl<'a> Model for FlowIter<'a> {
    ghost use Rattle.std.specs.Prelude.{List};
    ghost use Rattle.fm_certificate.specs.Totals.{Entry};

    ghost Value = { List Entry };

    ghost view = { λ s. s.rest.now };
}

impl<'a> FlowIter<'a> {
    pub(crate) fn of(units: &'a [((Node, Node), u64)]) -> Self
        ensures { result ≡ units.now }
    {
        FlowIter { rest: units }
    }
}

impl<'a> Iterator for FlowIter<'a> {
    type Item = (Node, Node, u64);

    ghost next_gives = { YieldsFirstBy walk_entry (λ s. s) };

    ghost remaining = { item_count (λ s. s) };

    fn next(&mut self) -> Option<(Node, Node, u64)> {
        let (&((from, to), units), rest) = self.rest.split_first()?;
        self.rest = rest;
        Some((from, to, units))
    }
}
