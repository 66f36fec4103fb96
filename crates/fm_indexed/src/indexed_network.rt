//! A network by numbers, in flat arrays, so that the solver reads an arc and its ends without a search.
//!
//! A network names nodes by 128-bit ids, and a solver visits each arc many times. Here nodes are places in node order,
//! and arcs are in the network's order, so units and potentials go back to names in one walk (`to_named`).

ghost use Rattle.fm_indexed.specs.inner.FormedNetwork.{IsFormed};

use crate::node_ranges::{NodeRanges, places_of};
use crate::numbering::{arcs_of, nodes_of, requests_of};
use fm_cycles::indexed_arcs::IndexedArc;
use fm_lattice::join::OutOfMemory;
use fm_net::network::Network;
use std::alloc::Global;

/// A network by numbers: the places of its nodes, the bandwidth of each request, and its arcs in order.
#[derive(Debug, Drop)]
pub struct IndexedNetwork {
    pub places: NodeRanges,
    pub requests: Vec<u32>,
    pub arcs: Vec<IndexedArc>,
    pub ghost formed: { IsFormed places arcs.items },
}

impl IndexedNetwork {
    ghost use Rattle.std.specs.Prelude.{◌≡◌, IfOk};
    ghost use Rattle.std.specs.List.{filter_map};
    ghost use Rattle.fm_indexed.specs.Numbered.{IsNumbered, bandwidth_in};

    /// The network by numbers. O(arcs), except a search if an end is not behind that of the arc before.
    pub fn of(alloc: Global, network: &Network) -> Result<Self, OutOfMemory>
        ensures numbered { IfOk result (λ n. IsNumbered network.now n.places n.arcs.items) }
        ensures requests { IfOk result (λ n. n.requests.items ≡ filter_map bandwidth_in network.now.nodes) }
    {
        network.known();
        let nodes = nodes_of(alloc, network)?;
        let places = places_of(&nodes);
        let requests = requests_of(alloc, &nodes)?;
        let arcs = arcs_of(alloc, network, &nodes, &places)?;
        Ok(IndexedNetwork {
            places,
            requests,
            arcs,
        })
    }
}
