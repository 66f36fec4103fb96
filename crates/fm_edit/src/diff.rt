//! The edits of what was touched, in order: arcs that go, nodes that go, nodes that come, arcs that come or differ.
//!
//! In this order no arc is ever without one of its nodes. Each pair that was touched is compared with the network:
//! O(log n) for each, and a node that was the last to be looked up is not looked up again.

ghost use Rattle.std.specs.Prelude.{◌≡◌, ◌++◌, ◌∷◌, [], not, option_map, IfOk, OnOk};
ghost use Rattle.fm_records.specs.Options.{passes, when};
ghost use Rattle.fm_net.specs.declared.edit.Edit.{Edit as EditName};
ghost use Rattle.fm_net.specs.Edits.{joins, same_value, has_arc};
ghost use Rattle.fm_net.specs.Touched.{put_at};
ghost use Rattle.fm_edit.specs.inner.EditorFacts.{node_by, arc_by, AreKnownBy};
ghost use Rattle.fm_edit.specs.inner.Diff.{arcs_that_go, nodes_that_go, nodes_that_come, arcs_that_come, edits_of};

use crate::affected::Touched;
use crate::editor_state::EditorState;
use crate::shown::Ends;
use fm_lattice::join::OutOfMemory;
use fm_net::edit::Edit;
use fm_net::network::Network;
use fm_net::node::Node;
use std::alloc::Global;
use std::collections::BTreeSet;

impl EditorState {
    /// The edits among the touched nodes and pairs that turn the network into that of the remembered records: arcs that
    /// go, nodes that go, nodes that come, arcs that come or differ. O(log n) for each that was touched.
    pub(crate) fn list(
        &self,
        alloc: Global,
        network: &Network,
        touched: &Touched,
    ) -> Result<Vec<Edit>, OutOfMemory>
        ensures { IfOk result (λ es. es.items
            ≡ edits_of network.now (node_by self.now) (arc_by self.now) touched.now.nodes.keys touched.now.pairs.keys) }
    {
        let mut edits = Vec::new(alloc);
        let mut coming = Vec::new(alloc);
        self.add_arcs(&mut edits, &mut coming, network, &touched.pairs)?;
        let mut entering = Vec::new(alloc);
        self.add_nodes(&mut edits, &mut entering, network, &touched.nodes)?;
        edits.append(&mut entering)?;
        edits.append(&mut coming)?;
        Ok(edits)
    }

    // Adds the edits of the pairs' arcs, to one list if they go, and to the other if they come or differ: one scan,
    // since looking up the ends of an arc is expensive; and a node is looked up once for its consecutive pairs.
    fn add_arcs(
        &self,
        going: &mut Vec<Edit>,
        coming: &mut Vec<Edit>,
        network: &Network,
        pairs: &BTreeSet<(Node, Node)>,
    ) -> Result<(), OutOfMemory>
        ensures going { OnOk result (going.new.items
            ≡ going.old.items ++ arcs_that_go network.now (node_by self.now) (arc_by self.now) pairs.now.keys) }
        ensures coming { OnOk result (coming.new.items
            ≡ coming.old.items ++ arcs_that_come network.now (node_by self.now) (arc_by self.now) pairs.now.keys) }
    {
        let mut last = Ends {
            from: None,
            to: None,
        };
        for pair in pairs.iter() {
            self.add_arc(going, coming, network, &mut last, pair)?;
        }
        Ok(())
    }

    // Adds the edit of the pair's arc, if it has one.
    fn add_arc(
        &self,
        going: &mut Vec<Edit>,
        coming: &mut Vec<Edit>,
        network: &Network,
        last: &mut Ends,
        pair: &(Node, Node),
    ) -> Result<(), OutOfMemory>
        requires { AreKnownBy self.now last.old }
        ensures last { AreKnownBy self.now last.new }
        ensures going { OnOk result (going.new.items
            ≡ going.old.items ++ arcs_that_go network.now (node_by self.now) (arc_by self.now) (pair.now ∷ [])) }
        ensures coming { OnOk result (coming.new.items
            ≡ coming.old.items ++ arcs_that_come network.now (node_by self.now) (arc_by self.now) (pair.now ∷ [])) }
    {
        match self.arc_after(last, pair) {
            None => {
                if let Some(edit) = drop_arc(network, pair) {
                    going.push(edit)?;
                }
            }
            Some(wanted) => {
                if let Some(edit) = put_arc(network, pair, wanted) {
                    coming.push(edit)?;
                }
            }
        }
        Ok(())
    }

    // Adds the edits of the nodes, to one list if they go, and to the other if they come: one scan, as for the arcs.
    fn add_nodes(
        &self,
        going: &mut Vec<Edit>,
        coming: &mut Vec<Edit>,
        network: &Network,
        nodes: &BTreeSet<Node>,
    ) -> Result<(), OutOfMemory>
        ensures going { OnOk result (going.new.items
            ≡ going.old.items ++ nodes_that_go network.now (node_by self.now) (arc_by self.now) nodes.now.keys) }
        ensures coming { OnOk result (coming.new.items
            ≡ coming.old.items ++ nodes_that_come network.now (node_by self.now) (arc_by self.now) nodes.now.keys) }
    {
        for node in nodes.iter() {
            self.add_node(going, coming, network, node)?;
        }
        Ok(())
    }

    // Adds the edit of the node, if it has one.
    fn add_node(
        &self,
        going: &mut Vec<Edit>,
        coming: &mut Vec<Edit>,
        network: &Network,
        node: &Node,
    ) -> Result<(), OutOfMemory>
        ensures going { OnOk result (going.new.items
            ≡ going.old.items ++ nodes_that_go network.now (node_by self.now) (arc_by self.now) (node.now ∷ [])) }
        ensures coming { OnOk result (coming.new.items
            ≡ coming.old.items ++ nodes_that_come network.now (node_by self.now) (arc_by self.now) (node.now ∷ [])) }
    {
        match (network.has(node), self.stands(node)) {
            (true, false) => going.push(Edit::DropNode(*node))?,
            (false, true) => coming.push(Edit::PutNode(*node))?,
            _ => {}
        }
        Ok(())
    }
}

// The edit that drops the pair's arc, if it exists.
fn drop_arc(network: &Network, pair: &(Node, Node)) -> Option<Edit>
    ensures { result ≡ when (joins network.now pair.now) (EditName.DropArc pair.now.0 pair.now.1) }
{
    if network.arc(pair.0, pair.1).is_some() {
        return Some(Edit::DropArc(pair.0, pair.1));
    }
    None
}

// The edit that puts the pair's arc with its new capacity and cost, if it comes or differs.
fn put_arc(network: &Network, pair: &(Node, Node), wanted: (u64, u32)) -> Option<Edit>
    ensures { result ≡ option_map (put_at pair.now) (when (not (has_arc network.now (pair.now, wanted))) wanted) }
{
    let (capacity, cost) = wanted;
    if is_same(network.arc(pair.0, pair.1), capacity, cost) {
        return None;
    }
    Some(Edit::PutArc(pair.0, pair.1, capacity, cost))
}

// Whether the present arc is this one.
fn is_same(stood: Option<(u64, u32)>, capacity: u64, cost: u32) -> bool
    ensures { result ≡ passes (same_value (capacity, cost)) stood }
{
    match stood {
        Some(arc) => capacity == arc.0 && cost == arc.1,
        None => false,
    }
}
