//! Making edits one after another, after a change of form if there are many.
//!
//! A network that was built is packed in arrays, where a drop moves all that comes after it, O(n). So more than 8 edits
//! move it into cells first, O(n log n) once, and each of them is then O(log n).

ghost use Rattle.std.specs.Prelude.{◌≡◌, OnOk, OnErr};
ghost use Rattle.fm_net.specs.Edits.{after_edit, after_edits, MayEdit, MayEditAll, IsPartMade};

use crate::edit::Edit;
use crate::network::Network;
use fm_lattice::join::OutOfMemory;

// How many edits are too few to be worth moving all nodes and arcs into cells first.
const FEW: usize = 8;

// Makes one edit.
fn make(network: &mut Network, edit: &Edit) -> Result<(), OutOfMemory>
    requires { MayEdit network.old edit.now }
    ensures ok { OnOk result (network.new ≡ after_edit edit.now network.old) }
    ensures err { OnErr result (network.new ≡ network.old) }
{
    match *edit {
        Edit::DropArc(from, to) => {
            network.drop_arc(from, to);
            Ok(())
        }
        Edit::DropNode(node) => {
            network.drop_node(&node);
            Ok(())
        }
        Edit::PutNode(node) => {
            network.put_node(node)?;
            Ok(())
        }
        Edit::PutArc(from, to, capacity, cost) => {
            network.put_arc(from, to, capacity, cost)?;
            Ok(())
        }
    }
}

/// Makes the edits one after another. For each edit the caller must meet the premises of its call, on what the
/// earlier ones left. If memory runs out, some of them are made, in order. More than 8 edits scatter the network first:
/// O(n log n) once, and O(log n) for each. Of fewer, each drop moves what is packed after it, O(n).
pub fn make_all(network: &mut Network, edits: &[Edit]) -> Result<(), OutOfMemory>
    requires { MayEditAll network.old edits.now }
    ensures ok { OnOk result (network.new ≡ after_edits edits.now network.old) }
    ensures err { OnErr result (IsPartMade network.old edits.now network.new) }
{
    if edits.len() > FEW {
        // If there is no memory for it, each edit costs more.
        let _ = network.scatter();
    }
    make_each(network, edits)
}

// Makes the edits one after another.
fn make_each(network: &mut Network, edits: &[Edit]) -> Result<(), OutOfMemory>
    requires { MayEditAll network.old edits.now }
    ensures ok { OnOk result (network.new ≡ after_edits edits.now network.old) }
    ensures err { OnErr result (IsPartMade network.old edits.now network.new) }
{
    for edit in edits {
        make(network, edit)?;
    }
    Ok(())
}
