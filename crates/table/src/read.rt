//! The tests of a node that need nothing of other nodes.
ghost use Rattle.std.specs.Prelude.{◌≡◌, ◌≤◌, IfOk, nat_le};
ghost use Rattle.std.specs.Result.{result_err};
ghost use Rattle.table.specs.Refusals.{first, own_tests, placed, left_placed, right_placed, window_placed};
ghost use Rattle.table.specs.Tables.{as_node};

use super::fault::TableFault;
use super::kind::{Kind, Sort};
use super::node::{Node, UncheckedNode};

/// The node that is written down, or the first of its own faults. `own` is its number.
pub fn read_node(written: &UncheckedNode, own: u8) -> Result<Node, TableFault>
    ensures fault { result_err result ≡ first (own_tests (nat_le 10 written.now.kind) (as_node written.now) own) }
    ensures node { IfOk result (λ x. x ≡ as_node written.now) }
    ensures window { IfOk result (λ x. (x.from ≤ x.to) × (x.to ≤ 4095)) }
{
    let kind = Kind::try_from(written.kind).map_err(|_| TableFault::UnknownKind(own))?;
    let node = Node {
        kind,
        left: written.left,
        right: written.right,
        from: written.from,
        to: written.to,
    };
    if !is_placed(&node, own) {
        return Err(TableFault::Misplaced(own));
    }
    if node.from > node.to || node.to > 4095 {
        return Err(TableFault::Window(own));
    }
    Ok(node)
}

/// Whether the operands stand before their node, a sample's number is at most 31, and fields without use are 0.
fn is_placed(node: &Node, own: u8) -> bool
    ensures { result ≡ placed node.now own }
{
    is_left_placed(node, own) && is_right_placed(node, own) && is_window_placed(node)
}

fn is_left_placed(node: &Node, own: u8) -> bool
    ensures { result ≡ left_placed node.now own }
{
    match node.kind.shape().sort {
        Sort::Leaf => node.left <= 31,
        Sort::Point | Sort::Ahead | Sort::Back => node.left < u16::from(own),
    }
}

fn is_right_placed(node: &Node, own: u8) -> bool
    ensures { result ≡ right_placed node.now own }
{
    if node.kind.shape().binary {
        node.right < u16::from(own)
    } else {
        node.right == 0
    }
}

fn is_window_placed(node: &Node) -> bool
    ensures { result ≡ window_placed node.now }
{
    match node.kind.shape().sort {
        Sort::Leaf | Sort::Point => node.from == 0 && node.to == 0,
        Sort::Ahead | Sort::Back => true,
    }
}
