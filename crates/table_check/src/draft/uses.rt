//! The uses of the nodes.
ghost use Rattle.std.specs.List.{list_any};
ghost use Rattle.std.specs.Prelude.{◌≡◌};
ghost use Rattle.std.specs.Result.{result_err};
ghost use Rattle.table_check.specs.Drafts.{of_draft};
ghost use Rattle.table_check.specs.Judging.{use_fault, is_parent};
ghost use Rattle.table.specs.Places.{operand};
ghost use Rattle.table.specs.Refusals.{used};

use super::Draft;
use table::fault::TableFault;
use table::kind::{Side, Sort};
use table::node::Node;

/// Whether node `k` is the operand of this node on this side.
pub(crate) fn is_operand(node: &Node, side: Side, k: u8) -> bool
    ensures { result ≡ operand node.now side k }
{
    let shape = node.kind.shape();
    let k = u16::from(k);
    match side {
        Side::Left => match shape.sort {
            Sort::Leaf => false,
            Sort::Point | Sort::Ahead | Sort::Back => node.left == k,
        },
        Side::Right => shape.binary && node.right == k,
    }
}

/// Whether node `k` is an operand of this node.
fn has_operand(node: &Node, k: u8) -> bool
    ensures { result ≡ is_parent node.now k }
{
    is_operand(node, Side::Left, k) || is_operand(node, Side::Right, k)
}

impl Draft<'_> {
    /// Refuses the first node that is neither an operand nor named by a rule.
    pub(crate) fn find_unused(&self) -> Result<(), TableFault>
        ensures { result_err result ≡ use_fault self.now.nodes.now self.now.rules.now }
    {
        for k in 0..self.nodes.len() as u8 {
            if !self.is_used(k) {
                return Err(TableFault::Unused(k));
            }
        }
        Ok(())
    }

    /// Whether node `k` is an operand, or a rule names it.
    fn is_used(&self, k: u8) -> bool
        ensures { result ≡ used (of_draft self.now) k }
    {
        self.is_parented(k) || self.rules.contains(&k)
    }

    /// Whether node `k` is an operand.
    fn is_parented(&self, k: u8) -> bool
        ensures { result ≡ list_any (λ x. is_parent x k) self.now.nodes.now }
    {
        self.nodes.iter().any(|node| has_operand(node, k))
    }
}
