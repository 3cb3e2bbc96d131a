//! The value of a node from its operands' queues. What is not settled counts as `other`.
ghost use Rattle.std.specs.Prelude.{◌≡◌, ◌+◌, ◌^◌, ◌<◌, ◌≤◌, min};
ghost use Rattle.table.specs.Values.{greatest};
ghost use Rattle.engine.specs.Kept.{reading};
ghost use Rattle.engine.specs.Working.{until_at, since_at, worked_from};

use super::standing::Standing;
use scale::Scale;
use table::kind::Kind;
use table::node::Node;

/// A node, and the queues of its operands; a sample has none, and any two queues stand there.
#[derive(Drop)]
pub(crate) struct Operands<'a, V> {
    pub(crate) node: Node,
    pub(crate) left: Standing<'a, V>,
    pub(crate) right: Standing<'a, V>,
    ghost upright: { node.from ≤ node.to },
}

// Each method asks for a position below 2^32, so that with a window's end it fits a `usize`. It is a sum, and a type for it
// would be made anew at every call.
impl<'a, V: Scale> Operands<'a, V> {
    /// The value of the node at position `i`, from its sample of this tick or from its operands' queues.
    #[tactic(auto, unfolding(table::specs::Values::value))]
    pub(crate) fn work_out(&self, sample: V, i: usize, other: V) -> V
        requires { i < 2 ^ 32 }
        ensures { result ≡ worked_from V.scale sample self.now.node (reading other self.now.left.memory.now self.now.left.keep) (reading other self.now.right.memory.now self.now.right.keep) i }
    {
        let from = usize::from(self.node.from);
        let to = usize::from(self.node.to);
        let before = i.saturating_sub(to);
        let opens = (i + 1).saturating_sub(from);
        match self.node.kind {
            Kind::Sample => sample,
            Kind::Not => self.left.at(i, other).reverse(),
            Kind::And => self.left.at(i, other).lesser(self.right.at(i, other)),
            Kind::Or => self.left.at(i, other).greater(self.right.at(i, other)),
            Kind::Within => self.left.greatest(i + from, i + to + 1, other),
            Kind::Always => self.left.least(i + from, i + to + 1, other),
            Kind::Until => self.until(i, other),
            Kind::Once => self.left.greatest(before, opens, other),
            Kind::Held => self.left.least(before, opens, other),
            Kind::Since => self.since(i, other),
        }
    }

    /// `left until [from, to] right` at position `i`.
    fn until(&self, i: usize, other: V) -> V
        requires { i < 2 ^ 32 }
        ensures { result ≡ greatest V.scale self.now.node.from (self.now.node.to + 1) (until_at V.scale (reading other self.now.left.memory.now self.now.left.keep) (reading other self.now.right.memory.now self.now.right.keep) i self.now.node.from) }
    {
        let from = usize::from(self.node.from);
        let to = usize::from(self.node.to);
        let (left, right) = (self.left.here(), self.right.here());
        let mut most = V::lowest();
        let mut run = V::highest();
        // By offset: each turn reads both queues at it, and takes what `left` was so far along.
        for j in from..to + 1 {
            most = most.greater(right.at(i + j, other).lesser(run));
            run = run.lesser(left.at(i + j, other));
        }
        most
    }

    /// `left since [from, to] right` at position `i`.
    fn since(&self, i: usize, other: V) -> V
        requires { i < 2 ^ 32 }
        ensures { result ≡ greatest V.scale self.now.node.from (min self.now.node.to i + 1) (since_at V.scale (reading other self.now.left.memory.now self.now.left.keep) (reading other self.now.right.memory.now self.now.right.keep) i) }
    {
        let from = usize::from(self.node.from);
        let to = usize::from(self.node.to);
        let mut most = V::lowest();
        if i < from {
            return most;
        }
        let (left, right) = (self.left.here(), self.right.here());
        let mut run = left.least(i - from + 1, i + 1, other);
        // By offset too, downward from `i`.
        for j in from..to.min(i) + 1 {
            most = most.greater(right.at(i - j, other).lesser(run));
            run = left.at(i - j, other).lesser(run);
        }
        most
    }
}
