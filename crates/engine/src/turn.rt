//! One node on its turn at a tick: what it is worked out from, and where its next position goes.
ghost use Rattle.std.specs.Prelude.{◌≡◌, ℕ, ◌^◌, ◌<◌, ◌≤◌, false, length};
ghost use Rattle.queue.specs.Regions.{Stands};
ghost use Rattle.table.specs.Kinds.{sampled};
ghost use Rattle.engine.specs.State.{keep_of};
ghost use Rattle.engine.specs.Ticking.{operand_of};
ghost use Rattle.engine.specs.Working.{worked};
ghost use Rattle.engine.specs.Settling.{KeptOne};

use super::keep::{Keep, keep_of, operand_of};
use super::operands::Operands;
use super::standing::Standing;
use queue::keep_at;
use scale::Scale;
use table::node::Node;

/// The node, its queue in the memory, and its operands' queues.
#[derive(Drop)]
pub(crate) struct Turn<'m, V> {
    pub(crate) memory: &'m mut [V],
    pub(crate) node: Node,
    pub(crate) own: Keep,
    pub(crate) left: Keep,
    pub(crate) right: Keep,
    ghost own_stands: { Stands (length memory.now) own.from own.to own.at },
    ghost left_stands: { Stands (length memory.now) left.from left.to left.at },
    ghost right_stands: { Stands (length memory.now) right.from right.to right.at },
    ghost upright: { node.from ≤ node.to },
}

// That the memory's loan stays the same is said by each call, here and in the files beside: of old and new, so that no
// invariant of one turn can say it. Positions are below 2^32 as in `Operands`.
impl<'m, V: Scale> Turn<'m, V> {
    /// Node `k`, with its own queue among these and its operands'.
    pub(crate) fn of(memory: &'m mut [V], keeps: &[Keep], node: Node, k: usize) -> Turn<'m, V>
        requires stands { (j : ℕ) → j ≤ k → Stands (length memory.old) (keep_of keeps.now j).from (keep_of keeps.now j).to (keep_of keeps.now j).at }
        requires below { sampled node.kind ≡ false → (node.left < k) × (node.right < k) }
        requires upright { node.from ≤ node.to }
        ensures memory { result.memory.now ≡ memory.old }
        ensures lends { result.memory.ghost_name ≡ memory.entry.ghost_name }
        ensures node { result.node ≡ node }
        ensures own { result.own ≡ keep_of keeps.now k }
        ensures left { result.left ≡ operand_of keeps.now node k node.left }
        ensures right { result.right ≡ operand_of keeps.now node k node.right }
    {
        let own = keep_of(keeps, k);
        let left = operand_of(keeps, node, k, node.left);
        let right = operand_of(keeps, node, k, node.right);
        Turn {
            memory,
            node,
            own,
            left,
            right,
        }
    }

    /// The value of the node at position `i`, with `other` for what is not settled.
    pub(crate) fn work_out(&self, sample: V, i: usize, other: V) -> V
        requires { i < 2 ^ 32 }
        ensures { result ≡ worked V.scale sample self.now.memory.now self.now.node self.now.left self.now.right other i }
    {
        let memory: &[V] = self.memory;
        let operands = Operands {
            node: self.node,
            left: Standing {
                memory,
                keep: self.left,
            },
            right: Standing {
                memory,
                keep: self.right,
            },
        };
        operands.work_out(sample, i, other)
    }

    /// One more settled position, of this value; if the queue was full, its oldest has gone.
    pub(crate) fn keep_next(&mut self, value: V)
        requires { self.old.own.count < 2 ^ 32 }
        ensures kept { KeptOne self.old.memory.now self.new.memory.now self.old.own value self.new.own }
        ensures rest { (self.new.node ≡ self.old.node) × (self.new.left ≡ self.old.left) × (self.new.right ≡ self.old.right) }
        ensures long { length self.new.memory.now ≡ length self.old.memory.now }
        ensures lends { self.new.memory.ghost_name ≡ self.old.memory.ghost_name }
    {
        self.own.at = keep_at(self.memory, self.own.from, self.own.to, self.own.at, value).unwrap();
        self.own.count += 1;
    }
}
