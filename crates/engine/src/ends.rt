//! The early ends of the nodes at a tick: what is known of the tick's own position, settled or not. Behind each node's
//! queue stand two values, its lower end and its upper end.
ghost use Rattle.std.specs.Prelude.{◌≡◌, suc, ◌+◌, ◌^◌, ◌<◌, ◌≤◌, length, slice_set};
ghost use Rattle.engine.specs.Ending.{slot_as_queue, from_slots, ends_from};
ghost use Rattle.engine.specs.Ticking.{Sound, EndsInside, AllButEndsKept, StillAt, EndsStored};

use super::keep::{Keep, read};
use super::operands::Operands;
use super::standing::Standing;
use super::ticks::Tick;
use super::turn::Turn;
use queue::Stand;
use scale::Scale;
use table::kind::Sort;
use table::node::Node;

/// One slot as a queue of one place, which holds the tick's own position.
fn slot_as_queue(slot: usize, tick: Tick) -> Keep
    requires { slot + 1 < 2 ^ 64 }
    ensures { result ≡ slot_as_queue slot tick.number }
{
    Keep {
        from: slot,
        to: slot + 1,
        at: Stand { head: 0, len: 1 },
        count: tick.number + 1,
    }
}

impl<'m, V: Scale> Turn<'m, V> {
    /// The value of the node at the tick's own position, from one slot for each operand that says what that is there, with
    /// `other` after it. The node looks at nothing before it.
    fn from_slots(&self, left: usize, right: usize, tick: Tick, other: V) -> V
        requires { (left < length self.now.memory.now) × (right < length self.now.memory.now) }
        ensures { result ≡ from_slots V.scale self.now.memory.now self.now.node left right tick.number other }
    {
        let memory: &[V] = self.memory;
        let operands = Operands {
            node: self.node,
            left: Standing {
                memory,
                keep: slot_as_queue(left, tick),
            },
            right: Standing {
                memory,
                keep: slot_as_queue(right, tick),
            },
        };
        operands.work_out(V::lowest(), tick.number, other)
    }

    /// The lower and the upper end of the node at a tick. A sample or a node that looks back has its value as both. Any
    /// other has what follows from its operands' lower ends, with the lowest value for all that is to come, and from their
    /// upper ends, with the highest; `not` exchanges the two.
    fn ends(&self, tick: Tick) -> (V, V)
        requires { (self.now.left.to + 2 ≤ length self.now.memory.now) × (self.now.right.to + 2 ≤ length self.now.memory.now) }
        ensures lower { result.0 ≡ (ends_from V.scale self.now.memory.now self.now.node self.now.own self.now.left self.now.right tick.number).lower }
        ensures upper { result.1 ≡ (ends_from V.scale self.now.memory.now self.now.node self.now.own self.now.left self.now.right tick.number).upper }
    {
        let shape = self.node.kind.shape();
        match shape.sort {
            Sort::Leaf | Sort::Back => {
                let value = read(self.memory, self.own, tick.number, V::lowest());
                (value, value)
            }
            Sort::Point | Sort::Ahead => {
                let low = self.from_slots(self.left.to, self.right.to, tick, V::lowest());
                let high = self.from_slots(self.left.to + 1, self.right.to + 1, tick, V::highest());
                if shape.turned {
                    (high, low)
                } else {
                    (low, high)
                }
            }
        }
    }

    /// Puts a lower and an upper end behind the node's queue.
    fn store(&mut self, ends: (V, V))
        requires { self.old.own.to + 2 ≤ length self.old.memory.now }
        ensures stored { self.new.memory.now ≡ slice_set (slice_set self.old.memory.now self.old.own.to ends.0) (self.old.own.to + 1) ends.1 }
        ensures lends { self.new.memory.ghost_name ≡ self.old.memory.ghost_name }
    {
        let slot = self.own.to;
        self.memory[slot] = ends.0;
        self.memory[slot + 1] = ends.1;
    }
}

/// Stores every node's two ends of a tick behind its queue, once the queues are those after the tick.
pub(crate) fn ends_all<V: Scale>(nodes: &[Node], tick: Tick, memory: &mut [V], keeps: &[Keep])
    requires sound { Sound nodes.now keeps.now (length memory.old) (suc tick.number) }
    requires inside { EndsInside nodes.now keeps.now (length memory.old) }
    ensures others { AllButEndsKept keeps.now (length nodes.now) memory.old memory.new }
    ensures queues { StillAt V.Scale.scale nodes.now (suc tick.number) memory.old memory.new keeps.now }
    ensures stored { EndsStored V.Scale.scale nodes.now tick.number memory.old memory.new keeps.now }
{
    for (k, node) in nodes.iter().enumerate() {
        let mut turn = Turn::of(memory, keeps, *node, k);
        let ends = turn.ends(tick);
        turn.store(ends);
    }
}
