//! What a tick settles of one node.
ghost use Rattle.std.specs.Prelude.{◌≡◌, ℕ, ◌^◌, ◌<◌, ◌≤◌, true, false};
ghost use Rattle.queue.specs.Regions.{Apart};
ghost use Rattle.scale.specs.Order.{same};
ghost use Rattle.table.specs.Kinds.{at_once};
ghost use Rattle.engine.specs.Settling.{Settles};

use super::ticks::Tick;
use super::turn::Turn;
use scale::Scale;
use table::kind::Sort;

/// Whether two values are the same: each is at most the other.
pub fn agree<V: Scale>(a: V, b: V) -> bool
    ensures { result ≡ same V.Scale.scale a b }
{
    // A scale promises an order, and no equality that `==` could stand for.
    a.at_most(b) && b.at_most(a)
}

impl<'m, V: Scale> Turn<'m, V> {
    /// A sample or a node that looks back: one position more.
    fn settle_now(&mut self, sample: V)
        requires small { self.old.own.count < 2 ^ 32 }
        requires prompt { at_once self.old.node.kind ≡ true }
        ensures settles { (n : ℕ) → Settles V.scale sample self.old.memory.now self.new.memory.now self.old.node self.old.own self.new.own self.old.left self.old.right n }
        ensures lends { self.new.memory.ghost_name ≡ self.old.memory.ghost_name }
    {
        let next = self.own.count;
        let value = self.work_out(sample, next, V::lowest());
        self.keep_next(value);
    }

    /// Any other node: positions upward, while both workings-out agree, up to the tick's own.
    fn settle_later(&mut self, sample: V, tick: Tick)
        requires apart { Apart self.old.own.from self.old.own.to self.old.left.from self.old.left.to × Apart self.old.own.from self.old.own.to self.old.right.from self.old.right.to }
        requires behind { self.old.own.count ≤ tick.number }
        requires later { at_once self.old.node.kind ≡ false }
        ensures settles { Settles V.scale sample self.old.memory.now self.new.memory.now self.old.node self.old.own self.new.own self.old.left self.old.right tick.number }
        ensures lends { self.new.memory.ghost_name ≡ self.old.memory.ghost_name }
    {
        for i in self.own.count..tick.number + 1 {
            let low = self.work_out(sample, i, V::lowest());
            let high = self.work_out(sample, i, V::highest());
            if !agree(low, high) {
                break;
            }
            self.keep_next(low);
        }
    }

    /// The node's queue, taken on by a tick.
    pub(crate) fn settle(&mut self, sample: V, tick: Tick)
        requires apart { at_once self.old.node.kind ≡ false → Apart self.old.own.from self.old.own.to self.old.left.from self.old.left.to × Apart self.old.own.from self.old.own.to self.old.right.from self.old.right.to }
        requires behind { self.old.own.count ≤ tick.number }
        ensures settles { Settles V.scale sample self.old.memory.now self.new.memory.now self.old.node self.old.own self.new.own self.old.left self.old.right tick.number }
        ensures lends { self.new.memory.ghost_name ≡ self.old.memory.ghost_name }
    {
        match self.node.kind.shape().sort {
            Sort::Leaf | Sort::Back => self.settle_now(sample),
            Sort::Point | Sort::Ahead => self.settle_later(sample, tick),
        }
    }
}
