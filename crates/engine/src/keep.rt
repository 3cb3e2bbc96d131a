//! A node's queue in the lent memory: the newest of its settled positions.
ghost use Rattle.std.specs.Prelude.{◌≡◌, length};
ghost use Rattle.queue.specs.Regions.{Stands};
ghost use Rattle.engine.specs.Kept.{reading};
ghost use Rattle.engine.specs.State.{keep_of};
ghost use Rattle.engine.specs.Ticking.{operand_of};

use super::ask::is_sample;
use queue::{Stand, read_at};
use scale::Scale;
use table::node::Node;

/// A node's queue: the region of its places, where it stands there, and how many positions are settled in all. It holds
/// the newest of them.
#[derive(Clone, Copy)]
pub struct Keep {
    pub from: usize,
    pub to: usize,
    pub at: Stand,
    pub count: usize,
}

/// Stands for a queue that is not there.
pub(crate) const NOWHERE: Keep = Keep {
    from: 0,
    to: 0,
    at: Stand { head: 0, len: 0 },
    count: 0,
};

/// The value at a position, and `other` where that is not settled. A queue that does not stand in the memory has none.
pub fn read<V: Scale>(memory: &[V], keep: Keep, position: usize, other: V) -> V
    ensures read { Stands (length memory.now) keep.from keep.to keep.at → result ≡ reading other memory.now keep position }
    ensures misfit { (Stands (length memory.now) keep.from keep.to keep.at → ⊥) → result ≡ other }
{
    if position >= keep.count {
        return other;
    }
    let older = keep.count.saturating_sub(keep.at.len);
    read_at(
        memory,
        keep.from,
        keep.to,
        keep.at,
        position.saturating_sub(older),
    )
    .unwrap_or(other)
}

/// The queue of node `k`.
pub fn keep_of(keeps: &[Keep], k: usize) -> Keep
    ensures { result ≡ keep_of keeps.now k }
{
    keeps.get(k).copied().unwrap_or(NOWHERE)
}

/// The queue of an operand of node `k`; a sample has none, and its own stands there.
pub(crate) fn operand_of(keeps: &[Keep], node: Node, k: usize, operand: u16) -> Keep
    ensures { result ≡ operand_of keeps.now node k operand }
{
    if is_sample(node.kind) {
        return keep_of(keeps, k);
    }
    keep_of(keeps, usize::from(operand))
}
