//! A queue beside the memory that it stands in, as it is read: one value, or the greatest or the least of several. What is
//! not settled counts as `other`.
ghost use Rattle.std.specs.Prelude.{◌≡◌, length};
ghost use Rattle.queue.specs.Regions.{Stands};
ghost use Rattle.table.specs.Values.{greatest, least};
ghost use Rattle.engine.specs.Kept.{reading};

use super::keep::{Keep, read};
use scale::Scale;

/// A queue that stands in this memory.
#[derive(Drop)]
pub(crate) struct Standing<'a, V> {
    pub(crate) memory: &'a [V],
    pub(crate) keep: Keep,
    ghost stands: { Stands (length memory.now) keep.from keep.to keep.at },
}

impl<'a, V: Scale> Standing<'a, V> {
    /// The same queue once more, for a loop to hold: through a reference its region would be looked up at each position.
    pub(crate) fn here(&self) -> Standing<'a, V>
        ensures { (result.memory.now ≡ self.now.memory.now) × (result.keep ≡ self.now.keep) }
    {
        Standing {
            memory: self.memory,
            keep: self.keep,
        }
    }

    /// The value at a position.
    pub(crate) fn at(&self, position: usize, other: V) -> V
        ensures { result ≡ reading other self.now.memory.now self.now.keep position }
    {
        read(self.memory, self.keep, position, other)
    }

    // Two of a kind, two lines each: one with the join as a closure would be no shorter, and its callers longer.

    /// The greatest from `a` up to the position before `b`.
    pub(crate) fn greatest(&self, a: usize, b: usize, other: V) -> V
        ensures { result ≡ greatest V.scale a b (reading other self.now.memory.now self.now.keep) }
    {
        let here = self.here();
        (a..b).fold(V::lowest(), |most, p| most.greater(here.at(p, other)))
    }

    /// The least from `a` up to the position before `b`.
    pub(crate) fn least(&self, a: usize, b: usize, other: V) -> V
        ensures { result ≡ least V.scale a b (reading other self.now.memory.now self.now.keep) }
    {
        let here = self.here();
        (a..b).fold(V::highest(), |least, p| least.lesser(here.at(p, other)))
    }
}
