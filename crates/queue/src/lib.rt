//! One bounded queue, for every kind of element, in slots that it is lent. What a `Ring` holds is a list, the oldest
//! first, and every call here is defined by what it makes of that list. A ring has no memory of its own: it goes round
//! the slots that it is lent, says where it stands in them (`Stand`), and can stand there again later. So many queues
//! live in one memory, each in a region of its own: what one of them gains (`keep_at`) leaves every other as it was.
//! What does not fit is refused, and then nothing has changed. Read `specs/Contents.antt` first, then
//! `specs/Regions.antt`.
#![tactic(auto)]

mod memory;
mod methods;

ghost use Rattle.std.specs.Prelude.{◌<◌, ◌≤◌, max, length};

pub use memory::{keep_at, read_at};

/// Every slot is taken.
#[derive(Clone, Copy, PartialEq, Eq, Debug)]
pub struct Full;

/// The stand does not fit the slots, or the region does not lie in the memory.
#[derive(Clone, Copy, PartialEq, Eq, Debug)]
pub struct Misfit;

/// Where a queue stands in its slots: the slot of its oldest element, and how many elements it holds.
#[derive(Clone, Copy)]
pub struct Stand {
    pub head: usize,
    pub len: usize,
}

/// A queue in the slots that it is lent.
#[derive(Drop)]
pub struct Ring<'a, T> {
    slots: &'a mut [T],
    at: Stand,
    ghost holds: { at.len ≤ length slots.now },
    ghost begins: { at.head < max (length slots.now) 1 },
}
