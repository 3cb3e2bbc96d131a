//! What a queue does.
ghost use Rattle.std.specs.Prelude.{◌≡◌, ℕ, ◌+◌, ◌-◌, ◌<◌, ◌≤◌, List, [], ◌∷◌, ◌++◌, length, MatchBool, MatchOption, MatchResult, slice_set};
ghost use Rattle.std.specs.List.{slice_get};
ghost use Rattle.queue.specs.Contents.{contents, slot_at, Fits, newest};
ghost use Rattle.queue.specs.Items.{items, lent, next_slot, SameLoan};

use super::{Full, Misfit, Ring, Stand};

/// The slot that comes `i` slots after `head`, going round.
#[tactic(auto, unfolding(crate::specs::Contents::slot_at))]
fn slot(cap: usize, head: usize, i: usize) -> usize
    requires head { head < cap }
    requires round { i ≤ cap }
    ensures within { result < cap }
    ensures slot { result ≡ slot_at cap head i }
{
    // `head + i` need not fit a `usize`: count what is left up to the end instead.
    let tail = cap - head;
    if i < tail { head + i } else { i - tail }
}

impl Stand {
    /// Whether a queue can stand so in this many slots.
    pub fn fits(self, cap: usize) -> bool
        ensures { MatchBool result (Fits cap self) (Fits cap self → ⊥) }
    {
        self.len <= cap && self.head < cap.max(1)
    }
}

// What a call changes it says of old and new, the loan that stays the same too: no invariant of one ring can say that.
impl<'a, T: Copy> Ring<'a, T> {
    /// An empty queue in these slots, which stay as they are.
    #[tactic(auto, using(crate::proofs::Contents::contents_none))]
    pub fn new(slots: &'a mut [T]) -> Ring<'a, T>
        ensures items { items result ≡ [] }
        ensures slots { lent result ≡ slots.old }
        ensures lends { result.slots.ghost_name ≡ slots.entry.ghost_name }
    {
        Ring {
            slots,
            at: Stand { head: 0, len: 0 },
        }
    }

    /// Stands where a queue stood in these slots before, and holds what it held. A stand that does not fit the slots is
    /// refused, and the queue stays as it is.
    pub fn resume(&mut self, at: Stand) -> Result<(), Misfit>
        ensures stand { MatchResult result (λ _. Fits (length (lent self.old)) at × (self.new.at ≡ at)) (λ _. (Fits (length (lent self.old)) at → ⊥) × (self.new ≡ self.old)) }
        ensures slots { lent self.new ≡ lent self.old }
        ensures lends { SameLoan self.old self.new }
    {
        if !at.fits(self.slots.len()) {
            return Err(Misfit);
        }
        self.at = at;
        Ok(())
    }

    /// Where it stands in its slots, to `resume` from later.
    pub fn stand(&self) -> Stand
        ensures stand { result ≡ self.now.at }
        ensures fits { Fits (length (lent self.now)) result }
    {
        self.at // a copy, which stays what it is while the queue moves on
    }

    /// How many elements it holds.
    #[tactic(auto, using(crate::proofs::Rings::length_items))]
    pub fn len(&self) -> usize
        ensures { result ≡ length (items self.now) }
    {
        self.stand().len
    }

    /// How many elements it can hold.
    pub fn capacity(&self) -> usize
        ensures { result ≡ length (lent self.now) }
    {
        self.slots.len()
    }

    /// How many more elements it can hold.
    #[tactic(auto, using(crate::proofs::Rings::items_fit))]
    pub fn free(&self) -> usize
        ensures { result + length (items self.now) ≡ length (lent self.now) }
    {
        self.capacity() - self.len()
    }

    /// The i-th oldest element of the queue that stands so in these slots. To read takes no more than a shared loan.
    #[tactic(auto, using(crate::proofs::Contents::nth_contents, crate::proofs::Contents::nth_contents_past))]
    pub(crate) fn read(slots: &[T], at: Stand, i: usize) -> Option<T>
        requires { Fits (length slots.now) at }
        ensures { result ≡ slice_get (contents slots.now at) i }
    {
        if i >= at.len {
            return None;
        }
        Some(slots[slot(slots.len(), at.head, i)])
    }

    /// The i-th oldest element.
    pub fn get(&self, i: usize) -> Option<T>
        ensures { result ≡ slice_get (items self.now) i }
    {
        Ring::read(self.slots, self.at, i)
    }

    /// One more element, after the newest. A full queue refuses it and stays as it is.
    #[tactic(auto, using(crate::proofs::Rings::length_items, crate::proofs::Contents::contents_push))]
    pub fn push(&mut self, x: T) -> Result<(), Full>
        ensures items { MatchResult result (λ _. items self.new ≡ items self.old ++ x ∷ []) (λ _. (length (items self.old) ≡ length (lent self.old)) × (self.new ≡ self.old)) }
        ensures slots { MatchResult result (λ _. lent self.new ≡ slice_set (lent self.old) (next_slot self.old) x) (λ _. lent self.new ≡ lent self.old) }
        ensures lends { SameLoan self.old self.new }
    {
        let cap = self.slots.len();
        if self.at.len >= cap {
            return Err(Full);
        }
        self.slots[slot(cap, self.at.head, self.at.len)] = x;
        self.at.len += 1;
        Ok(())
    }

    /// The oldest element, which leaves the queue.
    #[tactic(auto, using(crate::proofs::Contents::contents_none, crate::proofs::Contents::contents_pop, crate::proofs::Contents::slot_after_pop))]
    pub fn pop(&mut self) -> Option<T>
        ensures items { MatchOption result ((items self.old ≡ []) × (self.new ≡ self.old)) (λ x. items self.old ≡ x ∷ items self.new) }
        ensures slots { lent self.new ≡ lent self.old }
        ensures next { next_slot self.new ≡ next_slot self.old }
        ensures lends { SameLoan self.old self.new }
    {
        if self.at.len == 0 {
            return None;
        }
        let oldest = self.slots[self.at.head];
        self.at.head = slot(self.slots.len(), self.at.head, 1);
        self.at.len -= 1;
        Some(oldest)
    }

    /// One more element, after the newest; in a full queue the oldest makes room for it.
    pub fn keep(&mut self, x: T)
        ensures items { items self.new ≡ newest (length (lent self.old)) (items self.old ++ x ∷ []) }
        ensures slots { lent self.new ≡ slice_set (lent self.old) (next_slot self.old) x }
        ensures lends { SameLoan self.old self.new }
    {
        let full = self.free() == 0;
        if full {
            let _ = self.pop();
        }
        // Refused only where there are no slots at all: such a queue keeps nothing.
        let _ = self.push(x);
    }
}
