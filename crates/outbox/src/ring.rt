//! The outbox in a list of records that it is lent: a queue of records.
ghost use Rattle.std.specs.Prelude.{◌≡◌, ℕ, ◌+◌, IfOk, MatchResult, slice_set};
ghost use Rattle.queue.specs.Items.{items, lent, next_slot, SameLoan};
ghost use Rattle.outbox.specs.Meaning.{Puts, Takes};
ghost use Rattle.outbox.specs.Rings.{slots_free};

use super::Outbox;
use super::fault::{PutFault, TakeFault};
use queue::Ring;
use record::Record;

// Each call says of old and new that the loan stays, as those of the ring do.
impl<'a, V: Copy> Outbox<V> for Ring<'a, Record<V>> {
    ghost waiting = { items };

    ghost free = { slots_free };

    ghost regained = { λ _. 1 };

    fn room(&self) -> usize {
        self.free()
    }

    #[tactic(auto, using(crate::proofs::Queued::one_less_free))]
    fn put(&mut self, record: &Record<V>) -> Result<(), PutFault>
        ensures outbox { Puts items slots_free self.old self.new «record».now result }
        ensures slots { MatchResult result (λ _. lent self.new ≡ slice_set (lent self.old) (next_slot self.old) «record».now) (λ _. lent self.new ≡ lent self.old) }
        ensures lends { SameLoan self.old self.new }
    {
        self.push(*record).map_err(|_| PutFault::Full)
    }

    #[tactic(auto, using(crate::proofs::Queued::one_more_free))]
    fn take(&mut self) -> Result<Record<V>, TakeFault>
        ensures outbox { Takes items slots_free self.old self.new result }
        ensures freed { IfOk result (λ _. slots_free self.new ≡ slots_free self.old + 1) }
        ensures slots { lent self.new ≡ lent self.old }
        ensures lends { SameLoan self.old self.new }
    {
        self.pop().ok_or(TakeFault::Empty)
    }
}
