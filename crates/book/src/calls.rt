//! What a book does.
ghost use Rattle.std.specs.Prelude.{◌≡◌, ℕ, ◌+◌, [], IfOk, MatchResult};
ghost use Rattle.book.specs.Books.{lent, ever_put, pages_free, waiting_in, SameLoan};
ghost use Rattle.book.specs.Format.{stored};
ghost use Rattle.outbox.specs.Meaning.{Puts, Takes};
ghost use Rattle.book.specs.Pages.{with_page};

use super::Book;
use crate::format::stored;
use crate::reading::Readable;
use outbox::Outbox;
use outbox::fault::{PutFault, TakeFault};
use record::Record;

impl<'a, V: Readable> Book<'a, V> {
    /// A book over these bytes, which stay as they are. Nothing waits in it.
    #[tactic(auto, using(crate::proofs::Paged::records_none))]
    pub fn new(bytes: &'a mut [u8]) -> Book<'a, V>
        ensures waiting { waiting_in V.Scale.scale V.decoded result ≡ [] }
        ensures put { ever_put result ≡ 0 }
        ensures bytes { lent result ≡ bytes.old }
        ensures lends { result.bytes.ghost_name ≡ bytes.entry.ghost_name }
    {
        Book {
            bytes,
            count: 0,
            taken: 0,
            scale: &[],
        }
    }
}

// That the loan stays the same is said by each call: of old and new, so that no invariant of one book can say it.
impl<'a, V: Readable> Outbox<V> for Book<'a, V> {
    ghost waiting = { waiting_in V.Scale.scale V.Readable.decoded };

    ghost free = { pages_free };

    ghost regained = { λ _. 0 };

    fn room(&self) -> usize {
        self.bytes.len() / 16 - self.count
    }

    #[tactic(auto, using(crate::proofs::Booked::as_long, crate::proofs::Booked::one_more))]
    fn put(&mut self, record: &Record<V>) -> Result<(), PutFault>
        ensures outbox { Puts (waiting_in V.Scale.scale V.decoded) pages_free self.old self.new «record».now result }
        ensures bytes { MatchResult result (λ _. lent self.new ≡ with_page (lent self.old) (ever_put self.old) (stored V.Scale.coded «record».now)) (λ _. lent self.new ≡ lent self.old) }
        ensures put { MatchResult result (λ _. ever_put self.new ≡ ever_put self.old + 1) (λ _. ever_put self.new ≡ ever_put self.old) }
        ensures lends { SameLoan self.old self.new }
    {
        if self.count == self.bytes.len() / 16 {
            return Err(PutFault::Full);
        }
        self.write(stored(record));
        self.count += 1;
        Ok(())
    }

    #[tactic(auto, using(crate::proofs::Paged::records_none, crate::proofs::Paged::records_first))]
    fn take(&mut self) -> Result<Record<V>, TakeFault>
        ensures outbox { Takes (waiting_in V.Scale.scale V.decoded) pages_free self.old self.new result }
        ensures freed { IfOk result (λ _. pages_free self.new ≡ pages_free self.old + 0) }
        ensures bytes { lent self.new ≡ lent self.old }
        ensures put { ever_put self.new ≡ ever_put self.old }
        ensures lends { SameLoan self.old self.new }
    {
        if self.taken == self.count {
            return Err(TakeFault::Empty);
        }
        let oldest = self.oldest();
        self.taken += 1;
        Ok(oldest)
    }
}
