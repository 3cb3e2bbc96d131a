//! The pages of a book, a record on each.
ghost use Rattle.std.specs.Prelude.{◌≡◌, ℕ, ◌+◌, ◌*◌, ◌<◌, ◌≤◌, length};
ghost use Rattle.book.specs.Books.{lent, ever_put, SameLoan};
ghost use Rattle.book.specs.Format.{restored, value_of};
ghost use Rattle.book.specs.Pages.{page_at, with_page};

use super::Book;
use crate::format::restored;
use crate::reading::Readable;
use record::Record;

impl<'a, V: Readable> Book<'a, V> {
    /// The page after those of all records ever put becomes this one; all other bytes stay as they are.
    pub(crate) fn write(&mut self, page: [u8; 16])
        requires { 16 * ever_put self.old + 16 ≤ length (lent self.old) }
        ensures bytes { lent self.new ≡ with_page (lent self.old) (ever_put self.old) page }
        ensures put { ever_put self.new ≡ ever_put self.old }
        ensures taken { self.new.taken ≡ self.old.taken }
        ensures lends { SameLoan self.old self.new }
    {
        let from = 16 * self.count;
        let to = from + 16;
        self.bytes[from..to].copy_from_slice(&page);
    }

    /// The record on the page after those of all records taken.
    #[tactic(auto, using(crate::proofs::Paged::page_in))]
    pub(crate) fn oldest(&self) -> Record<V>
        requires { self.now.taken < ever_put self.now }
        ensures { result ≡ restored (value_of V.Scale.scale V.decoded) (page_at (lent self.now) self.now.taken) }
    {
        let (pages, _) = self.bytes.as_chunks();
        restored(&pages[self.taken])
    }
}
