//! Outboxes: where records wait until they are taken. An outbox is known by two things alone, the list of records that
//! wait in it, the oldest first, and how many more it has room for; what it means to put a record and to take one is said
//! of these two, once for every outbox, in `specs/Meaning.antt`. A queue in a list of records is one (`ring`), and says
//! also what becomes of the list; the crate `book` has another, in bytes. What is refused changes nothing. `put_all` and
//! `take_all` are proved for every outbox at once. Read `specs/Meaning.antt` first.
#![tactic(auto)]

pub mod fault;
pub mod ring;
mod several;

ghost use Rattle.std.specs.Prelude.{◌≡◌, ℕ, ◌+◌, List, IfOk};
ghost use Rattle.record.specs.declared.Record.{Record};
ghost use Rattle.outbox.specs.Meaning.{Puts, Takes};

use fault::{PutFault, TakeFault};
use record::Record;
pub use several::{put_all, take_all};

/// A place where records wait until they are taken.
pub trait Outbox<V: Copy> {
    /// The records that wait, the oldest first.
    ghost waiting: { Self → List (Record V) };

    /// How many more records can be put.
    ghost free: { Self → ℕ };

    /// How many more can be put once the oldest is taken: taking never makes it fewer.
    ghost regained: { Self → ℕ };

    /// How many more records can be put.
    fn room(&self) -> usize
        ensures { result ≡ free self.now };

    /// One more record, which waits after all others. Where nothing is free it is refused.
    fn put(&mut self, record: &Record<V>) -> Result<(), PutFault>
        ensures { Puts waiting free self.old self.new «record».now result };

    /// The oldest record, which waits no more. Where nothing waits this is refused.
    fn take(&mut self) -> Result<Record<V>, TakeFault>
        ensures taken { Takes waiting free self.old self.new result }
        ensures freed { IfOk result (λ _. free self.new ≡ free self.old + regained self.old) };
}
