//! The book: an outbox in bytes that it is lent, 16 to a record, in which a taken record remains. Each call does what
//! every outbox does, and says also what becomes of the bytes: a record that is put stands on the page after all others,
//! in the format of `specs/Format.antt`, and no other byte ever changes. What waits is read from the bytes alone, in a
//! scale that names the value of each code (`reading`). Read `specs/Books.antt` first, then `specs/Format.antt`.
#![tactic(auto)]

mod calls;
pub mod format;
mod page;
pub mod reading;

ghost use Rattle.std.specs.Prelude.{ℕ, ◌*◌, ◌≤◌, length};

/// Records in the bytes that it is lent, one on each page of 16. Page after page is written, none a second time, so that
/// the bytes tell all records ever put, taken or not.
#[derive(Drop)]
pub struct Book<'a, V> {
    bytes: &'a mut [u8],
    /// How many records were ever put.
    count: usize,
    /// How many of them were taken.
    taken: usize,
    /// Names the scale of its records, and is empty.
    // No marker: with one of `V` a book is not `Send` for a scale that is `Sync` alone, and with one of a loan the check finds
    // no proof of what the bytes hold after the book.
    scale: &'a [V],
    ghost room: { 16 * count ≤ length bytes.now },
    ghost order: { taken ≤ count },
}
