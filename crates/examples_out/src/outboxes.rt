//! How a caller uses an outbox, and runs as examples.
ghost use Rattle.std.specs.Prelude.{◌≡◌, ◌<◌, ◌≤◌, [], length, MatchResult};
ghost use Rattle.scale.specs.YesNoScale.{yes_no_code};
ghost use Rattle.book.specs.Format.{stored};
ghost use Rattle.book.specs.Pages.{with_page};

use book::Book;
use book::format::stored;
use book::reading::Readable;
use margin::Margin;
use outbox::fault::PutFault;
use outbox::{Outbox, put_all, take_all};
use queue::Ring;
use record::Record;
use scale::Scale;
use scale::yes_no::YesNo;
use std::test::Fail;

/// One record in a book of its own stands in the first 16 bytes, and all others are as they were.
fn put_first(bytes: &mut [u8], record: &Record<YesNo>) -> Result<(), PutFault>
    ensures { MatchResult result (λ _. bytes.new ≡ with_page bytes.old 0 (stored yes_no_code «record».now)) (λ _. (length bytes.old < 16) × (bytes.new ≡ bytes.old)) }
{
    let mut book = Book::new(bytes);
    book.put(record)
}

fn needs_send<T: Send>() {}

/// A book of a scale that is `Sync` can go to another thread; it holds no value of the scale, which need not be `Send`.
fn sent<'a, V: Readable + Sync + 'a>() {
    needs_send::<Book<'a, V>>()
}

/// Whatever the outbox, what was put comes back in the order in which it was put.
fn there_and_back<V: Scale, O: Outbox<V>>(
    outbox: &mut O,
    records: &[Record<V>],
    places: &mut [Record<V>],
) -> usize
    ensures { O.Outbox.waiting outbox.old ≡ [] → length records.now ≤ O.Outbox.free outbox.old → length places.old ≡ length records.now → places.new ≡ records.now }
{
    let _ = put_all(outbox, records);
    take_all(outbox, places)
}

fn told(rule: u8, first: u32, value: YesNo) -> Record<YesNo> {
    Record {
        rule,
        first,
        last: first,
        value,
        lag: 0,
    }
}

#[test]
fn a_yes_at_0_is_all_zero_but_byte_3(rt: HostRuntime) {
    let mut bytes = [0u8; 16];
    bytes[3] = 1;
    assert_eq!(rt; stored(&told(0, 0, YesNo::Yes)), bytes);
}

#[test]
fn a_ring_makes_room_as_records_are_taken(rt: HostRuntime) -> Result<(), Fail> {
    let mut slots = [told(9, 9, YesNo::No); 2];
    let mut ring = Ring::new(&mut slots);
    let records = [
        told(0, 1, YesNo::Yes),
        told(0, 2, YesNo::No),
        told(1, 2, YesNo::Yes),
    ];
    assert_eq!(rt; put_all(&mut ring, &records), Err(PutFault::Full));
    assert_eq!(rt; PutFault::Full.number(), 62);
    let Ok(oldest) = ring.take() else {
        return Err(Fail::new("two records wait"));
    };
    assert_eq!(rt; (oldest.rule, oldest.first), (0, 1));
    assert_eq!(rt; ring.room(), 1);
    Ok(())
}

#[test]
fn a_book_keeps_what_was_taken(rt: HostRuntime) -> Result<(), Fail> {
    let mut bytes = [0xeeu8; 40];
    let records = [told(0, 1, YesNo::Yes), told(0, 2, YesNo::No)];
    let mut places = [told(9, 9, YesNo::No); 2];
    let mut book = Book::new(&mut bytes);
    assert_eq!(rt; there_and_back(&mut book, &records, &mut places), 2);
    assert_eq!(rt; (places[0].first, places[1].first), (1, 2));
    assert_eq!(rt; book.room(), 0);
    let Err(fault) = book.take() else {
        return Err(Fail::new("nothing waits"));
    };
    assert_eq!(rt; fault.number(), 61);
    assert_eq!(rt; &bytes[0..16], stored(&records[0]).as_slice());
    assert_eq!(rt; &bytes[16..32], stored(&records[1]).as_slice());
    assert_eq!(rt; &bytes[32..40], [0xeeu8; 8].as_slice());
    Ok(())
}

#[test]
fn a_record_of_any_size_comes_back_whole(rt: HostRuntime) -> Result<(), Fail> {
    let record = Record {
        rule: 255,
        first: u32::MAX - 1,
        last: u32::MAX,
        value: Margin::lowest(),
        lag: 0x0102_0304,
    };
    let mut bytes = [0u8; 16];
    let mut book = Book::new(&mut bytes);
    assert!(rt; book.put(&record).is_ok());
    let Ok(back) = book.take() else {
        return Err(Fail::new("a record waits"));
    };
    assert_eq!(rt; (back.rule, back.value), (255, Margin::lowest()));
    assert_eq!(rt;
        [back.first, back.last, back.lag],
        [u32::MAX - 1, u32::MAX, 0x0102_0304]
    );
    Ok(())
}
