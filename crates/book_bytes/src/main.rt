//! How records stand in a book: the bytes of a book of yes/no verdicts and of a book of margins, in hexadecimal, 16 to a
//! line. A line that a record fills reads, from the left: rule, a zero byte, the code of the value (2 bytes), first, last
//! and lag (4 bytes each). All bytes hold `ee` before, so that those that no record fills are seen to stay.
#![tactic(auto)]

use book::Book;
use book::reading::Readable;
use margin::Margin;
use outbox::{Outbox, put_all};
use record::Record;
use scale::Scale;
use scale::yes_no::YesNo;
use std::io;

const fn told<V: Copy>(rule: u8, first: u32, last: u32, value: V, lag: u32) -> Record<V> {
    Record {
        rule,
        first,
        last,
        value,
        lag,
    }
}

fn verdicts() -> [Record<YesNo>; 4] {
    [
        told(0, 0, 0, YesNo::Yes, 0),
        told(1, 1, 3, YesNo::No, 2),
        told(15, 70_000, 70_001, YesNo::Yes, 258),
        told(0, 1, 1, YesNo::No, 0),
    ]
}

fn margins() -> Option<[Record<Margin>; 3]> {
    Some([
        told(2, 0, 0, Margin::new(5)?, 1),
        told(2, 1, 4, Margin::new(-3)?, 0),
        told(3, 16_777_215, 16_777_215, Margin::new(32_767)?, 16_383),
    ])
}

/// Puts the records into a book over these bytes, and takes the oldest again.
fn fill<V: Readable>(rt: &HostRuntime, bytes: &mut [u8], records: &[Record<V>]) -> io::Result<()> {
    let mut book = Book::new(bytes);
    match put_all(&mut book, records) {
        Ok(()) => rt.println("all put")?,
        Err(fault) => println!(rt; "refused {}", fault.number())?,
    }
    match book.take() {
        Ok(oldest) => println!(rt;
            "taken: rule {}, {} to {}",
            oldest.rule, oldest.first, oldest.last
        )?,
        Err(fault) => println!(rt; "refused {}", fault.number())?,
    }
    println!(rt; "room for {}", book.room())
}

/// The bytes of one line, with a blank between two.
fn show_line(rt: &HostRuntime, line: &[u8]) -> io::Result<()> {
    for (i, b) in line.iter().enumerate() {
        let gap = if i == 0 { "" } else { " " };
        print!(rt; "{gap}{b:02x}")?;
    }
    rt.println("")
}

fn show(rt: &HostRuntime, bytes: &[u8]) -> io::Result<()> {
    bytes.chunks(16).try_for_each(|line| show_line(rt, line))
}

fn main(rt: HostRuntime) -> io::Result<()> {
    // Three pages, and a rest that is too short for one.
    let mut bytes = [0xee; 56];
    rt.println("a book of yes/no")?;
    fill(&rt, &mut bytes, &verdicts())?;
    show(&rt, &bytes)?;
    let mut bytes = [0xee; 64];
    rt.println("\na book of margins")?;
    if let Some(records) = margins() {
        fill(&rt, &mut bytes, &records)?;
    }
    show(&rt, &bytes)
}
