//! A record in 16 bytes, and back.
ghost use Rattle.std.specs.Prelude.{◌≡◌};
ghost use Rattle.book.specs.Format.{stored, restored, value_of};

use super::reading::Readable;
use record::Record;
use scale::Scale;

/// The 16 bytes of a record: rule, a zero byte, the code of its value, first, last and lag, each with its big end first.
#[tactic(auto, unfolding(crate::specs::Format::stored))]
pub fn stored<V: Scale>(record: &Record<V>) -> [u8; 16]
    ensures { result ≡ stored V.coded «record».now }
{
    let Record {
        rule,
        first,
        last,
        value,
        lag,
    } = *record;
    let [c0, c1] = value.code().to_be_bytes();
    let [f0, f1, f2, f3] = first.to_be_bytes();
    let [l0, l1, l2, l3] = last.to_be_bytes();
    let [g0, g1, g2, g3] = lag.to_be_bytes();
    [
        rule, 0, c0, c1, f0, f1, f2, f3, l0, l1, l2, l3, g0, g1, g2, g3,
    ]
}

/// The record in these 16 bytes.
#[tactic(auto, using(crate::proofs::Formed::value_read, crate::proofs::Pieces::byte_in))]
pub(crate) fn restored<V: Readable>(page: &[u8; 16]) -> Record<V>
    ensures { result ≡ restored (value_of V.Scale.scale V.decoded) page.now }
{
    // Rule, zero byte and code together are 4 bytes, as first, last and lag are each.
    let (fours, _) = page.as_chunks::<4>();
    let [rule, _, c0, c1] = fours[0];
    Record {
        rule,
        first: u32::from_be_bytes(fours[1]),
        last: u32::from_be_bytes(fours[2]),
        // A stored code always has its value; the lowest stands for a code that no record was stored with.
        value: V::decode(u16::from_be_bytes([c0, c1])).unwrap_or(V::lowest()),
        lag: u32::from_be_bytes(fours[3]),
    }
}
