//! Several records at once, for every outbox.
ghost use Rattle.std.specs.Prelude.{◌≡◌, ℕ, ◌-◌, ◌<◌, ◌≤◌, min, ◌++◌, length, take, drop, MatchResult};
ghost use Rattle.outbox.specs.Refusals.{put_refusal};

use super::Outbox;
use super::fault::PutFault;
use record::Record;
use scale::Scale;

/// Puts these records one after another, as many as there is room for. It is refused where they are not all put.
pub fn put_all<V: Scale, O: Outbox<V>>(
    outbox: &mut O,
    records: &[Record<V>],
) -> Result<(), PutFault>
    ensures waiting { O.Outbox.waiting outbox.new ≡ O.Outbox.waiting outbox.old ++ take (O.Outbox.free outbox.old) records.now }
    ensures free { O.Outbox.free outbox.new ≡ O.Outbox.free outbox.old - length records.now }
    ensures refused { MatchResult result (λ _. length records.now ≤ O.Outbox.free outbox.old) (λ fault. (O.Outbox.free outbox.old < length records.now) × (put_refusal fault ≡ 62)) }
{
    for record in records {
        outbox.put(record)?;
    }
    Ok(())
}

/// Takes the oldest records into these places, as many as wait and as there are places. It answers how many.
pub fn take_all<V: Scale, O: Outbox<V>>(outbox: &mut O, places: &mut [Record<V>]) -> usize
    ensures taken { result ≡ min (length (O.Outbox.waiting outbox.old)) (length places.old) }
    ensures places { places.new ≡ take result (O.Outbox.waiting outbox.old) ++ drop result places.old }
    ensures waiting { O.Outbox.waiting outbox.new ≡ drop result (O.Outbox.waiting outbox.old) }
    ensures free { O.Outbox.free outbox.old ≤ O.Outbox.free outbox.new }
{
    for (i, place) in places.iter_mut().enumerate() {
        let Ok(oldest) = outbox.take() else {
            return i;
        };
        *place = oldest;
    }
    places.len()
}
