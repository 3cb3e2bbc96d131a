//! After a tick: the records of what each rule's node newly settled.
ghost use Rattle.std.specs.Prelude.{◌+◌, ◌≤◌, [], ◌∷◌, length, take};
ghost use Rattle.queue.specs.Regions.{Stands};
ghost use Rattle.monitor.specs.Issuing.{run, queue_runs, Offered, RulesStand, TickIssued};

use engine::agree;
use engine::keep::{Keep, keep_of, read};
use engine::ticks::Tick;
use outbox::Outbox;
use record::Record;
use scale::Scale;

/// Puts the record of a rule's positions from `first` to `last`, issued at this tick. Where nothing is free it is refused.
fn tell_run<V: Scale, O: Outbox<V>>(
    rule: u8,
    first: usize,
    last: usize,
    value: V,
    tick: Tick,
    outbox: &mut O,
)
    requires { (first ≤ last) × (last ≤ tick.number) }
    ensures { Offered O.Outbox.waiting O.Outbox.free outbox.old outbox.new (run rule tick.number first last value ∷ []) }
{
    let record = Record {
        rule,
        first: first as u32,
        last: last as u32,
        value,
        lag: (tick.number - first) as u32,
    };
    let _ = outbox.put(&record);
}

/// Puts the records of a rule's positions from `old` on, as its node's queue has them after this tick: upward, equal
/// neighbours in one record, as many records as there is room for.
fn tell_rule<V: Scale, O: Outbox<V>>(
    memory: &[V],
    keep: Keep,
    rule: u8,
    old: usize,
    tick: Tick,
    outbox: &mut O,
)
    requires stands { Stands (length memory.now) keep.from keep.to keep.at }
    requires ticked { keep.count ≤ tick.number + 1 }
    ensures { Offered O.Outbox.waiting O.Outbox.free outbox.old outbox.new (queue_runs V.Scale.scale memory.now rule tick.number old keep) }
{
    if old >= keep.count {
        return;
    }
    let mut first = old;
    let mut value = read(memory, keep, old, V::lowest());
    // By position, since positions go round in the queue and lie side by side in no slice.
    for p in old + 1..keep.count {
        let next = read(memory, keep, p, V::lowest());
        if agree(value, next) {
            continue;
        }
        tell_run(rule, first, p - 1, value, tick, outbox);
        first = p;
        value = next;
    }
    tell_run(rule, first, keep.count - 1, value, tick, outbox);
}

/// Puts what a tick issues, the rules in rising number: of each rule what its node settled beyond its count in `olds`.
pub(crate) fn tell_all<V: Scale, O: Outbox<V>>(
    rules: [u8; 16],
    count: usize,
    memory: &[V],
    keeps: &[Keep],
    olds: [usize; 16],
    tick: Tick,
    outbox: &mut O,
)
    requires few { count ≤ 16 }
    requires stand { RulesStand rules count keeps.now (length memory.now) tick.number }
    ensures { TickIssued O.Outbox.waiting O.Outbox.free outbox.old outbox.new V.Scale.scale (take count rules) olds memory.now keeps.now tick.number }
{
    // By index: a rule's number stands in its records, and names both its node and its count.
    for r in 0..count {
        let keep = keep_of(keeps, rules[r] as usize);
        tell_rule(memory, keep, r as u8, olds[r], tick, outbox);
    }
}
