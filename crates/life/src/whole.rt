//! One monitor's life.
ghost use Rattle.std.specs.Prelude.{◌≡◌, ℕ, ◌-◌, ◌≤◌, [], vec_len, vec_capacity, MatchResult};
ghost use Rattle.source.specs.Frames.{answer};
ghost use Rattle.monitor.specs.Calls.{as_totals};
ghost use Rattle.calls.specs.States.{box_of, state_of};
ghost use Rattle.life.specs.Lives.{Life, ClosedLife};

use super::caller::Caller;
use calls::call::{Answer, Call};
use calls::make;
use monitor::totals::Totals;
use monitor::watch::Monitor;
use outbox::Outbox;
use scale::Scale;
use source::Source;
use std::alloc::{AllocError, Global};
use table_check::plan::Plan;

// What a life is lent is not one struct: memory, outbox, caller and log are borrowed apart and come back changed, so that
// the contract would name each of them in any case. That a loan stays is said of old and new, which no invariant can.

/// Sets up one monitor, makes the calls that the caller names until it ends or the log's room is used, writes each call with
/// its answer into the log, and hands the monitor back.
pub fn live_on<'m, V: Scale, S: Source<Value = V>, O: Outbox<V>, C: Caller<Option<Answer<V>>>>(
    plan: Plan,
    memory: &'m mut [V],
    source: &S,
    outbox: &mut O,
    caller: &mut C,
    log: &mut Vec<(Call, Answer<V>)>,
) -> Monitor<'m, V>
    ensures life { Life V.Scale.scale (answer S.layer (S.frames source.now)) (box_of O.waiting O.free O.regained) C.names C.after plan memory.old outbox.old (vec_capacity log.old - vec_len log.old) caller.old caller.new log.old.items log.new.items (state_of result outbox.new) }
    ensures lends { result.memory.ghost_name ≡ memory.entry.ghost_name }
{
    let mut monitor = Monitor::set_up(plan, memory);
    let mut last: Option<Answer<V>> = None;
    let room = log.capacity() - log.len();
    for _ in 0..room {
        let Some(call) = caller.next(last) else {
            break;
        };
        let answer = make(&mut monitor, source, outbox, call);
        log.push_reserved((call, answer));
        last = Some(answer);
    }
    monitor
}

/// The same, with the monitor closed at its end.
pub fn live_closed<V: Scale, S: Source<Value = V>, O: Outbox<V>, C: Caller<Option<Answer<V>>>>(
    plan: Plan,
    memory: &mut [V],
    source: &S,
    outbox: &mut O,
    caller: &mut C,
    log: &mut Vec<(Call, Answer<V>)>,
) -> Totals
    ensures { ClosedLife V.Scale.scale (answer S.layer (S.frames source.now)) (box_of O.waiting O.free O.regained) C.names C.after plan memory.old memory.new outbox.old outbox.new (vec_capacity log.old - vec_len log.old) caller.old caller.new log.old.items log.new.items (as_totals result) }
{
    let monitor = live_on(plan, memory, source, outbox, caller, log);
    monitor.close()
}

/// The same, with a log of its own: its room for `most` calls is got first, and where there is none, all is as before.
pub fn live<V: Scale, S: Source<Value = V>, O: Outbox<V>, C: Caller<Option<Answer<V>>>>(
    heap: Global,
    plan: Plan,
    memory: &mut [V],
    source: &S,
    outbox: &mut O,
    caller: &mut C,
    most: usize,
) -> Result<(Vec<(Call, Answer<V>)>, Totals), AllocError>
    ensures { MatchResult result (λ p. ((room : ℕ) × ((most ≤ room) × ClosedLife V.Scale.scale (answer S.layer (S.frames source.now)) (box_of O.waiting O.free O.regained) C.names C.after plan memory.old memory.new outbox.old outbox.new room caller.old caller.new [] p.0.items (as_totals p.1)))) (λ _. (memory.new ≡ memory.old) × (outbox.new ≡ outbox.old) × (caller.new ≡ caller.old)) }
{
    let mut log = Vec::with_capacity(heap, most)?;
    let totals = live_closed(plan, memory, source, outbox, caller, &mut log);
    Ok((log, totals))
}
