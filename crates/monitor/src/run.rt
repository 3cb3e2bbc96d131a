//! One tick, over a monitor's state and its memory.
ghost use Rattle.std.specs.Prelude.{◌≡◌, length, MatchResult, nat_lt};
ghost use Rattle.std.specs.Result.{result_err};
ghost use Rattle.source.specs.Frames.{answer};
ghost use Rattle.table.specs.Places.{burst};
ghost use Rattle.engine.specs.Refusals.{tick_fault};
ghost use Rattle.engine.specs.Represents.{monitored};
ghost use Rattle.monitor.specs.Running.{Ran};

use super::rules::{issue, settled_by};
use engine::fault::TickFault;
use engine::state::Core;
use outbox::Outbox;
use scale::Scale;
use source::Source;

/// One tick: every node is taken on, and what the rules newly settle is put into the outbox.
pub(crate) fn run_tick<V: Scale, S: Source<Value = V>, O: Outbox<V>>(
    core: &mut Core,
    memory: &mut [V],
    source: &S,
    outbox: &mut O,
) -> Result<(), TickFault>
    ensures fault { result_err result ≡ tick_fault (monitored core.old) core.old.ticks (length memory.old) (nat_lt (O.free outbox.old) (burst (monitored core.old))) (answer S.layer (S.frames source.now) core.old.ticks) }
    ensures outcome { MatchResult result (λ _. Ran V.Scale.scale (answer S.layer (S.frames source.now) core.old.ticks) O.waiting O.free core.old core.new memory.old memory.new outbox.old outbox.new) (λ _. (core.new ≡ core.old) × (memory.new ≡ memory.old) × (outbox.new ≡ outbox.old)) }
{
    let cramped = outbox.room() < core.plan().burst() as usize;
    let olds = settled_by(core);
    core.advance(source, memory, cramped)?;
    issue(core, memory, olds, outbox);
    Ok(())
}
