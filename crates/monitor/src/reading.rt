//! The early reading of a rule.
ghost use Rattle.std.specs.Prelude.{◌≡◌, IfOk, slice_index_or};
ghost use Rattle.std.specs.Result.{result_err};
ghost use Rattle.engine.specs.Represents.{monitored};
ghost use Rattle.monitor.specs.Reading.{read_refusal, read_fault, stored_lower, stored_upper};

use engine::keep::keep_of;
use engine::state::Core;
use scale::Scale;

/// Why a rule cannot be read early.
#[derive(Clone, Copy, PartialEq, Eq, Debug)]
pub enum ReadFault {
    /// There is no such rule.
    NoRule = 51,
    /// No tick is accepted yet.
    NoTick = 52,
}

impl ReadFault {
    /// The refusal's number.
    pub fn number(self) -> u8
        ensures { result ≡ read_refusal self }
    {
        self as u8
    }
}

/// What stands in a slot; the lowest value where there is none.
fn value_at<V: Scale>(memory: &[V], slot: usize) -> V
    ensures { result ≡ slice_index_or memory.now slot V.Scale.scale.lowest }
{
    memory.get(slot).copied().unwrap_or(V::lowest())
}

/// The lower and the upper end of a rule's node at the last tick, as they stand behind its queue.
pub(crate) fn read_ends<V: Scale>(core: &Core, memory: &[V], rule: u8) -> Result<(V, V), ReadFault>
    ensures fault { result_err result ≡ read_fault (monitored core.now) core.now.ticks rule }
    ensures lower { IfOk result (λ e. e.0 ≡ stored_lower V.Scale.scale core.now memory.now rule) }
    ensures upper { IfOk result (λ e. e.1 ≡ stored_upper V.Scale.scale core.now memory.now rule) }
{
    let rules = core.plan().rules();
    let node = rules.get(usize::from(rule)).ok_or(ReadFault::NoRule)?;
    if core.ticks() == 0 {
        return Err(ReadFault::NoTick);
    }
    let slot = keep_of(core.keeps(), usize::from(*node)).to;
    Ok((value_at(memory, slot), value_at(memory, slot + 1)))
}
