//! One call.
ghost use Rattle.std.specs.Prelude.{◌≡◌};
ghost use Rattle.source.specs.Frames.{answer};
ghost use Rattle.calls.specs.States.{box_of, state_of};
ghost use Rattle.calls.specs.Steps.{Step};

use super::call::{Answer, Call};
use monitor::watch::Monitor;
use outbox::Outbox;
use scale::Scale;
use source::Source;

/// Makes one call on a monitor and its outbox.
pub fn make<'m, V: Scale, S: Source<Value = V>, O: Outbox<V>>(
    monitor: &mut Monitor<'m, V>,
    source: &S,
    outbox: &mut O,
    call: Call,
) -> Answer<V>
    ensures step { Step V.Scale.scale (answer S.layer (S.frames source.now)) (box_of O.waiting O.free O.regained) (state_of monitor.old outbox.old) (state_of monitor.new outbox.new) call result }
    ensures lends { monitor.new.memory.ghost_name ≡ monitor.old.memory.ghost_name }
{
    match call {
        Call::Tick => Answer::Ticked(monitor.tick(source, outbox)),
        Call::Read(rule) => Answer::Ends(monitor.read(rule)),
        Call::Take => Answer::Taken(outbox.take()),
    }
}
