//! What the rules of a monitor have settled, and what they tell.
ghost use Rattle.std.specs.Prelude.{◌≡◌, ℕ, ◌-◌, ◌<◌, ◌≤◌, length, slice_index};
ghost use Rattle.table.specs.Places.{need};
ghost use Rattle.table.specs.Tables.{rule_node};
ghost use Rattle.engine.specs.Represents.{monitored};
ghost use Rattle.engine.specs.State.{keep_of};
ghost use Rattle.monitor.specs.Issuing.{TickIssued};

use super::tell::tell_all;
use engine::state::Core;
use engine::ticks::Tick;
use outbox::Outbox;
use scale::Scale;

/// How many positions the node of each rule has settled.
pub(crate) fn settled_by(core: &Core) -> [usize; 16]
    ensures { (r : ℕ) → r < length (monitored core.now).rules → slice_index result r ≡ (keep_of core.now.keeps (rule_node (monitored core.now) r)).count }
{
    let rules = core.plan().rules();
    // An array, since a plan has at most 16 rules and a tick needs no heap.
    let mut settled = [0; 16];
    for (r, node) in rules.iter().enumerate() {
        settled[r] = core.settled(usize::from(*node));
    }
    settled
}

/// Puts what the last tick issues, over a copy of the plan's rules: of each what its node settled beyond its count in `olds`.
pub(crate) fn issue<V: Scale, O: Outbox<V>>(
    core: &Core,
    memory: &[V],
    olds: [usize; 16],
    outbox: &mut O,
)
    requires room { need (monitored core.now) ≤ length memory.now }
    requires ticked { 0 < core.now.ticks }
    ensures { TickIssued O.Outbox.waiting O.Outbox.free outbox.old outbox.new V.Scale.scale (monitored core.now).rules olds memory.now core.now.keeps (core.now.ticks - 1) }
{
    let (rules, count) = core.plan().copy_rules();
    let tick = Tick {
        number: core.ticks() - 1,
    };
    tell_all(rules, count, memory, core.keeps(), olds, tick, outbox);
}
