//! What the counters of a monitor come to.
ghost use Rattle.std.specs.Prelude.{◌≡◌};
ghost use Rattle.monitor.specs.Calls.{as_totals, totals_of};

use super::{RuleTotal, Totals};
use engine::state::Core;

/// The ticks, and of each rule what its node has settled; every other tick is open.
pub(crate) fn total_up(core: &Core) -> Totals
    ensures { as_totals result ≡ totals_of core.now }
{
    let ticks = core.ticks();
    let nodes = core.plan().rules();
    let mut rules = [RuleTotal {
        settled: 0,
        open: 0,
    }; 16];
    for (r, node) in nodes.iter().enumerate() {
        let settled = core.settled(usize::from(*node));
        rules[r] = RuleTotal {
            settled,
            open: ticks.saturating_sub(settled),
        };
    }
    Totals {
        ticks,
        rules,
        count: nodes.len(),
    }
}
