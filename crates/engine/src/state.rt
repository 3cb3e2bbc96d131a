//! What a monitor holds besides its memory.
ghost use Rattle.std.specs.Prelude.{◌≡◌, ℕ, ◌+◌, ◌-◌, ◌<◌, ◌≤◌};
ghost use Rattle.queue.specs.Regions.{Stands};
ghost use Rattle.table.specs.Places.{places, need};
ghost use Rattle.table_check.specs.Plans.{table_of};
ghost use Rattle.table.specs.Tables.{size};
ghost use Rattle.engine.specs.State.{keep_of};

use super::keep::Keep;
use table_check::plan::Plan;

/// The plan, how many ticks are accepted, and the queue of each node: where it lies in the memory, where it stands there,
/// and how many positions are settled. The queues lie one behind the other, each with its places and two values more for
/// the ends of its early reading, all within the need.
#[derive(Clone, Copy)]
pub struct Core {
    plan: Plan,
    ticks: usize,
    // One for each node that a table may have, and no `ArrayVec`, since a core is copied.
    keeps: [Keep; 64],
    ghost few: { ticks ≤ 16777216 },
    ghost rising: { (j k : ℕ) → j < k → k < size (table_of plan) → (keep_of keeps j).to + 2 ≤ (keep_of keeps k).from },
    ghost inside: { (k : ℕ) → k < size (table_of plan) → (keep_of keeps k).to + 2 ≤ need (table_of plan) },
    ghost stands: { (k : ℕ) → k < size (table_of plan) → Stands (need (table_of plan)) (keep_of keeps k).from (keep_of keeps k).to (keep_of keeps k).at },
    ghost roomy: { (k : ℕ) → k < size (table_of plan) → (keep_of keeps k).to - (keep_of keeps k).from ≡ places (table_of plan) k },
    ghost counted: { (k : ℕ) → k < size (table_of plan) → (keep_of keeps k).count ≤ ticks },
}

mod calls;
