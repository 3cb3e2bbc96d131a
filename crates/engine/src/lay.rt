//! Where the queues lie.
ghost use Rattle.std.specs.Prelude.{ℕ, ◌<◌, ◌≤◌, length};
ghost use Rattle.engine.specs.Laying.{Laid};
ghost use Rattle.engine.specs.State.{keep_of};

use super::keep::{Keep, NOWHERE};

/// An empty queue for each node, one behind the other: the places of each, and two values more for its ends.
pub(crate) fn lay_out(places: &[u32]) -> [Keep; 64]
    requires { length places.now ≤ 64 }
    ensures { (k : ℕ) → k < length places.now → Laid places.now k (keep_of result k) }
{
    let mut keeps = [NOWHERE; 64];
    let mut from = 0;
    for (k, place) in places.iter().enumerate() {
        let to = from + *place as usize;
        keeps[k] = Keep {
            from,
            to,
            ..NOWHERE
        };
        from = to + 2;
    }
    keeps
}
