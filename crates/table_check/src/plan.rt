//! The plan of an accepted table.
ghost use Rattle.std.specs.Prelude.{◌≡◌, ℕ, ◌<◌, true, slice_index};
ghost use Rattle.table_check.specs.Drafts.{drafted};
ghost use Rattle.table.specs.Places.{places as places_of, need as need_of, burst as burst_of};
ghost use Rattle.table.specs.Refusals.{passes};

use super::judge::Judged;
use super::rules::Named;

/// A table that passed the check, with its lags, places, need and burst. Only the check makes one.
// Arrays and no `ArrayVec`, since a plan is plain data that is copied; a table has at most 64 nodes and 16 rules.
#[derive(Clone, Copy)]
pub struct Plan {
    judged: Judged,
    named: Named,
    places: [u32; 64],
    need: u32,
    burst: u32,
    ghost passed: { passes (drafted judged named) ≡ true },
    ghost places_are: { (k : ℕ) → k < judged.size → slice_index places k ≡ places_of (drafted judged named) k },
    ghost need_is: { need ≡ need_of (drafted judged named) },
    ghost burst_is: { burst ≡ burst_of (drafted judged named) },
}

mod calls;

pub use calls::check;
