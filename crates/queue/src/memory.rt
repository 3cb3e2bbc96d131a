//! Many queues in one memory, each in a region `from..to` of its own.
ghost use Rattle.std.specs.Prelude.{◌≡◌, ℕ, ◌-◌, [], ◌∷◌, ◌++◌, length, None, MatchResult};
ghost use Rattle.std.specs.List.{slice_get};
ghost use Rattle.queue.specs.Contents.{contents, Fits, newest};
ghost use Rattle.queue.specs.Regions.{held, Stands, divided, gained};

use super::{Misfit, Ring, Stand};

/// One more element in the queue that stands so in these slots; in a full queue the oldest makes room for it.
fn keep_in<T: Copy>(slots: &mut [T], at: Stand, x: T) -> Result<Stand, Misfit>
    ensures stand { MatchResult result (λ next. Fits (length slots.old) at × Fits (length slots.old) next) (λ _. Fits (length slots.old) at → ⊥) }
    ensures slots { MatchResult result (λ next. contents slots.new next ≡ newest (length slots.old) (contents slots.old at ++ x ∷ [])) (λ _. slots.new ≡ slots.old) }
{
    let mut queue = Ring::new(slots);
    queue.resume(at)?;
    queue.keep(x);
    Ok(queue.stand())
}

// Region and stand come apart, since a caller has its region for good, and each call answers the next stand.

/// One more element in the queue that stands so in this region; in a full queue the oldest makes room for it. It answers
/// where the queue stands then. A region that does not lie in the memory, or a stand that does not fit it, is refused.
#[tactic(auto, using(crate::proofs::Regions::kept_memory))]
pub fn keep_at<T: Copy>(
    memory: &mut [T],
    from: usize,
    to: usize,
    at: Stand,
    x: T,
) -> Result<Stand, Misfit>
    ensures stand { MatchResult result (λ next. Stands (length memory.old) from to at × Stands (length memory.old) from to next) (λ _. Stands (length memory.old) from to at → ⊥) }
    ensures memory { MatchResult result (λ next. divided memory.new from to next ≡ gained (to - from) (divided memory.old from to at) x) (λ _. memory.new ≡ memory.old) }
{
    // A test and no `get_mut`: after one, a proof knows no element of the memory.
    if from > to || to > memory.len() {
        return Err(Misfit);
    }
    keep_in(&mut memory[from..to], at, x)
}

/// The i-th oldest element of the queue that stands so in this region. A region that does not lie in the memory, or a
/// stand that does not fit it, holds nothing to read.
pub fn read_at<T: Copy>(memory: &[T], from: usize, to: usize, at: Stand, i: usize) -> Option<T>
    ensures read { Stands (length memory.now) from to at → result ≡ slice_get (held memory.now from to at) i }
    ensures misfit { (Stands (length memory.now) from to at → ⊥) → result ≡ None }
{
    let slots = memory.get(from..to)?;
    if !at.fits(slots.len()) {
        return None;
    }
    Ring::read(slots, at, i)
}
