//! Where the samples of a monitor come from. A source has a length in ticks, a width in samples, and at each tick and
//! sample below these a value of its scale or a fault. Asked, it answers exactly that; asked for a tick past its length,
//! or else a sample past its width, it refuses with its own layer, the tick and the sample. A question changes nothing.
//! So a source can neither end early nor make up a value, and code above any source may lean on this one answer, as
//! `first_fault` does. `Rows` are a lent list of values; the crate `comparators` has a source over another one. Read
//! `specs/Frames.antt` first.
#![tactic(auto)]

pub mod fault;
pub mod rows;

ghost use Rattle.std.specs.Prelude.{◌≡◌, ℕ};
ghost use Rattle.source.specs.Frames.{Frames, answer, first_fault};

use fault::Fault;
use scale::Scale;

/// A source of samples.
pub trait Source {
    /// The scale of its values.
    type Value: Scale;

    /// The layer that its own faults name.
    const LAYER: u8;

    /// The layer constant as contracts name it: in an impl with a lifetime, as that of `Rows`, the check cannot tie a ghost
    /// member to a constant of its own name.
    ghost layer: { ℕ };

    /// Its length, its width, and what it holds at each tick and sample.
    ghost frames: { Self → Frames Self.Value };

    /// The layer constant as code above any source can ask for it.
    fn layer_number() -> u8
        ensures { result ≡ layer };

    /// How many ticks there are.
    fn length(&self) -> usize
        ensures { result ≡ (frames self.now).long };

    /// How many samples each tick has.
    fn width(&self) -> usize
        ensures { result ≡ (frames self.now).wide };

    /// The value of a sample at a tick, or the fault in its place.
    fn ask(&self, tick: usize, sample: usize) -> Result<Self::Value, Fault>
        ensures { result ≡ answer layer (frames self.now) tick sample };
}

/// The first fault among the answers for these samples at the tick, in their order.
pub fn first_fault<S: Source>(source: &S, tick: usize, samples: &[usize]) -> Option<Fault>
    ensures { result ≡ first_fault (answer S.layer (S.frames source.now) tick) samples.now }
{
    // A fault is what is asked for, so an `Option` of one and no `Result`.
    samples
        .iter()
        .find_map(|sample| source.ask(tick, *sample).err())
}
