//! Yes or no over a source of margins. Each comparator adds up two scaled samples of the source below and holds the sum
//! against a limit. `Comparators` are a source: every question gets exactly the one answer that is defined for them, a
//! fault from below as it is. A comparator is added after the others, or refused for the first reason that applies, and
//! then nothing changes. Read `specs/Comparing.antt` first, then `specs/Adding.antt`.
#![tactic(auto)]

pub mod adding;
mod comparator;
mod comparison;
mod scaled;

ghost use Rattle.std.specs.Prelude.{◌≡◌, ◌≤◌, true, [], length, is_ok, is_err};
ghost use Rattle.std.specs.Result.{result_err};
ghost use Rattle.comparators.specs.Adding.{unadded, Added};
ghost use Rattle.comparators.specs.Comparing.{comparing};

use adding::{AddFault, Given};
use arrayvec::ArrayVec;
use comparator::Comparator;
use margin::Margin;
use scale::Scale;
use scale::yes_no::YesNo;
use source::Source;
use source::fault::{Fault, refuse};

/// The layer of comparators.
const COMPARATORS_LAYER: u8 = 3;

/// Up to 32 comparators over a source of margins: as long as that source, and as wide as comparators were added.
#[derive(Drop)]
pub struct Comparators<S> {
    below: S,
    /// In the value itself, so that to add one needs no allocator and has no other refusal.
    held: ArrayVec<Comparator, 32>,
    ghost few: { length held.items ≤ 32 },
}

impl<S: Source<Value = Margin>> Comparators<S> {
    /// No comparators yet.
    pub fn new(below: S) -> Comparators<S>
        ensures below { result.below ≡ below }
        ensures empty { result.held.items ≡ [] }
    {
        Comparators {
            below,
            held: ArrayVec::new(),
        }
    }

    /// Adds a comparator after the others, or changes nothing.
    pub fn add(&mut self, given: Given) -> Result<(), AddFault>
        ensures refusal { result_err result ≡ unadded (length self.old.held.items) given }
        ensures refused { is_err result ≡ true → self.new ≡ self.old }
        ensures below { self.new.below ≡ self.old.below }
        ensures added { is_ok result ≡ true → Added self.old.held.items self.new.held.items given }
    {
        if self.held.is_full() {
            return Err(AddFault::Full);
        }
        self.held.push(Comparator::try_from(given)?);
        Ok(())
    }
}

impl<S: Source<Value = Margin>> Source for Comparators<S> {
    type Value = YesNo;

    const LAYER: u8 = COMPARATORS_LAYER;

    ghost layer = { 3 };

    ghost frames = { λ s. comparing S.Source.layer (S.Source.frames s.below) s.held.items };

    fn layer_number() -> u8 {
        COMPARATORS_LAYER
    }

    fn length(&self) -> usize {
        self.below.length()
    }

    fn width(&self) -> usize {
        self.held.len()
    }

    fn ask(&self, tick: usize, sample: usize) -> Result<YesNo, Fault> {
        refuse(COMPARATORS_LAYER, self.length(), self.width(), tick, sample)?;
        self.held[sample].judge(&self.below, tick)
    }
}
