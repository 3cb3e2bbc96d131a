//! How a term is made of plain numbers, and worked out.
ghost use Rattle.std.specs.Prelude.{◌≡◌, ◌^◌, false, pos, ◌*ℤ◌, IfOk};
ghost use Rattle.comparators.specs.Comparing.{asked, part};
ghost use Rattle.comparators.specs.Adding.{Makes};
ghost use Rattle.source.specs.Frames.{answer};
ghost use Rattle.comparators.specs.Terms.{signed, sign_number, fair, as_given, weighed, Narrow};
ghost use Rattle.comparators.specs.declared.adding.AddFault.TheVariants.{BadTerm};

use super::super::adding::{AddFault, Term};
use super::{Scaled, Sign};
use margin::Margin;
use scale::Scale;
use source::Source;
use source::fault::Fault;

impl TryFrom<i32> for Sign {
    type Error = AddFault;

    ghost try_from_gives = { λ number made. Makes sign_number (signed number) BadTerm number made };

    fn try_from(number: i32) -> Result<Sign, AddFault> {
        match number {
            -1 => Ok(Sign::Minus),
            0 => Ok(Sign::Zero),
            1 => Ok(Sign::Plus),
            _ => Err(AddFault::BadTerm),
        }
    }
}

impl TryFrom<Term> for Scaled {
    type Error = AddFault;

    ghost try_from_gives = { λ term made. Makes as_given (fair term) BadTerm term made };

    fn try_from(term: Term) -> Result<Scaled, AddFault> {
        let sign = Sign::try_from(term.sign)?;
        if term.shift > 7 {
            return Err(AddFault::BadTerm);
        }
        Ok(Scaled {
            word: term.word,
            sign,
            shift: term.shift as u8,
        })
    }
}

/// A term that asks nothing, for the places where no comparator is held yet. By hand, since a ghost field allows no derive.
impl Default for Scaled {
    ghost is_default = { λ idle. asked idle.sign ≡ false };

    fn default() -> Scaled {
        Scaled {
            word: 0,
            sign: Sign::default(),
            shift: 0,
        }
    }
}

impl Scaled {
    /// The term's part in the sum: its word is asked below, unless its sign is 0.
    pub fn work_out<S: Source<Value = Margin>>(self, below: &S, tick: usize) -> Result<i32, Fault>
        ensures value { result ≡ part (answer S.layer (S.frames below.now) tick) self }
        ensures narrow { IfOk result Narrow }
    {
        match self.sign {
            Sign::Zero => Ok(0),
            Sign::Minus | Sign::Plus => Ok(self.weigh(below.ask(tick, self.word)?)),
        }
    }

    /// Sign times 2^shift times the word's value.
    fn weigh(self, value: Margin) -> i32
        ensures { result ≡ weighed self value.value }
    {
        self.sign as i32 * self.shifted(value)
    }

    /// 2^shift times the word's value; at most 128 times 32,767.
    fn shifted(self, value: Margin) -> i32
        ensures value { result ≡ pos (2 ^ self.shift) *ℤ value.value }
        ensures narrow { Narrow result }
    {
        (1 << self.shift) * i32::from(value.get())
    }
}
