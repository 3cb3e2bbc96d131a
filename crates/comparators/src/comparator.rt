//! One comparator.
ghost use Rattle.std.specs.Prelude.{◌≡◌, IfOk};
ghost use Rattle.std.specs.Result.{result_err};
ghost use Rattle.comparators.specs.Adding.{unmade, Says};
ghost use Rattle.comparators.specs.Comparing.{compared, said};
ghost use Rattle.source.specs.Frames.{answer};
ghost use Rattle.comparators.specs.Terms.{Narrow};

use super::adding::{AddFault, Given};
use super::comparison::Comparison;
use super::scaled::Scaled;
use margin::Margin;
use scale::Scale;
use scale::yes_no::YesNo;
use source::Source;
use source::fault::Fault;

/// The sum of two terms, held against a limit.
#[derive(Clone, Copy, Default)]
pub struct Comparator {
    pub first: Scaled,
    pub second: Scaled,
    pub comparison: Comparison,
    pub limit: i32,
}

impl TryFrom<Given> for Comparator {
    type Error = AddFault;

    ghost try_from_gives = { λ given made. (result_err made ≡ unmade given) × IfOk made (λ x. Says x given) };

    fn try_from(given: Given) -> Result<Comparator, AddFault> {
        Ok(Comparator {
            first: Scaled::try_from(given.first)?,
            second: Scaled::try_from(given.second)?,
            comparison: Comparison::try_from(given.comparison)?,
            limit: given.limit,
        })
    }
}

impl Comparator {
    /// Yes if the sum meets the limit; a fault from below as it is, the first term's first.
    pub fn judge<S: Source<Value = Margin>>(self, below: &S, tick: usize) -> Result<YesNo, Fault>
        ensures { result ≡ compared (answer S.layer (S.frames below.now) tick) self }
    {
        let first = self.first.work_out(below, tick)?;
        let second = self.second.work_out(below, tick)?;
        Ok(self.say(first, second))
    }

    /// Yes if the sum of the two parts meets the limit.
    fn say(self, first: i32, second: i32) -> YesNo
        requires first { Narrow first }
        requires second { Narrow second }
        ensures { result ≡ said self first second }
    {
        YesNo::from(self.comparison.is_met(first + second, self.limit))
    }
}
