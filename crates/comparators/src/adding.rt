//! What is given to add a comparator, and why it may be refused.
ghost use Rattle.std.specs.Prelude.{◌≡◌};
ghost use Rattle.comparators.specs.Adding.{add_number};

/// A word below with its sign and its shift, in plain numbers that are judged when it is added.
#[derive(Clone, Copy)]
pub struct Term {
    /// The sample number below. Any number will do: the source below refuses the question for a sample that it lacks.
    pub word: usize,
    /// -1, 0 or 1.
    pub sign: i32,
    /// 0 to 7.
    pub shift: u32,
}

/// A comparator in plain numbers, which are judged when it is added.
#[derive(Clone, Copy)]
pub struct Given {
    pub first: Term,
    pub second: Term,
    /// 1 to 6: equal, unequal, below, at most, above, at least.
    pub comparison: u32,
    /// What the sum of the two terms is held against.
    pub limit: i32,
}

/// Why a comparator is not added.
#[derive(Clone, Copy, PartialEq, Eq, Debug)]
pub enum AddFault {
    /// 32 are held.
    Full = 41,
    /// A sign is not -1, 0 or 1, or a shift is above 7.
    BadTerm = 42,
    /// The comparison is not 1 to 6.
    BadComparison = 43,
}

impl AddFault {
    /// The refusal's number.
    pub fn number(self) -> u8
        ensures { result ≡ add_number self }
    {
        self as u8
    }
}
