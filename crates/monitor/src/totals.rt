//! What close gives.
ghost use Rattle.std.specs.Prelude.{◌≡◌, ◌≤◌, take};

mod sums;

pub(crate) use sums::total_up;

/// How many positions of a rule are settled, and how many are not: what is open is neither yes nor no.
#[derive(Clone, Copy)]
pub struct RuleTotal {
    pub settled: usize,
    pub open: usize,
}

/// The ticks that were accepted, and the total of each rule in its order.
#[derive(Clone, Copy)]
pub struct Totals {
    ticks: usize,
    // An array and its count, since totals are plain data that can be copied; there are at most 16 rules.
    rules: [RuleTotal; 16],
    count: usize,
    ghost few: { count ≤ 16 },
}

impl Totals {
    /// How many ticks were accepted.
    pub fn ticks(&self) -> usize
        ensures { result ≡ self.now.ticks }
    {
        self.ticks
    }

    /// The total of each rule.
    pub fn rules(&self) -> &[RuleTotal]
        ensures { result.now ≡ take self.now.count self.now.rules }
    {
        &self.rules[0..self.count]
    }
}
