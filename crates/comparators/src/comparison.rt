//! How a sum is held against a limit.
ghost use Rattle.std.specs.Prelude.{◌≡◌};
ghost use Rattle.comparators.specs.Comparisons.{comparison_number, known, meets};
ghost use Rattle.comparators.specs.Adding.{Makes};
ghost use Rattle.comparators.specs.declared.adding.AddFault.TheVariants.{BadComparison};

use super::adding::AddFault;

/// How a sum is held against a limit.
#[derive(Clone, Copy, Default)]
pub enum Comparison {
    #[default]
    Equal,
    Unequal,
    Below,
    AtMost,
    Above,
    AtLeast,
}

impl TryFrom<u32> for Comparison {
    type Error = AddFault;

    ghost try_from_gives = { λ number made. Makes comparison_number (known number) BadComparison number made };

    fn try_from(number: u32) -> Result<Comparison, AddFault> {
        match number {
            1 => Ok(Comparison::Equal),
            2 => Ok(Comparison::Unequal),
            3 => Ok(Comparison::Below),
            4 => Ok(Comparison::AtMost),
            5 => Ok(Comparison::Above),
            6 => Ok(Comparison::AtLeast),
            _ => Err(AddFault::BadComparison),
        }
    }
}

impl Comparison {
    /// Whether the sum meets the limit.
    pub fn is_met(self, sum: i32, limit: i32) -> bool
        ensures { result ≡ meets self sum limit }
    {
        match self {
            Comparison::Equal => sum == limit,
            Comparison::Unequal => sum != limit,
            Comparison::Below => sum < limit,
            Comparison::AtMost => sum <= limit,
            Comparison::Above => sum > limit,
            Comparison::AtLeast => sum >= limit,
        }
    }
}
