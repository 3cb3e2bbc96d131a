//! Margins: how far a rule holds or fails. They are a scale, whole numbers from -32,767 to 32,767 in their order, reversed
//! by negation and coded in 16 bits; each call answers what `specs/MarginScale.antt`, to be read first, says.
#![tactic(auto)]

ghost use Rattle.std.specs.Prelude.{pos, negsuc, ◌≤ℤ◌};

/// A whole number from -32,767 to 32,767: how far a rule holds, below 0 how far it fails.
#[derive(Clone, Copy, PartialEq, Eq, PartialOrd, Ord, Hash, Debug)]
pub struct Margin {
    value: i16,
    ghost low: { negsuc 32766 ≤ℤ value },
    ghost high: { value ≤ℤ pos 32767 },
}

mod calls;
