//! The kinds of value that a rule is judged in. A scale is an order with a lowest and a highest value that differ, the
//! lesser and the greater of two values, a reversal, and a code of 16 bits for each value. Each scale shows that its
//! order is total (`TotalOrder`); whatever is argued above this crate uses only the bounds that follow from it
//! (`Lattice`), so it never leans on two values being comparable. Yes/no is a scale, and the crate `margin` has another.
//! Read `specs/Order.antt` first.
#![tactic(auto)]

pub mod yes_no;

ghost use Rattle.std.specs.Prelude.{◌≡◌, ℕ, Some};
ghost use Rattle.scale.specs.Codes.{Codes, Decodes};
ghost use Rattle.scale.specs.Order.{Scale as ScaleOf, TotalOrder, Bounds, Lattice};

/// A kind of value that rules are judged in.
pub trait Scale: Copy {
    /// What the methods mean.
    ghost scale: { ScaleOf Self };

    /// The code of each value.
    ghost coded: { Self → ℕ };

    /// The scale's number.
    ghost numbered: { ℕ };

    fn number() -> u8
        ensures { result ≡ numbered };

    fn at_most(self, other: Self) -> bool
        ensures { result ≡ scale.leq self other };

    fn lowest() -> Self
        ensures { result ≡ scale.lowest };

    fn highest() -> Self
        ensures { result ≡ scale.highest };

    // No body by `at_most`: lesser and greater are members of a scale, and not chosen by a test of its order.
    fn lesser(self, other: Self) -> Self
        ensures { result ≡ scale.lesser self other };

    fn greater(self, other: Self) -> Self
        ensures { result ≡ scale.greater self other };

    fn reverse(self) -> Self
        ensures { result ≡ scale.reversed self };

    fn code(self) -> u16
        ensures { result ≡ coded self };

    fn decode(code: u16) -> Option<Self>
        ensures { Decodes coded code result };

    ghost order: { TotalOrder scale };

    ghost codes: { Codes coded };
}

/// A value's code, decoded, is the value.
pub fn comes_back<V: Scale>(value: V) -> Option<V>
    ensures { result ≡ Some value }
{
    V::decode(value.code())
}

/// A total order has greatest lower and least upper bounds.
pub fn total_orders_have_bounds<V>()
    ensures { Bounds V }
{}

/// So has each scale.
pub fn scales_have_bounds<V: Scale>()
    ensures { Lattice V.scale }
{}
