//! What can be asked of a margin.
ghost use Rattle.std.specs.Prelude.{◌≡◌, ℤ, negsuc, MatchOption};
ghost use Rattle.margin.specs.MarginScale.{margin, margin_code};
ghost use Rattle.margin.specs.Margins.{margin_order, margin_codes};

use super::Margin;
use scale::Scale;

impl Margin {
    /// The margin of a number; the lowest number of 16 bits has none. `new` and `get` are the names that std's `NonZero` has.
    pub fn new(value: i16) -> Option<Margin>
        ensures { MatchOption result (value ≡ negsuc 32767) (λ m. m.value ≡ value) }
    {
        if value == i16::MIN {
            return None;
        }
        Some(Margin { value })
    }

    /// The margin's number.
    pub fn get(self) -> i16
        ensures { result ≡ self.value }
    {
        let Margin { value } = self;
        value
    }
}

impl Scale for Margin {
    ghost scale = { margin };

    ghost coded = { margin_code };

    ghost numbered = { 2 };

    ghost order = { margin_order };

    ghost codes = { margin_codes };

    fn number() -> u8 {
        2
    }

    fn at_most(self, other: Margin) -> bool {
        self <= other
    }

    fn lowest() -> Margin {
        Margin { value: -32767 }
    }

    fn highest() -> Margin {
        Margin { value: 32767 }
    }

    fn lesser(self, other: Margin) -> Margin {
        self.min(other)
    }

    fn greater(self, other: Margin) -> Margin {
        self.max(other)
    }

    #[tactic(auto, using(crate::specs::Margins::same_number))]
    fn reverse(self) -> Margin {
        Margin { value: -self.value }
    }

    fn code(self) -> u16 {
        self.value.cast_unsigned()
    }

    fn decode(code: u16) -> Option<Margin> {
        Margin::new(code.cast_signed())
    }
}
