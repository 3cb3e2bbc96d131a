//! Yes or no, the scale of rules that only hold or fail.
ghost use Rattle.std.specs.Prelude.{◌≡◌, cond};
ghost use Rattle.scale.specs.declared.yes_no.YesNo.TheVariants.{No, Yes};
ghost use Rattle.scale.specs.YesNoScale.{yes_no, yes_no_code};
ghost use Rattle.std.proofs.Common.{rules};

use super::Scale;

/// The verdict of a rule that only holds or fails; no is lowest.
#[derive(Clone, Copy, PartialEq, Eq, PartialOrd, Ord, Hash, Debug)]
pub enum YesNo {
    No = 0,
    Yes = 1,
}

impl From<bool> for YesNo {
    ghost from_gives = { λ holds verdict. verdict ≡ cond holds Yes No };

    fn from(holds: bool) -> YesNo {
        if holds { YesNo::Yes } else { YesNo::No }
    }
}

impl Scale for YesNo {
    ghost scale = { yes_no };

    ghost coded = { yes_no_code };

    ghost numbered = { 1 };

    ghost order = { Prim.search rules };

    ghost codes = { Prim.search rules };

    fn number() -> u8 {
        1
    }

    fn at_most(self, other: YesNo) -> bool {
        self <= other
    }

    fn lowest() -> YesNo {
        YesNo::No
    }

    fn highest() -> YesNo {
        YesNo::Yes
    }

    // By its cases, not by the library's `min` and `max`: every position in a window is joined so, and this costs less.
    fn lesser(self, other: YesNo) -> YesNo {
        match self {
            YesNo::No => YesNo::No,
            YesNo::Yes => other,
        }
    }

    fn greater(self, other: YesNo) -> YesNo {
        match self {
            YesNo::No => other,
            YesNo::Yes => YesNo::Yes,
        }
    }

    fn reverse(self) -> YesNo {
        match self {
            YesNo::No => YesNo::Yes,
            YesNo::Yes => YesNo::No,
        }
    }

    fn code(self) -> u16 {
        self as u16
    }

    fn decode(code: u16) -> Option<YesNo> {
        // By its cases, since `as` makes no value of a code.
        match code {
            0 => Some(YesNo::No),
            1 => Some(YesNo::Yes),
            _ => None,
        }
    }
}
