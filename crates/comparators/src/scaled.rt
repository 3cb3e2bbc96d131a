//! A term that is fit to be worked out.
ghost use Rattle.std.specs.Prelude.{◌≤◌};

/// Whether a word is taken off, left out or added.
#[derive(Clone, Copy, Default)]
pub enum Sign {
    Minus = -1,
    #[default]
    Zero = 0,
    Plus = 1,
}

/// A word with its sign and its shift.
#[derive(Clone, Copy)]
pub struct Scaled {
    word: usize,
    sign: Sign,
    shift: u8,
    ghost small: { shift ≤ 7 },
}

mod calls;
