//! The ten kinds of node, and what there is to know of a kind besides its formula.
ghost use Rattle.std.specs.Prelude.{◌≡◌, Some};
ghost use Rattle.table.specs.Kinds.{shape, Numbered};
ghost use Rattle.table.specs.Words.{kind_word, no_kind_words};

use std::error::Error;
use std::fmt;

/// What a node does with its operands. They are numbered from 0, as they stand here.
#[derive(Clone, Copy)]
pub enum Kind {
    Sample,
    Not,
    And,
    Or,
    Within,
    Always,
    Until,
    Once,
    Held,
    Since,
}

/// A number that no kind has.
#[derive(Clone, Copy, PartialEq, Eq, Debug)]
pub struct UnknownKind(pub u16);

/// Where a kind reads its operands, seen from the position that is judged.
#[derive(Clone, Copy, PartialEq, Eq)]
pub enum Sort {
    /// Nowhere: it is a sample and has no operand.
    Leaf,
    /// At the position itself.
    Point,
    /// In a window that opens at the position or after it.
    Ahead,
    /// In a window that ends at the position or before it.
    Back,
}

/// One of a node's two operands.
#[derive(Clone, Copy)]
pub enum Side {
    Left,
    Right,
}

/// What there is to know of a kind besides its formula.
#[derive(Clone, Copy)]
pub struct Shape {
    pub sort: Sort,
    /// Whether it has a right operand too.
    pub binary: bool,
    /// Whether a larger operand makes a smaller value.
    pub turned: bool,
}

impl Kind {
    pub fn shape(self) -> Shape
        ensures { result ≡ shape self }
    {
        let (sort, binary, turned) = match self {
            Kind::Sample => (Sort::Leaf, false, false),
            Kind::Not => (Sort::Point, false, true),
            Kind::And | Kind::Or => (Sort::Point, true, false),
            Kind::Within | Kind::Always => (Sort::Ahead, false, false),
            Kind::Until => (Sort::Ahead, true, false),
            Kind::Once | Kind::Held => (Sort::Back, false, false),
            Kind::Since => (Sort::Back, true, false),
        };
        Shape {
            sort,
            binary,
            turned,
        }
    }
}

impl TryFrom<u16> for Kind {
    type Error = UnknownKind;

    ghost try_from_gives = { Numbered };

    fn try_from(number: u16) -> Result<Self, UnknownKind> {
        match number {
            0 => Ok(Kind::Sample),
            1 => Ok(Kind::Not),
            2 => Ok(Kind::And),
            3 => Ok(Kind::Or),
            4 => Ok(Kind::Within),
            5 => Ok(Kind::Always),
            6 => Ok(Kind::Until),
            7 => Ok(Kind::Once),
            8 => Ok(Kind::Held),
            9 => Ok(Kind::Since),
            _ => Err(UnknownKind(number)),
        }
    }
}

impl fmt::Display for Kind {
    ghost output = { λ kind. Some (kind_word kind) };

    fn fmt<W: fmt::Write>(&self, f: &mut fmt::Formatter<W>) -> fmt::Result {
        f.write_str(match self {
            Kind::Sample => "sample",
            Kind::Not => "not",
            Kind::And => "and",
            Kind::Or => "or",
            Kind::Within => "within",
            Kind::Always => "always",
            Kind::Until => "until",
            Kind::Once => "once",
            Kind::Held => "held",
            Kind::Since => "since",
        })
    }
}

impl fmt::Display for UnknownKind {
    ghost output = { λ unknown. Some (no_kind_words unknown) };

    fn fmt<W: fmt::Write>(&self, f: &mut fmt::Formatter<W>) -> fmt::Result {
        write!(f, "no kind has number {}", self.0)
    }
}

impl Error for UnknownKind {}
