//! The scales that a book can be kept in.
ghost use Rattle.std.specs.Prelude.{ℕ, ◌<◌, Option};
ghost use Rattle.scale.specs.Codes.{Decodes};
ghost use Rattle.book.specs.Readings.{yes_no_of, margin_of};
ghost use Rattle.std.proofs.Common.{rules};

use margin::Margin;
use scale::Scale;
use scale::yes_no::YesNo;

/// A scale that names the value of each code: what the codes in a book's bytes mean can be said only by a definition.
pub trait Readable: Scale {
    /// The value that has this code, if there is one.
    ghost decoded: { ℕ → Option Self };

    ghost decodes: { (code : ℕ) → code < 65536 → Decodes Self.Scale.coded code (decoded code) };
}

impl Readable for YesNo {
    ghost decoded = { yes_no_of };

    ghost decodes = { Prim.search rules };
}

impl Readable for Margin {
    ghost decoded = { margin_of };

    ghost decodes = { Prim.search rules };
}
