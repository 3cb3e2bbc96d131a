//! A list of values as a source.
ghost use Rattle.std.specs.Prelude.{◌≡◌, ◌+◌, ◌*◌, ◌<◌, length, slice_index_or};
ghost use Rattle.source.specs.WholeRows.{rows, WholeLengths};

use super::Source;
use super::fault::{Fault, refuse};
use scale::Scale;

/// The layer of rows. It stands here and not only in the impl, where a proof could not tell its value.
const ROWS_LAYER: u8 = 1;

/// A lent list of values, row after row: each row is a tick. A last row that is not whole is no part of the source.
#[derive(Drop)]
pub struct Rows<'a, V> {
    values: &'a [V],
    width: usize,
}

impl<'a, V: Scale> Rows<'a, V> {
    /// The rows of this width; none of width 0.
    pub fn new(values: &'a [V], width: usize) -> Rows<'a, V>
        ensures values { result.values.now ≡ values.now }
        ensures width { result.width ≡ width }
    {
        Rows { values, width }
    }

    /// The value of a sample at a tick, where the list has it.
    fn read(&self, tick: usize, sample: usize) -> V
        requires { tick * self.now.width + sample < length self.now.values.now }
        ensures { result ≡ slice_index_or self.now.values.now (tick * self.now.width + sample) result }
    {
        self.values[tick * self.width + sample]
    }
}

impl<'a, V: Scale> Source for Rows<'a, V> {
    type Value = V;

    const LAYER: u8 = ROWS_LAYER;

    ghost layer = { 1 };

    ghost frames = { λ s. rows V.Scale.scale.lowest s.values.now s.width };

    fn layer_number() -> u8 {
        ROWS_LAYER
    }

    fn length(&self) -> usize {
        self.values.len().checked_div(self.width).unwrap_or(0)
    }

    fn width(&self) -> usize {
        self.width
    }

    fn ask(&self, tick: usize, sample: usize) -> Result<V, Fault> {
        refuse(ROWS_LAYER, self.length(), self.width(), tick, sample)?;
        Ok(self.read(tick, sample))
    }
}

/// The length of rows counts the whole rows, and all of them.
pub fn lengths_are_whole()
    ensures { WholeLengths }
{}
