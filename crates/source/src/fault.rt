//! Why a source has no value to answer with.
ghost use Rattle.std.specs.Prelude.{◌≡◌};
ghost use Rattle.std.specs.Result.{result_err};
ghost use Rattle.source.specs.Faults.{refusal_number};
ghost use Rattle.source.specs.Frames.{outside};

/// Why there is no value at a tick and a sample. A layer hands a fault from below on as it is, and any source may have
/// reasons of its own, so a fault holds the number of its reason: an enum would close the set.
#[derive(Clone, Copy, PartialEq, Eq, Debug)]
pub struct Fault {
    pub number: u8,
    /// The layer that the fault comes from.
    pub layer: u8,
    pub tick: usize,
    pub sample: usize,
}

/// Why a source refuses a question.
#[derive(Clone, Copy, PartialEq, Eq, Debug)]
pub enum Refusal {
    /// The tick is not below the length.
    PastLength = 33,
    /// The sample is not below the width.
    PastWidth = 34,
}

impl Refusal {
    /// The refusal's number.
    pub fn number(self) -> u8
        ensures { result ≡ refusal_number self }
    {
        self as u8
    }
}

/// Refuses a question that lies outside a source of this layer, length and width.
pub fn refuse(layer: u8, long: usize, wide: usize, tick: usize, sample: usize) -> Result<(), Fault>
    ensures { result_err result ≡ outside layer long wide tick sample }
{
    let refusal = if tick >= long {
        Refusal::PastLength
    } else if sample >= wide {
        Refusal::PastWidth
    } else {
        return Ok(());
    };
    Err(Fault {
        number: refusal.number(),
        layer,
        tick,
        sample,
    })
}
