//! Why a record is not put, or none is taken.
ghost use Rattle.std.specs.Prelude.{◌≡◌};
ghost use Rattle.outbox.specs.Refusals.{put_refusal, take_refusal};

/// Why a record is not put.
#[derive(Clone, Copy, PartialEq, Eq, Debug)]
pub enum PutFault {
    /// Nothing is free.
    Full = 62,
}

/// Why no record is taken.
#[derive(Clone, Copy, PartialEq, Eq, Debug)]
pub enum TakeFault {
    /// Nothing waits.
    Empty = 61,
}

impl PutFault {
    /// The refusal's number.
    pub fn number(self) -> u8
        ensures { result ≡ put_refusal self }
    {
        self as u8
    }
}

impl TakeFault {
    /// The refusal's number.
    pub fn number(self) -> u8
        ensures { result ≡ take_refusal self }
    {
        self as u8
    }
}
