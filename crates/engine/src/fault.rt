//! Why a tick is refused.
ghost use Rattle.std.specs.Prelude.{◌≡◌};
ghost use Rattle.engine.specs.declared.fault.TickFault.TheVariants.{Source};
ghost use Rattle.engine.specs.Refusals.{tick_refusal};

use source::fault::Fault;

/// Why a tick is refused.
#[derive(Clone, Copy, PartialEq, Eq, Debug)]
pub enum TickFault {
    /// The queue memory is below the need.
    Memory,
    /// As many ticks are accepted as can be.
    Ticks,
    /// The outbox has less free than the burst.
    Room,
    /// A sample could not be had: the source's fault, as it is.
    Source(Fault),
}

impl TickFault {
    /// The refusal's number.
    pub fn number(self) -> u8
        ensures { result ≡ tick_refusal self }
    {
        // No discriminants: a source's fault keeps its own number.
        match self {
            TickFault::Memory => 21,
            TickFault::Ticks => 31,
            TickFault::Room => 32,
            TickFault::Source(fault) => fault.number,
        }
    }
}

impl From<Fault> for TickFault {
    ghost from_gives = { λ fault r. r ≡ Source fault };

    fn from(fault: Fault) -> TickFault {
        TickFault::Source(fault)
    }
}
