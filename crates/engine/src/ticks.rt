//! The numbers of ticks.
ghost use Rattle.std.specs.Prelude.{◌^◌, ◌<◌};

/// The number of a tick that can be accepted; a monitor accepts 16,777,216 of them.
#[derive(Clone, Copy)]
pub struct Tick {
    pub number: usize,
    ghost few: { number < 2 ^ 24 },
}
