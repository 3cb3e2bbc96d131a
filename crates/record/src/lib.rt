//! What is issued: one record tells the verdict of a rule at each position from `first` to `last`. It holds no promise
//! of its own; what the records of a tick are is defined in the crate `settling`, and where they go in `outbox`.
#![tactic(auto)]

/// The verdict of a rule at each position from `first` to `last`, told `lag` ticks after position `first`.
#[derive(Clone, Copy)]
pub struct Record<V> {
    pub rule: u8,
    pub first: u32,
    pub last: u32,
    pub value: V,
    /// The tick of issue minus `first`.
    pub lag: u32,
}
