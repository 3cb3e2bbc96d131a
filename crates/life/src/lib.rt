//! The whole life of one monitor: it is set up, calls are made on it and on its outbox as a caller names them, and it is
//! closed. The contract of each function here holds the whole promise: there is a state after set-up and after each call,
//! each call did exactly what it may do, the calls are those that the caller named, and at every call, whatever samples
//! follow the accepted ones, each verdict issued is the one that the formulas give, issued once and at the first tick
//! possible, within the rule's worst lag and each node's places. Read `specs/Lives.antt` first, and for the promise itself
//! `specs/Promises.antt` of the crate `calls`.
#![tactic(auto)]

pub mod caller;
mod whole;

pub use whole::{live, live_closed, live_on};
