//! The calls on one monitor and its outbox, and what any list of them, in any order and some of them refused, comes to.
//! `make` makes one call; its contract is what that call may answer and change (`specs/Steps.antt`). A run is one such step
//! after another, and what is promised of every run, at each of its calls, stands in `specs/Promises.antt`: whatever samples
//! follow, each verdict issued is the one that the formulas give, issued once and at the first tick possible. Read
//! `specs/Promises.antt` first.
#![tactic(auto)]

pub mod call;
mod one;

pub use one::make;
