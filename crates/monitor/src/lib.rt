//! The monitor: it judges the rules of a plan, tick by tick, on the samples of a source, and puts what becomes known into an
//! outbox. It is set up from a plan and queue memory that it is lent, takes one tick after another, and is closed for its
//! totals. What it stands for after any number of ticks is said by `Represents`, and every call by what it makes of that:
//! an accepted tick puts exactly the records that the definitions owe, and a refused one changes nothing. Read
//! `specs/Calls.antt` first.
#![tactic(auto)]

pub mod reading;
mod rules;
mod run;
mod tell;
pub mod totals;
pub mod watch;
