//! The check of a table. `check` reads an unchecked table and either refuses it, by the first of the faults in their
//! order, or fills a plan with exactly that table, its lags, the places of each node's queue, and the memory and outbox
//! room that a monitor needs. No other way leads to a plan but the one that is built in, so whoever holds a plan knows
//! that its table is accepted. Read `src/plan.rt` first; the crate `table` has the definitions of what a table means and
//! costs, and what the answer of the check means.
#![tactic(auto)]

mod draft;
mod judge;
mod lags;
pub mod plan;
mod rules;
