//! Tables of timing rules. A table is a list of nodes, each with a kind, operands that stand before it and a window, and
//! a list of rules, each of which names a node. Here are the types of a table before and after its check, what is known
//! of a kind, the faults, the words that they are shown in, and the reading of a single node; and the definitions: what a
//! node's value is, how long it may take to be known, what a table costs, when it is accepted and what the check finds in
//! it. That the definition of what the check finds means what it says stands in `promises`. Read `specs/Values.antt`,
//! `specs/Lags.antt` and `specs/Places.antt` first, then `specs/Refusals.antt`. The crate `table_check` has the check
//! itself.
#![tactic(auto)]

pub mod fault;
pub mod kind;
pub mod node;
pub mod promises;
pub mod read;
