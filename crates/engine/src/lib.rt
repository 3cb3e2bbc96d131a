//! The engine of the monitor: one tick of all nodes, over queues in lent memory. Each node's queue keeps the
//! newest of its settled positions. A tick works out, node by node, which further positions are known: the value from the
//! operands' queues once with the lowest and once with the highest value for whatever is not settled, and the position is
//! settled if both agree. Then it stores behind each queue the node's two early ends for the tick's own position.
//! `tick_all` is proved to take the queues from what the definitions say after n ticks to what they say after n + 1, to
//! store the ends of tick n, and to leave all other memory alone, for every scale and every source. Read
//! `specs/State.antt` first, then `specs/Ticking.antt`.
#![tactic(auto)]

mod ask;
mod ends;
pub mod fault;
pub mod keep;
mod lay;
mod operands;
mod settle;
mod standing;
pub mod state;
mod tick;
pub mod ticks;
mod turn;

pub use settle::agree;
