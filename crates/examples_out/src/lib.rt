//! Examples of what a monitor keeps and gives: queues, outboxes and books, as a caller uses them. Each is a test: an
//! input, what is expected of it, and a line why; a few small functions show what a caller can prove with them. They stand
//! in a crate of their own, since a crate with tests is proved twice.
#![tactic(auto)]

#[cfg(test)]
mod outboxes;
#[cfg(test)]
mod queues;
