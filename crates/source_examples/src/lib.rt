//! Examples of sources, asked from outside: what a caller sees of rows, of comparators over rows, and of their faults.
//! They stand in a crate of their own, since a crate with tests is proved twice.
#![tactic(auto)]

#[cfg(test)]
mod tests;
