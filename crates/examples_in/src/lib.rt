//! Examples of what a monitor is given: scales and tables, as a caller sees them. Each is a test: an input, what
//! is expected of it, and a line why. They stand in a crate of their own, since a crate with tests is proved twice.
#![tactic(auto)]

#[cfg(test)]
mod scales;
#[cfg(test)]
mod tables;
