//! A table whose nodes and rules passed, and what is judged of it as a whole: the uses of its nodes, and its cost.
ghost use Rattle.std.specs.Prelude.{◌≡◌, ◌≤◌, length};
ghost use Rattle.table.specs.Lags.{lags as lags_of};

use table::node::{Lag, Node};

/// A table whose nodes and rules passed, with the lags of its nodes.
#[derive(Clone, Copy)]
pub(crate) struct Draft<'t> {
    pub nodes: &'t [Node],
    pub lags: &'t [Lag],
    /// Each rule is the number of a node.
    pub rules: &'t [u8],
    ghost few: { length nodes.now ≤ 64 },
    ghost ruled: { length rules.now ≤ 16 },
    ghost lags_are: { lags.now ≡ lags_of nodes.now },
}

mod cost;
mod uses;

pub(crate) use cost::Cost;
