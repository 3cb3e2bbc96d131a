//! Nodes before and after the check.
ghost use Rattle.std.specs.Prelude.{◌≡◌, IfOk, Some};
ghost use Rattle.table.specs.Words.{node_words, lag_words};

use super::kind::{Kind, Sort};
use std::alloc::{AllocError, Global};
use std::fmt;

/// A node as someone wrote it down: nothing is known of its numbers.
// A type beside `Node`: were both one type over that of the kind, every definition of a table would carry that type along.
#[derive(Clone, Copy)]
pub struct UncheckedNode {
    pub kind: u16,
    /// The number of the left operand; of a sample, the number of the sample.
    pub left: u16,
    pub right: u16,
    pub from: u16,
    pub to: u16,
}

/// A table as someone wrote it down: nodes, and rules, each of which names a node by its number.
#[derive(Drop)]
pub struct UncheckedTable {
    pub nodes: Vec<UncheckedNode>,
    pub rules: Vec<u16>,
}

impl UncheckedTable {
    /// The table of copies of these nodes and rules.
    pub fn new(
        heap: Global,
        nodes: &[UncheckedNode],
        rules: &[u16],
    ) -> Result<UncheckedTable, AllocError>
        ensures nodes { IfOk result (λ t. t.nodes.items ≡ nodes.now) }
        ensures rules { IfOk result (λ t. t.rules.items ≡ rules.now) }
    {
        Ok(UncheckedTable {
            nodes: nodes.to_vec(heap)?,
            rules: rules.to_vec(heap)?,
        })
    }
}

/// A node of known kind.
#[derive(Clone, Copy)]
pub struct Node {
    pub kind: Kind,
    /// The number of the left operand; of a sample, the number of the sample.
    pub left: u16,
    pub right: u16,
    pub from: u16,
    pub to: u16,
}

/// The node as it stands in a rule, its operands by their numbers.
impl fmt::Display for Node {
    ghost output = { λ node. Some (node_words node) };

    fn fmt<W: fmt::Write>(&self, f: &mut fmt::Formatter<W>) -> fmt::Result {
        let shape = self.kind.shape();
        write!(f, "{}", self.kind)?;
        if let Sort::Ahead | Sort::Back = shape.sort {
            write!(f, " [{},{}]", self.from, self.to)?;
        }
        write!(f, " {}", self.left)?;
        if shape.binary {
            write!(f, " {}", self.right)?;
        }
        Ok(())
    }
}

/// How many ticks after a position a node's value there is known: `best` at the soonest, `worst` at the latest.
#[derive(Clone, Copy)]
pub struct Lag {
    pub best: u16,
    pub worst: u16,
}

impl fmt::Display for Lag {
    ghost output = { λ lag. Some (lag_words lag) };

    fn fmt<W: fmt::Write>(&self, f: &mut fmt::Formatter<W>) -> fmt::Result {
        write!(f, "lag {} to {}", self.best, self.worst)
    }
}
