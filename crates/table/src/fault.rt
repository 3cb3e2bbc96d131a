//! Why a table is refused.
ghost use Rattle.std.specs.Prelude.{◌≡◌, Some};
ghost use Rattle.table.specs.Refusals.{refusal_of};
ghost use Rattle.table.specs.Words.{fault_words};

use std::error::Error;
use std::fmt;

/// Why a table is refused, with the number of the node or rule that is at fault.
#[derive(Clone, Copy, Debug)]
pub enum TableFault {
    /// There is no node, or there are more than 64.
    NodeCount,
    /// There is no rule, or there are more than 16.
    RuleCount,
    /// A kind has no such number.
    UnknownKind(u8),
    /// An operand does not stand before its node, a sample's number is above 31, or a field without use is not 0.
    Misplaced(u8),
    /// The window opens after it ends, or ends after 4,095.
    Window(u8),
    /// A node looks back over an operand that is not known at once.
    LateOperand(u8),
    /// The worst lag is above 16,383.
    TooLate(u8),
    /// A rule names no node.
    NoSuchNode(u8),
    /// A node is neither an operand nor named by a rule.
    Unused(u8),
    /// The queue memory would be over 16,384 values.
    TooMuchMemory,
}

impl TableFault {
    /// The refusal's number.
    pub fn number(self) -> u8
        ensures { result ≡ (refusal_of self).number }
    {
        // A variant that holds a place has no number for `as` to read.
        match self {
            TableFault::NodeCount => 11,
            TableFault::RuleCount => 12,
            TableFault::UnknownKind(_) => 13,
            TableFault::Misplaced(_) => 14,
            TableFault::Window(_) => 15,
            TableFault::LateOperand(_) => 16,
            TableFault::TooLate(_) => 17,
            TableFault::NoSuchNode(_) => 18,
            TableFault::Unused(_) => 19,
            TableFault::TooMuchMemory => 20,
        }
    }

    /// The node or rule that is at fault, by its number.
    pub fn place(self) -> Option<u8>
        ensures { result ≡ (refusal_of self).place }
    {
        match self {
            TableFault::NodeCount | TableFault::RuleCount | TableFault::TooMuchMemory => None,
            TableFault::UnknownKind(node)
            | TableFault::Misplaced(node)
            | TableFault::Window(node)
            | TableFault::LateOperand(node)
            | TableFault::TooLate(node)
            | TableFault::Unused(node) => Some(node),
            TableFault::NoSuchNode(rule) => Some(rule),
        }
    }
}

/// What is wrong, and with which node or rule.
impl fmt::Display for TableFault {
    ghost output = { λ fault. Some (fault_words fault) };

    fn fmt<W: fmt::Write>(&self, f: &mut fmt::Formatter<W>) -> fmt::Result {
        match self {
            TableFault::NodeCount => f.write_str("there is no node, or there are more than 64"),
            TableFault::RuleCount => f.write_str("there is no rule, or there are more than 16"),
            TableFault::UnknownKind(node) => write!(f, "node {node} is of no known kind"),
            TableFault::Misplaced(node) => {
                write!(
                    f,
                    "node {node} has an operand or a field that cannot stand there"
                )
            }
            TableFault::Window(node) => write!(
                f,
                "node {node} has a window that opens after it ends, or ends after 4095"
            ),
            TableFault::LateOperand(node) => write!(
                f,
                "node {node} looks back over an operand that is not known at once"
            ),
            TableFault::TooLate(node) => {
                write!(f, "node {node} may be known more than 16383 ticks late")
            }
            TableFault::NoSuchNode(rule) => write!(f, "rule {rule} names no node"),
            TableFault::Unused(node) => {
                write!(f, "node {node} is neither an operand nor named by a rule")
            }
            TableFault::TooMuchMemory => f.write_str("the queues need more than 16384 values"),
        }
    }
}

impl Error for TableFault {}
