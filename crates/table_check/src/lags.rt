//! The lag of a node, and the tests that need it.
ghost use Rattle.std.specs.Prelude.{◌≡◌, ℕ, ◌≤◌, IfOk, slice_index_or};
ghost use Rattle.std.specs.Result.{result_err};
ghost use Rattle.table.specs.Lags.{no_lag, lag_of, greatest_operand};
ghost use Rattle.table.specs.Refusals.{first, lag_tests};

use table::fault::TableFault;
use table::kind::{Kind, Sort};
use table::node::{Lag, Node};

/// Known at its own tick.
pub(crate) const AT_ONCE: Lag = Lag { best: 0, worst: 0 };

/// The lag of node `k`; a node that is not there yet counts as known at once.
pub(crate) fn lag_at(lags: &[Lag], k: u16) -> Lag
    ensures { result ≡ slice_index_or lags.now k no_lag }
{
    lags.get(usize::from(k)).copied().unwrap_or(AT_ONCE)
}

/// The greatest worst lag of the operands that a node of this kind has.
pub(crate) fn worst_operand(kind: Kind, left: Lag, right: Lag) -> u16
    ensures { result ≡ greatest_operand kind left.worst right.worst }
{
    if kind.shape().binary {
        left.worst.max(right.worst)
    } else {
        left.worst
    }
}

/// The lag of a node from those of its operands, or the first of the faults that come with it.
#[tactic(auto, unfolding(table::specs::Lags::lag_of))]
pub(crate) fn judge_lag(node: &Node, own: u8, left: Lag, right: Lag) -> Result<Lag, TableFault>
    requires window { node.now.from ≤ node.now.to }
    requires near { node.now.to ≤ 4095 }
    requires rising { (left.best ≤ left.worst) × (right.best ≤ right.worst) }
    requires soon { (left.worst ≤ 16383) × (right.worst ≤ 16383) }
    ensures fault { result_err result ≡ first (lag_tests node.now (greatest_operand node.now.kind left.worst right.worst) (lag_of own node.now left right).worst own) }
    ensures lag { IfOk result (λ lag. lag ≡ lag_of own node.now left right) }
    ensures bound { IfOk result (λ lag. (lag.best ≤ lag.worst) × (lag.worst ≤ 16383)) }
{
    let shape = node.kind.shape();
    let best = if shape.binary {
        left.best.min(right.best)
    } else {
        left.best
    };
    let worst = worst_operand(node.kind, left, right);
    match shape.sort {
        Sort::Leaf => Ok(AT_ONCE),
        Sort::Back if worst > 0 => Err(TableFault::LateOperand(own)),
        Sort::Back => Ok(AT_ONCE),
        Sort::Point | Sort::Ahead if worst + node.to > 16383 => Err(TableFault::TooLate(own)),
        Sort::Point | Sort::Ahead => Ok(Lag {
            best: best + node.from,
            worst: worst + node.to,
        }),
    }
}
