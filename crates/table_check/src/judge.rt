//! The tests of all nodes, in their order.
ghost use Rattle.std.specs.Prelude.{◌≡◌, ◌≤◌, length, take, IfOk};
ghost use Rattle.std.specs.Result.{result_err};
ghost use Rattle.table_check.specs.Judging.{node_fault, nodes_meant};
ghost use Rattle.table.specs.Lags.{lags as lags_of};

use super::lags::{AT_ONCE, judge_lag, lag_at};
use table::fault::TableFault;
use table::kind::Kind;
use table::node::{Lag, Node, UncheckedNode};
use table::read::read_node;

/// Nodes that passed, with their lags. They stand first, as many as there are.
// Arrays side by side, since a plan hands out its nodes and its lags each as a slice.
#[derive(Clone, Copy)]
pub(crate) struct Judged {
    pub nodes: [Node; 64],
    pub lags: [Lag; 64],
    pub size: usize,
    ghost few: { size ≤ 64 },
    ghost lags_are: { take size lags ≡ lags_of (take size nodes) },
}

impl Judged {
    pub(crate) fn nodes(&self) -> &[Node]
        ensures { result.now ≡ take self.now.size self.now.nodes }
    {
        &self.nodes[0..self.size]
    }

    pub(crate) fn lags(&self) -> &[Lag]
        ensures { result.now ≡ take self.now.size self.now.lags }
    {
        &self.lags[0..self.size]
    }
}

/// Stands where no node is.
pub(crate) const BLANK: Node = Node {
    kind: Kind::Sample,
    left: 0,
    right: 0,
    from: 0,
    to: 0,
};

/// The nodes that are written down, with their lags, or the first fault of the first faulty one.
pub(crate) fn judge_nodes(written: &[UncheckedNode]) -> Result<Judged, TableFault>
    requires few { length written.now ≤ 64 }
    ensures fault { result_err result ≡ node_fault written.now }
    ensures size { IfOk result (λ j. j.size ≡ length written.now) }
    ensures nodes { IfOk result (λ j. take j.size j.nodes ≡ nodes_meant written.now) }
{
    let mut nodes = [BLANK; 64];
    let mut lags = [AT_ONCE; 64];
    // By index, since the lags are looked up while they are filled.
    for (k, one) in written.iter().enumerate() {
        let own = k as u8;
        let node = read_node(one, own)?;
        let left = lag_at(&lags, node.left);
        let right = lag_at(&lags, node.right);
        let lag = judge_lag(&node, own, left, right)?;
        nodes[k] = node;
        lags[k] = lag;
    }
    Ok(Judged {
        nodes,
        lags,
        size: written.len(),
    })
}
