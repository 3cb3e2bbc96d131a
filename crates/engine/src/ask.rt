//! The samples that a tick needs, asked before anything is written.
ghost use Rattle.std.specs.Prelude.{◌≡◌};
ghost use Rattle.std.specs.Result.{result_err};
ghost use Rattle.source.specs.Frames.{answer, first_fault};
ghost use Rattle.table.specs.Kinds.{sampled};
ghost use Rattle.engine.specs.Asking.{samples_of};

use source::Source;
use source::fault::Fault;
use table::kind::{Kind, Sort};
use table::node::Node;

/// Whether a node of this kind is a sample.
pub(crate) fn is_sample(kind: Kind) -> bool
    ensures { result ≡ sampled kind }
{
    kind.shape().sort == Sort::Leaf
}

/// Asks for the sample of each sample node, upward; the first fault is the answer.
pub(crate) fn ask_all<S: Source>(nodes: &[Node], source: &S, n: usize) -> Result<(), Fault>
    ensures { result_err result ≡ first_fault (answer S.layer (S.frames source.now) n) (samples_of nodes.now) }
{
    for node in nodes {
        if is_sample(node.kind) {
            source.ask(n, usize::from(node.left))?;
        }
    }
    Ok(())
}
