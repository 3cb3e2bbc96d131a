//! All nodes at one tick.
ghost use Rattle.std.specs.Prelude.{◌≡◌, suc, ◌^◌, ◌<◌, ◌≤◌, length, take};
ghost use Rattle.source.specs.Frames.{answer};
ghost use Rattle.engine.specs.Ticking.{sample_of, Sound, EndsInside, SameRegions, OthersKept, AroundNodesKept, TakenOn, WholeTick};

use super::ask::is_sample;
use super::ends::ends_all;
use super::keep::Keep;
use super::ticks::Tick;
use super::turn::Turn;
use scale::Scale;
use source::Source;
use table::node::Node;

/// The sample of a node at tick `n`; the lowest value stands for a fault. A node that is no sample has none.
fn sample_of<S: Source>(source: &S, n: usize, node: Node) -> S::Value
    ensures { result ≡ sample_of S.Value.Scale.scale (answer S.layer (S.frames source.now) n) node }
{
    if is_sample(node.kind) {
        return source
            .ask(n, usize::from(node.left))
            .unwrap_or(<S::Value>::lowest());
    }
    <S::Value>::lowest()
}

// Nodes and queues come apart, since the core lends them at once, the ones to read and the others to change.

/// Takes every node's queue on by a tick.
pub(crate) fn settle_all<V: Scale, S: Source<Value = V>>(
    nodes: &[Node],
    source: &S,
    tick: Tick,
    memory: &mut [V],
    keeps: &mut [Keep],
)
    requires sound { Sound nodes.now keeps.old (length memory.old) tick.number }
    ensures sound { Sound nodes.now keeps.new (length memory.new) (suc tick.number) }
    ensures regions { SameRegions keeps.old keeps.new }
    ensures others { OthersKept keeps.old (length nodes.now) memory.old memory.new }
    ensures next { TakenOn V.Scale.scale (answer S.layer (S.frames source.now) tick.number) nodes.now tick.number memory.old memory.new keeps.old keeps.new }
{
    for (k, node) in nodes.iter().enumerate() {
        let mut turn = Turn::of(memory, keeps, *node, k);
        turn.settle(sample_of(source, tick.number, *node), tick);
        keeps[k] = turn.own;
    }
}

/// A tick of all nodes: takes every queue on, and then stores the two ends behind each. The nodes' queues stand in front
/// of others.
pub(crate) fn tick_all<V: Scale, S: Source<Value = V>>(
    nodes: &[Node],
    source: &S,
    tick: Tick,
    memory: &mut [V],
    keeps: &mut [Keep],
)
    requires enough { length nodes.now ≤ length keeps.old }
    requires sound { Sound nodes.now (take (length nodes.now) keeps.old) (length memory.old) tick.number }
    requires inside { EndsInside nodes.now keeps.old (length memory.old) }
    ensures sound { Sound nodes.now (take (length nodes.now) keeps.new) (length memory.new) (suc tick.number) }
    ensures regions { SameRegions keeps.old keeps.new }
    ensures others { AroundNodesKept keeps.old (length nodes.now) memory.old memory.new }
    ensures next { WholeTick V.Scale.scale (answer S.layer (S.frames source.now) tick.number) nodes.now tick.number memory.old memory.new keeps.old keeps.new }
{
    let size = nodes.len();
    settle_all(nodes, source, tick, memory, &mut keeps[..size]);
    ends_all(nodes, tick, memory, &keeps[..size]);
}
