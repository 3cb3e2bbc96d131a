//! What a table costs: the places of each node's queue, the memory that they need, and the most records of a tick.
ghost use Rattle.std.specs.Prelude.{◌≡◌, ℕ, ◌+◌, ◌-◌, ◌*◌, ◌^◌, ◌<◌, ◌≤◌, length, slice_index, sum};
ghost use Rattle.table_check.specs.Drafts.{of_draft};
ghost use Rattle.table_check.specs.Judging.{wanted, wanted_by, by_nodes, by_rules};
ghost use Rattle.table.specs.Places.{places as places_of, need as need_of, burst as burst_of};

use super::super::lags::{lag_at, worst_operand};
use super::Draft;
use super::uses::is_operand;
use std::array;
use table::kind::{Side, Sort};
use table::node::{Lag, Node};

/// What a table costs.
#[derive(Clone, Copy)]
pub(crate) struct Cost {
    /// How many of its newest positions each node keeps.
    pub places: [u32; 64],
    /// The queue memory, in scale values.
    pub need: u32,
    /// The most records of one tick.
    pub burst: u32,
}

/// How much later than at its best a node may be known.
fn slack(lag: Lag) -> u32
    ensures value { result ≡ lag.worst - lag.best }
    ensures few { result < 65536 }
{
    u32::from(lag.worst.saturating_sub(lag.best))
}

/// The queue memory, in scale values: all places, and two ends for each node.
fn memory_for(places: &[u32]) -> u32
    requires { sum places.now + 2 * length places.now < 2 ^ 32 }
    ensures { result ≡ sum places.now + 2 * length places.now }
{
    places.iter().sum::<u32>() + 2 * places.len() as u32
}

// Each part says how large its result can be, so that what adds parts up knows that they fit.
impl Draft<'_> {
    /// What the table costs.
    pub(crate) fn cost(&self) -> Cost
        ensures places { (k : ℕ) → k < length self.now.nodes.now → slice_index result.places k ≡ places_of (of_draft self.now) k }
        ensures need { result.need ≡ need_of (of_draft self.now) }
        ensures burst { result.burst ≡ burst_of (of_draft self.now) }
    {
        let places = self.all_places();
        let size = self.nodes.len();
        Cost {
            places,
            need: memory_for(&places[0..size]),
            burst: self.burst(),
        }
    }

    /// How many of its newest positions each node keeps. Nothing reads what stands behind the nodes.
    fn all_places(&self) -> [u32; 64]
        ensures places { (k : ℕ) → k < length self.now.nodes.now → slice_index result k ≡ places_of (of_draft self.now) k }
        ensures few { (k : ℕ) → k < 64 → slice_index result k ≤ 131072 }
    {
        let size = self.nodes.len();
        array::from_fn(|k| if k < size { self.places(k as u8) } else { 0 })
    }

    /// How many of its newest positions node `k` keeps.
    fn places(&self, k: u8) -> u32
        ensures places { result ≡ places_of (of_draft self.now) k }
        ensures few { result ≤ 131072 }
    {
        1 + self.for_parents(k).max(self.for_rules(k))
    }

    /// The most that a parent wants of node `k` beside its newest position.
    fn for_parents(&self, k: u8) -> u32
        ensures most { result ≡ by_nodes self.now.lags.now k self.now.nodes.now }
        ensures few { result < 131072 }
    {
        self.nodes
            .iter()
            .map(|node| self.wanted_by(node, k))
            .max()
            .unwrap_or(0)
    }

    /// What this node wants of node `k`, as far as `k` is an operand of it.
    fn wanted_by(&self, node: &Node, k: u8) -> u32
        ensures wanted { result ≡ wanted_by self.now.lags.now k node.now }
        ensures few { result < 131072 }
    {
        self.wanted_on(node, Side::Left, k)
            .max(self.wanted_on(node, Side::Right, k))
    }

    /// What it wants as far as `k` is its operand on this side.
    fn wanted_on(&self, node: &Node, side: Side, k: u8) -> u32
        ensures wanted { result ≡ wanted self.now.lags.now k node.now side }
        ensures few { result < 131072 }
    {
        if !is_operand(node, side, k) {
            return 0;
        }
        if let Sort::Back = node.kind.shape().sort {
            return u32::from(node.to);
        }
        let left = lag_at(self.lags, node.left);
        let right = lag_at(self.lags, node.right);
        let worst = worst_operand(node.kind, left, right);
        let own = lag_at(self.lags, u16::from(k)).best;
        (u32::from(worst) + u32::from(node.to))
            .saturating_sub(u32::from(node.from))
            .saturating_sub(u32::from(own))
    }

    /// What the rules want of node `k` beside its newest position.
    fn for_rules(&self, k: u8) -> u32
        ensures most { result ≡ by_rules self.now.lags.now k self.now.rules.now }
        ensures few { result < 65536 }
    {
        if self.rules.contains(&k) {
            slack(lag_at(self.lags, u16::from(k)))
        } else {
            0
        }
    }

    /// The most records of one tick.
    fn burst(&self) -> u32
        ensures { result ≡ burst_of (of_draft self.now) }
    {
        self.rules
            .iter()
            .map(|node| slack(lag_at(self.lags, u16::from(*node))) + 1)
            .sum()
    }
}
