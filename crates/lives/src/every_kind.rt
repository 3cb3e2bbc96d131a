//! A table with every kind of node.
use std::alloc::{AllocError, Global};
use table::kind::Kind;
use table::node::{UncheckedNode, UncheckedTable};

const fn node(kind: Kind, left: u16, right: u16, from: u16, to: u16) -> UncheckedNode {
    UncheckedNode {
        kind: kind as u16,
        left,
        right,
        from,
        to,
    }
}

/// Windows that open at once and later, forward and back, and rules over them that settle soon and late.
pub(crate) fn every_kind(heap: Global) -> Result<UncheckedTable, AllocError> {
    let nodes = [
        node(Kind::Sample, 0, 0, 0, 0),
        node(Kind::Sample, 1, 0, 0, 0),
        node(Kind::Until, 0, 1, 0, 2),
        node(Kind::Since, 0, 1, 0, 3),
        node(Kind::Within, 1, 0, 1, 2),
        node(Kind::Always, 0, 0, 0, 1),
        node(Kind::Once, 0, 0, 0, 2),
        node(Kind::Held, 1, 0, 1, 2),
        node(Kind::Not, 4, 0, 0, 0),
        node(Kind::And, 2, 8, 0, 0),
        node(Kind::Or, 5, 3, 0, 0),
        node(Kind::Until, 10, 4, 1, 2),
    ];
    UncheckedTable::new(heap, &nodes, &[9, 10, 6, 7, 11])
}
