//! Examples of the check: the limits, the first refusal, and what a refusal leaves.
use std::alloc::{AllocError, Global};
use std::test::Fail;
use table::fault::TableFault;
use table::kind::Kind;
use table::node::{UncheckedNode, UncheckedTable};
use table_check::plan::{Plan, check};

const SAMPLE: UncheckedNode = UncheckedNode {
    kind: Kind::Sample as u16,
    left: 0,
    right: 0,
    from: 0,
    to: 0,
};

/// The number and the place of a refusal.
fn refusal(answer: Result<(), TableFault>) -> Option<(u8, Option<u8>)> {
    answer.err().map(|fault| (fault.number(), fault.place()))
}

/// What the check of these nodes, with this rule, refuses.
fn refused(
    heap: Global,
    nodes: &[UncheckedNode],
    rule: u16,
) -> Result<Option<(u8, Option<u8>)>, AllocError> {
    let mut plan = Plan::of_sample_0();
    Ok(refusal(check(&UncheckedTable::new(heap, nodes, &[rule])?, &mut plan)))
}

/// A sample under a window of a kind, and one more node over that.
fn windowed(kind: Kind, to: u16, over: Kind) -> [UncheckedNode; 3] {
    let inner = UncheckedNode {
        kind: kind as u16,
        left: 0,
        right: 0,
        from: 0,
        to,
    };
    let outer = UncheckedNode {
        kind: over as u16,
        left: 1,
        right: 0,
        from: 0,
        to: 0,
    };
    [SAMPLE, inner, outer]
}

#[test]
fn a_table_holds_copies_of_its_nodes_and_rules(rt: HostRuntime) -> Result<(), Fail> {
    let nodes = windowed(Kind::Within, 150, Kind::Not);
    let table = UncheckedTable::new(rt.alloc(), &nodes, &[2, 0])?;
    assert_eq!(rt; table.nodes.len(), 3);
    assert_eq!(rt; table.nodes[1].to, 150);
    assert_eq!(rt; table.rules.as_slice(), [2, 0].as_slice());
    Ok(())
}

#[test]
fn a_window_ends_at_4095_at_the_latest(rt: HostRuntime) -> Result<(), Fail> {
    assert_eq!(rt;
        refused(rt.alloc(), &windowed(Kind::Within, 4095, Kind::Not), 2)?,
        None
    );
    assert_eq!(rt;
        refused(rt.alloc(), &windowed(Kind::Within, 4096, Kind::Not), 2)?,
        Some((15, Some(1)))
    );
    Ok(())
}

#[test]
fn a_node_that_looks_back_needs_an_operand_known_at_once(rt: HostRuntime) -> Result<(), Fail> {
    assert_eq!(rt;
        refused(rt.alloc(), &windowed(Kind::Within, 0, Kind::Once), 2)?,
        None
    );
    assert_eq!(rt;
        refused(rt.alloc(), &windowed(Kind::Within, 1, Kind::Once), 2)?,
        Some((16, Some(2)))
    );
    Ok(())
}

/// A sample, and so many nodes in all, each the `not` of the one before.
fn nots(heap: Global, size: u16) -> Result<UncheckedTable, AllocError> {
    let mut nodes = vec![in heap; SAMPLE]?;
    for k in 1..size {
        nodes.push(UncheckedNode {
            kind: Kind::Not as u16,
            left: k - 1,
            right: 0,
            from: 0,
            to: 0,
        })?;
    }
    Ok(UncheckedTable {
        nodes,
        rules: vec![in heap; size.saturating_sub(1)]?,
    })
}

#[test]
fn there_are_64_nodes_at_most(rt: HostRuntime) -> Result<(), Fail> {
    let mut plan = Plan::of_sample_0();
    assert_eq!(rt; refusal(check(&nots(rt.alloc(), 64)?, &mut plan)), None);
    assert_eq!(rt;
        refusal(check(&nots(rt.alloc(), 65)?, &mut plan)),
        Some((11, None))
    );
    assert_eq!(rt; plan.nodes().len(), 64);
    Ok(())
}

#[test]
fn a_refusal_leaves_the_plan(rt: HostRuntime) -> Result<(), Fail> {
    let mut plan = Plan::of_sample_0();
    assert_eq!(rt;
        refusal(check(
            &UncheckedTable::new(rt.alloc(), &[SAMPLE], &[1])?,
            &mut plan
        )),
        Some((18, Some(0)))
    );
    assert_eq!(rt; plan.need(), 3);
    assert_eq!(rt;
        refusal(check(
            &UncheckedTable::new(rt.alloc(), &windowed(Kind::Within, 150, Kind::Not), &[2])?,
            &mut plan
        )),
        None
    );
    assert_eq!(rt; plan.burst(), 151);
    Ok(())
}
