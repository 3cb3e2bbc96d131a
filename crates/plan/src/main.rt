//! What a table of timing rules costs, and how late its verdicts may come: for each node its lags and places, for each
//! rule its worst lag, and the queue memory and the outbox room that a monitor needs. It shows the power-loss rule, the
//! same rule with the inner window opened at the trigger by mistake, and a table that is refused.
#![tactic(auto)]

use std::io;
use table::fault::TableFault;
use table::kind::Kind;
use table::node::{UncheckedNode, UncheckedTable};
use table_check::plan::{Plan, check};

/// A node that has no window.
const fn point(kind: Kind, left: u16, right: u16) -> UncheckedNode {
    UncheckedNode {
        kind: kind as u16,
        left,
        right,
        from: 0,
        to: 0,
    }
}

/// A node that looks at its one operand through a window.
const fn window(kind: Kind, from: u16, to: u16, left: u16) -> UncheckedNode {
    UncheckedNode {
        kind: kind as u16,
        left,
        right: 0,
        from,
        to,
    }
}

fn show_nodes(rt: &HostRuntime, plan: &Plan) -> io::Result<()> {
    let each = plan.nodes().iter().zip(plan.lags()).zip(plan.places());
    for (k, ((node, lag), places)) in each.enumerate() {
        println!(rt; "node {k}: {node}, {lag}, places {places}")?;
    }
    Ok(())
}

fn show_rules(rt: &HostRuntime, plan: &Plan) -> io::Result<()> {
    let lags = plan.lags();
    for (r, node) in plan.rules().iter().enumerate() {
        if let Some(lag) = lags.get(usize::from(*node)) {
            println!(rt; "rule {r}: node {node}, worst lag {}", lag.worst)?;
        }
    }
    Ok(())
}

fn show_plan(rt: &HostRuntime, plan: &Plan) -> io::Result<()> {
    show_nodes(rt, plan)?;
    show_rules(rt, plan)?;
    println!(rt; "need {}, burst {}", plan.need(), plan.burst())
}

fn show_refusal(rt: &HostRuntime, fault: TableFault) -> io::Result<()> {
    println!(rt; "refused {}: {fault}", fault.number())
}

/// Checks the table of these nodes with this rule, and shows its plan or why it is refused.
fn show(rt: &HostRuntime, text: &str, nodes: &[UncheckedNode], rule: u16) -> anyhow::Result<()> {
    rt.println(text)?;
    let table = UncheckedTable::new(rt.alloc(), nodes, &[rule])?;
    let mut plan = Plan::of_sample_0();
    match check(&table, &mut plan) {
        Ok(()) => show_plan(rt, &plan)?,
        Err(fault) => show_refusal(rt, fault)?,
    }
    Ok(())
}

fn run(rt: &HostRuntime) -> anyhow::Result<()> {
    let after_drop = [
        point(Kind::Sample, 0, 0),
        point(Kind::Not, 0, 0),
        point(Kind::Sample, 1, 0),
        point(Kind::Sample, 2, 0),
        window(Kind::Within, 0, 150, 3),
        point(Kind::And, 2, 4),
        window(Kind::Within, 0, 60, 5),
        point(Kind::Or, 1, 6),
    ];
    show(
        rt,
        "trigger implies within [0,60] (drop and within [0,150] stored)",
        &after_drop,
        7,
    )?;
    let after_trigger = [
        point(Kind::Sample, 0, 0),
        point(Kind::Not, 0, 0),
        point(Kind::Sample, 1, 0),
        window(Kind::Within, 0, 60, 2),
        point(Kind::Sample, 2, 0),
        window(Kind::Within, 0, 150, 4),
        point(Kind::And, 3, 5),
        point(Kind::Or, 1, 6),
    ];
    show(
        rt,
        "\ntrigger implies (within [0,60] drop and within [0,150] stored)",
        &after_trigger,
        7,
    )?;
    show(
        rt,
        "\nonce [0,9] within [0,1] stored",
        &[
            point(Kind::Sample, 0, 0),
            window(Kind::Within, 0, 1, 0),
            window(Kind::Once, 0, 9, 1),
        ],
        2,
    )
}

fn main(rt: HostRuntime) -> anyhow::Result<()> {
    run(&rt)
}
