//! One shot, judged by the power-loss rule: `trigger implies within [0,60] (drop and within [0,150] stored)`. On standard
//! input each line of three digits is a tick: 1 where the trigger fires, where the power drops and where the record is
//! stored, else 0; the first other line ends them. One monitor lives through the ticks, by the call whose contract holds the
//! whole promise, and all records are taken after each. For each record it prints rule, first, last, verdict and lag, and at
//! the end the ticks, and how many positions are settled and open. Any refusal but that of a tick past the last line ends
//! the run with its number.
#![tactic(auto)]

mod samples;
mod sheet;

use life::caller::Emptying;
use life::live;
use queue::Ring;
use record::Record;
use samples::read_samples;
use scale::yes_no::YesNo;
use sheet::show;
use source::Source;
use source::rows::Rows;
use std::alloc::{AllocError, Global};
use table::kind::Kind;
use table::node::{UncheckedNode, UncheckedTable};
use table_check::plan::{Plan, check};

/// How many samples a tick has: trigger, drop, stored.
const WIDTH: usize = 3;

/// How many records the ring can hold.
const RING: usize = 2048;

/// Stands where no record is yet.
const BLANK: Record<YesNo> = Record {
    rule: 0,
    first: 0,
    last: 0,
    value: YesNo::No,
    lag: 0,
};

const fn node(kind: Kind, left: u16, right: u16, to: u16) -> UncheckedNode {
    UncheckedNode {
        kind: kind as u16,
        left,
        right,
        from: 0,
        to,
    }
}

/// The power-loss rule: the inner window opens at the drop, and not at the trigger.
fn power_loss(heap: Global) -> Result<UncheckedTable, AllocError> {
    let nodes = [
        node(Kind::Sample, 0, 0, 0),
        node(Kind::Not, 0, 0, 0),
        node(Kind::Sample, 1, 0, 0),
        node(Kind::Sample, 2, 0, 0),
        node(Kind::Within, 3, 0, 150),
        node(Kind::And, 2, 4, 0),
        node(Kind::Within, 5, 0, 60),
        node(Kind::Or, 1, 6, 0),
    ];
    UncheckedTable::new(heap, &nodes, &[7])
}

/// Judges the samples by the plan's rules, and prints what becomes known.
fn judge(rt: &HostRuntime, plan: Plan, samples: &[YesNo]) -> anyhow::Result<()> {
    let heap = rt.alloc();
    let mut memory = vec![in heap; YesNo::No; plan.need() as usize]?;
    let mut slots = vec![in heap; BLANK; RING]?;
    let mut outbox = Ring::new(slots.as_mut_slice());
    let rows = Rows::new(samples, WIDTH);
    // After each tick one take for each record, at most one a rule and position, and one that is refused.
    let most = rows
        .length()
        .saturating_mul(plan.rules().len() + 2)
        .saturating_add(1);
    let (log, totals) = live(
        heap,
        plan,
        memory.as_mut_slice(),
        &rows,
        &mut outbox,
        &mut Emptying,
        most,
    )?;
    show(rt, log.as_slice(), &totals)?;
    Ok(())
}

fn main(rt: HostRuntime) -> anyhow::Result<()> {
    let samples = read_samples(&rt, WIDTH)?;
    let mut plan = Plan::of_sample_0();
    match check(&power_loss(rt.alloc())?, &mut plan) {
        Ok(()) => judge(&rt, plan, samples.as_slice()),
        Err(fault) => {
            println!(&rt; "refused {}", fault.number())?;
            Ok(())
        }
    }
}
