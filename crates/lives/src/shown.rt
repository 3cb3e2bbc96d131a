//! One life, printed call by call.
use monitor::totals::Totals;
use monitor::watch::Monitor;
use outbox::Outbox;
use record::Record;
use scale::Scale;
use scale::yes_no::YesNo;
use source::Source;
use std::io;
use table_check::plan::Plan;

/// Stands where no record is yet.
pub(crate) const BLANK: Record<YesNo> = Record {
    rule: 0,
    first: 0,
    last: 0,
    value: YesNo::No,
    lag: 0,
};

/// One more rule than there are is read.
fn show_reads<V: Scale>(rt: &HostRuntime, monitor: &Monitor<'_, V>, rules: u8) -> io::Result<()> {
    for rule in 0..=rules {
        match monitor.read(rule) {
            Ok((lower, upper)) => println!(rt; "read {rule} {} {}", lower.code(), upper.code())?,
            Err(fault) => println!(rt; "read {rule} refused {}", fault.number())?,
        }
    }
    Ok(())
}

/// Takes up to the first refusal; no outbox here has 64 records.
fn show_takes<V: Scale, O: Outbox<V>>(rt: &HostRuntime, outbox: &mut O) -> io::Result<()> {
    for _ in 0..64 {
        match outbox.take() {
            Ok(record) => println!(rt;
                "take {} {} {} {} {}",
                record.rule,
                record.first,
                record.last,
                record.value.code(),
                record.lag
            )?,
            Err(fault) => return println!(rt; "take refused {}", fault.number()),
        }
    }
    Ok(())
}

fn show_totals(rt: &HostRuntime, totals: &Totals) -> io::Result<()> {
    println!(rt; "close {}", totals.ticks())?;
    for total in totals.rules() {
        println!(rt; "settled {} open {}", total.settled, total.open)?;
    }
    Ok(())
}

/// Ticks a monitor twice past its source's end, reads it early after each tick and takes its records after two ticks of three.
fn show_ticks<V: Scale, S: Source<Value = V>, O: Outbox<V>>(
    rt: &HostRuntime,
    monitor: &mut Monitor<'_, V>,
    rules: u8,
    source: &S,
    outbox: &mut O,
) -> io::Result<()> {
    show_reads(rt, monitor, rules)?;
    for i in 0..source.length().saturating_add(2) {
        match monitor.tick(source, outbox) {
            Ok(()) => rt.println("tick")?,
            Err(fault) => println!(rt; "tick refused {}", fault.number())?,
        }
        show_reads(rt, monitor, rules)?;
        if i % 3 != 1 {
            show_takes(rt, outbox)?;
        }
    }
    Ok(())
}

/// The life of a monitor over so many values of memory.
pub(crate) fn live<V: Scale, S: Source<Value = V>, O: Outbox<V>>(
    rt: &HostRuntime,
    plan: Plan,
    size: usize,
    source: &S,
    outbox: &mut O,
) -> anyhow::Result<()> {
    let mut memory = vec![in rt.alloc(); V::highest(); size]?;
    let rules = plan.rules().len() as u8;
    let mut monitor = Monitor::set_up(plan, memory.as_mut_slice());
    let shown = show_ticks(rt, &mut monitor, rules, source, outbox);
    // A monitor has to be closed, also where a line could not be printed.
    let totals = monitor.close();
    shown?;
    show_totals(rt, &totals)?;
    Ok(())
}
