//! Lives of monitors, on both scales, over rows and comparators, with a ring and with a book: each is ticked past the end of
//! its source, every rule is read early after each tick, and records are taken after two ticks of three, so that an outbox
//! fills up. Every call is printed with its answer, values by their codes. What has to be printed comes from a model that
//! keeps the whole trace and is no part of this repository.
#![tactic(auto)]

mod every_kind;
mod shown;

use book::Book;
use comparators::Comparators;
use comparators::adding::{Given, Term};
use every_kind::every_kind;
use margin::Margin;
use queue::Ring;
use record::Record;
use scale::Scale;
use scale::yes_no::YesNo;
use shown::{BLANK, live};
use source::rows::Rows;
use table_check::plan::{Plan, check};

/// Two samples a tick.
const WIDTH: usize = 2;

const NUMBERS: [i16; 24] = [
    5, -3, 4, 2, -32767, 7, 1, 1, -2, 6, 8, -8, 3, 3, 0, 9, -1, -6, 32767, 4, 2, -5, 6, 0,
];

const DIGITS: [u8; 24] = [
    0, 1, 1, 0, 1, 1, 0, 0, 1, 0, 1, 0, 0, 0, 0, 1, 1, 1, 1, 0, 0, 1, 1, 0,
];

fn margins() -> [Margin; 24] {
    NUMBERS.map(|number| Margin::new(number).unwrap_or(Margin::lowest()))
}

fn verdicts() -> [YesNo; 24] {
    DIGITS.map(|digit| YesNo::from(digit == 1))
}

const fn term(word: usize, sign: i32, shift: u32) -> Term {
    Term { word, sign, shift }
}

fn with_ring(rt: &HostRuntime, plan: Plan) -> anyhow::Result<()> {
    rt.println("yes/no, rows, ring")?;
    let mut slots = [BLANK; 24];
    let values = verdicts();
    live(
        rt,
        plan,
        plan.need() as usize,
        &Rows::new(&values, WIDTH),
        &mut Ring::new(&mut slots),
    )
}

fn with_comparators(rt: &HostRuntime, plan: Plan) -> anyhow::Result<()> {
    rt.println("yes/no, comparators, book")?;
    let mut bytes = [0xee; 650];
    let values = margins();
    let mut source = Comparators::new(Rows::new(&values, WIDTH));
    let twice_less = Given {
        first: term(0, 1, 1),
        second: term(1, -1, 0),
        comparison: 6,
        limit: 3,
    };
    let alone = Given {
        first: term(7, 0, 0),
        second: term(1, 1, 2),
        comparison: 3,
        limit: 2,
    };
    for given in [twice_less, alone] {
        if let Err(fault) = source.add(given) {
            println!(rt; "refused {}", fault.number())?;
        }
    }
    live(
        rt,
        plan,
        plan.need() as usize,
        &source,
        &mut Book::new(&mut bytes),
    )
}

fn with_margins(rt: &HostRuntime, plan: Plan) -> anyhow::Result<()> {
    let values = margins();
    let rows = Rows::new(&values, WIDTH);
    rt.println("margins, rows, ring")?;
    let mut slots = [Record {
        rule: 0,
        first: 0,
        last: 0,
        value: Margin::lowest(),
        lag: 0,
    }; 20];
    live(
        rt,
        plan,
        plan.need() as usize,
        &rows,
        &mut Ring::new(&mut slots),
    )?;
    rt.println("margins, rows, book")?;
    let mut bytes = [0xee; 900];
    live(
        rt,
        plan,
        plan.need() as usize,
        &rows,
        &mut Book::new(&mut bytes),
    )
}

fn with_too_little(rt: &HostRuntime, plan: Plan) -> anyhow::Result<()> {
    rt.println("a value of memory too few")?;
    let mut slots = [BLANK; 24];
    let values = verdicts();
    live(
        rt,
        plan,
        (plan.need() as usize).saturating_sub(1),
        &Rows::new(&values, WIDTH),
        &mut Ring::new(&mut slots),
    )
}

fn main(rt: HostRuntime) -> anyhow::Result<()> {
    let mut plan = Plan::of_sample_0();
    if let Err(fault) = check(&every_kind(rt.alloc())?, &mut plan) {
        println!(&rt; "refused {}", fault.number())?;
        return Ok(());
    }
    println!(&rt; "need {}, burst {}", plan.need(), plan.burst())?;
    with_ring(&rt, plan)?;
    with_comparators(&rt, plan)?;
    with_margins(&rt, plan)?;
    with_too_little(&rt, plan)
}
