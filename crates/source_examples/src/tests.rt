//! Examples of sources, asked from outside: what a caller sees of rows, of comparators over rows, and of their faults.
ghost use Rattle.std.specs.Prelude.{◌≤◌};

use comparators::Comparators;
use comparators::adding::{AddFault, Given, Term};
use margin::Margin;
use scale::Scale;
use scale::yes_no::YesNo;
use source::fault::Fault;
use source::rows::Rows;
use source::{Source, first_fault};
use std::test::Fail;

fn fault(number: u8, layer: u8, tick: usize, sample: usize) -> Fault {
    Fault {
        number,
        layer,
        tick,
        sample,
    }
}

fn margin(value: i16) -> Margin {
    Margin::new(value).unwrap_or(Margin::lowest())
}

fn term(word: usize, sign: i32, shift: u32) -> Term {
    Term { word, sign, shift }
}

fn given(first: Term, second: Term, comparison: u32, limit: i32) -> Given {
    Given {
        first,
        second,
        comparison,
        limit,
    }
}

/// There are at most 32 comparators, of whatever source: a caller knows that of the width.
fn width_of<S: Source<Value = Margin>>(source: &Comparators<S>) -> usize
    ensures { result ≤ 32 }
{
    source.width()
}

#[test]
fn past_the_length_comes_before_past_the_width(rt: HostRuntime) {
    let values = [YesNo::Yes, YesNo::No];
    let rows = Rows::new(&values, 2);
    assert_eq!(rt; rows.ask(0, 1), Ok(YesNo::No));
    assert_eq!(rt; rows.ask(0, 9), Err(fault(34, 1, 0, 9)));
    assert_eq!(rt; rows.ask(1, 9), Err(fault(33, 1, 1, 9)));
}

#[test]
fn a_partial_last_row_is_no_tick(rt: HostRuntime) {
    let values = [YesNo::Yes; 5];
    assert_eq!(rt; Rows::new(&values, 2).length(), 2);
    assert_eq!(rt; Rows::new(&values, 6).length(), 0);
    assert_eq!(rt; Rows::new(&values, 0).length(), 0);
}

#[test]
fn twice_a_less_b_is_at_least_ten(rt: HostRuntime) -> Result<(), Fail> {
    let values = [margin(7), margin(4), margin(6), margin(3)];
    let mut sums = Comparators::new(Rows::new(&values, 2));
    sums.add(given(term(0, 1, 1), term(1, -1, 0), 6, 10))?;
    assert_eq!(rt; sums.ask(0, 0), Ok(YesNo::Yes), "14 - 4");
    assert_eq!(rt; sums.ask(1, 0), Ok(YesNo::No), "12 - 3");
    Ok(())
}

#[test]
fn a_fault_from_below_passes_unless_the_sign_is_0(rt: HostRuntime) -> Result<(), Fail> {
    let values = [margin(-1)];
    let mut sums = Comparators::new(Rows::new(&values, 1));
    sums.add(given(term(0, 1, 0), term(5, 1, 0), 3, 0))?;
    sums.add(given(term(0, 1, 0), term(5, 0, 0), 3, 0))?;
    assert_eq!(rt; sums.ask(0, 0), Err(fault(34, 1, 0, 5)));
    assert_eq!(rt; sums.ask(0, 1), Ok(YesNo::Yes));
    assert_eq!(rt; sums.ask(0, 2), Err(fault(34, 3, 0, 2)));
    Ok(())
}

#[test]
fn there_are_at_most_32_comparators(rt: HostRuntime) -> Result<(), Fail> {
    let values = [margin(-1)];
    let mut sums = Comparators::new(Rows::new(&values, 1));
    assert_eq!(rt;
        sums.add(given(term(0, 2, 0), term(0, 1, 0), 7, 0)),
        Err(AddFault::BadTerm)
    );
    for _ in 0..32 {
        sums.add(given(term(0, 1, 7), term(0, 1, 7), 4, 0))?;
    }
    assert_eq!(rt;
        sums.add(given(term(0, 2, 0), term(0, 1, 0), 7, 0)),
        Err(AddFault::Full)
    );
    assert_eq!(rt; width_of(&sums), 32);
    Ok(())
}

#[test]
fn faults_carry_the_layer_constant(rt: HostRuntime) {
    let values = [margin(-1)];
    let sums = Comparators::new(Rows::new(&values, 1));
    assert_eq!(rt; Rows::<Margin>::LAYER, 1);
    assert_eq!(rt;
        first_fault(&sums, 0, &[4, 5]),
        Some(fault(34, Comparators::<Rows<'_, Margin>>::LAYER, 0, 4))
    );
}
