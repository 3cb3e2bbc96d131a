//! Examples of scales: their ends, their orders and their codes.
use margin::Margin;
use scale::Scale;
use scale::yes_no::YesNo;

#[test]
fn the_ends_of_margins_are_opposite(rt: HostRuntime) {
    assert_eq!(rt; Margin::lowest().get(), -32767);
    assert_eq!(rt; Margin::lowest().reverse(), Margin::highest());
    assert_eq!(rt; Margin::new(-32768), None);
}

#[test]
fn one_code_of_sixteen_bits_is_no_margin(rt: HostRuntime) {
    assert_eq!(rt; Margin::decode(0x8000), None);
    assert_eq!(rt; Margin::decode(0xfffd), Margin::new(-3));
    assert_eq!(rt; Margin::highest().code(), 0x7fff);
}

#[test]
fn no_is_below_yes(rt: HostRuntime) {
    assert_eq!(rt; YesNo::Yes.lesser(YesNo::No), YesNo::No);
    assert_eq!(rt; YesNo::No.greater(YesNo::Yes), YesNo::Yes);
    assert_eq!(rt; YesNo::decode(1), Some(YesNo::Yes));
    assert_eq!(rt; YesNo::decode(2), None);
}
