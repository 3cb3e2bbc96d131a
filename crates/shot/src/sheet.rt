//! What is printed of a monitor's life.
use calls::call::{Answer, Call};
use engine::fault::TickFault;
use monitor::totals::Totals;
use record::Record;
use scale::yes_no::YesNo;
use std::{fmt, io};

/// The name of the rule.
const NAME: &str = "power_loss";

/// The tick past the last line is refused with this number, and ends the shot.
const PAST_LENGTH: u8 = 33;

/// A record as a line of the sheet.
#[derive(Drop)]
struct Line(Record<YesNo>);

impl fmt::Display for Line {
    fn fmt<W: fmt::Write>(&self, f: &mut fmt::Formatter<W>) -> fmt::Result {
        let record = &self.0;
        let verdict = match record.value {
            YesNo::No => "no",
            YesNo::Yes => "yes",
        };
        write!(
            f,
            "{NAME} {} {} {verdict} {}",
            record.first, record.last, record.lag
        )
    }
}

/// The refusal that ended the run, if it was another than that of the tick past the last line.
fn ended_by(log: &[(Call, Answer<YesNo>)]) -> Option<TickFault> {
    match log.last() {
        Some((_, Answer::Ticked(Err(fault)))) if fault.number() != PAST_LENGTH => Some(*fault),
        _ => None,
    }
}

/// Prints each record that was taken, and then the totals, or the refusal that ended the run.
pub(crate) fn show(
    rt: &HostRuntime,
    log: &[(Call, Answer<YesNo>)],
    totals: &Totals,
) -> io::Result<()> {
    for (_, answer) in log {
        if let Answer::Taken(Ok(record)) = answer {
            println!(rt; "{}", Line(*record))?;
        }
    }
    if let Some(fault) = ended_by(log) {
        return println!(rt; "refused {}", fault.number());
    }
    for total in totals.rules() {
        println!(rt;
            "end {NAME} {} {} {}",
            totals.ticks(),
            total.settled,
            total.open
        )?;
    }
    Ok(())
}
