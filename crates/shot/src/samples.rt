//! Samples from lines of 0 and 1.
use scale::yes_no::YesNo;
use std::io;
use std::io::{BufRead, BufReader};

/// The sample of a digit.
fn sample(digit: u8) -> Option<YesNo> {
    match digit {
        b'0' => Some(YesNo::No),
        b'1' => Some(YesNo::Yes),
        _ => None,
    }
}

/// Whether a line is of so many digits, each 0 or 1.
fn is_row(line: &[u8], width: usize) -> bool {
    line.len() == width && line.iter().all(|digit| sample(*digit).is_some())
}

/// The samples of the lines up to the first that is not of so many digits, row after row.
pub(crate) fn read_samples(rt: &HostRuntime, width: usize) -> io::Result<Vec<YesNo>> {
    let mut samples = Vec::new(rt.alloc());
    for line in BufReader::new(rt.alloc(), rt.reader())?.lines(rt.alloc()) {
        let line = line?;
        if !is_row(line.as_bytes(), width) {
            break;
        }
        for digit in line.as_bytes() {
            if let Some(value) = sample(*digit) {
                samples.push(value)?;
            }
        }
    }
    Ok(samples)
}
