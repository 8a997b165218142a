//! Next minutes of cron texts, as bench/schedule.sh times them.

use std::io;
use zr_names::Moment;
use zr_schedule::{CronFault, CronSpec, next_cron, read_cron};

const MINUTE_MS: u64 = 60_000;

/// The last of so many answers, with a sum of them all: so no call can be left out.
fn last_of(count: u64, from: u64, spec: &CronSpec) -> (Option<u64>, u64) {
    let mut last = None;
    let mut sum: u64 = 0;
    let mut ms = from;
    for _ in 0..count {
        last = match Moment::new(ms) {
            Some(after) => next_cron(spec, after).map(|moment| moment.ms()),
            None => None,
        };
        sum = sum.wrapping_add(last.unwrap_or(1));
        ms = ms.saturating_add(MINUTE_MS);
    }
    (last, sum)
}

/// Two numbers and what comes after them.
fn parts(line: &str) -> Option<(u64, u64, &str)> {
    let (count, rest) = line.split_once(' ')?;
    let (from, text) = rest.split_once(' ')?;
    Some((count.parse().ok()?, from.parse().ok()?, text))
}

/// A line of standard input has a count, a moment and a cron text: asks for the next minute as many times as the count says,
/// each time a minute later, and prints the last answer.
pub fn find_minutes(rt: &HostRuntime) -> io::Result<()> {
    for line in rt.lines(rt.alloc()) {
        let line = line?;
        let Some((count, from, text)) = parts(line.as_str()) else {
            println!(rt; "not a count, a moment and a text")?;
            continue;
        };
        match read_cron(text.as_bytes()) {
            Ok(spec) => {
                let (last, sum) = last_of(count, from, &spec);
                println!(rt; "{last:?} {sum}")?;
            }
            Err(CronFault::BadCron { field, place }) => {
                println!(rt; "bad cron: field {field}, place {place}")?;
            }
        }
    }
    Ok(())
}
