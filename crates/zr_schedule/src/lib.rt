//! When snapshots are due: cron specs, their texts, and the least minute after a moment at which one fires.
#![tactic(auto)]

mod calendar;
mod field;
mod item;
mod next;
mod read;
mod schedule;
mod spec;

pub use next::next_cron;
pub use read::{CronFault, read_cron};
pub use schedule::{When, due};
pub use spec::CronSpec;
