//! When a schedule is due.

ghost use Rattle.std.specs.Prelude.{IsTrue, ◌↔◌};
ghost use Rattle.zr_schedule.specs.Due.{IsDue};

use crate::next::next_cron;
use crate::spec::CronSpec;
use zr_names::Moment;

/// How often something is to be done.
#[derive(Clone, Copy, PartialEq, Eq)]
pub enum When {
    Never,
    /// So many milliseconds after the last time.
    Every(u64),
    Cron(CronSpec),
}

/// Whether it is time again, where `last` is the last time, if there is one.
pub fn due(when: &When, last: Option<Moment>, now: Moment) -> bool
    ensures { IsTrue result ↔ IsDue when.now last now }
{
    match (when, last) {
        (When::Never, _) | (When::Cron(_), None) => false,
        (When::Every(_), None) => true,
        (When::Every(ms), Some(last)) => last.ms().saturating_add(*ms) <= now.ms(),
        (When::Cron(spec), Some(last)) => match next_cron(spec, last) {
            Some(next) => next <= now,
            None => false,
        },
    }
}
