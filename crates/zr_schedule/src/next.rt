//! The least minute after a moment at which a cron spec fires.

ghost use Rattle.std.specs.Prelude.{◌≡◌, ◌+◌, ◌<◌, ◌≤◌, IfSome};
ghost use Rattle.zr_schedule.specs.Calendar.{month_length};
ghost use Rattle.zr_schedule.specs.Schedule.{IsNextMinute};
ghost use Rattle.zr_schedule.specs.Search.{IsFirst, fires_on, fires_at, fires_in};

use crate::calendar::{END_DAY, Month, month_of, weekday};
use crate::spec::{CronSpec, day_fields_match, has, may_match};
use zr_names::Moment;

const MINUTE_MS: u64 = 60_000;

const DAY_MINUTES: u64 = 1_440;

/// The first time of day that matches, in minutes since midnight.
fn first_time(spec: &CronSpec, from: u64) -> Option<u64>
    requires { from < 1440 }
    ensures first { IsFirst (fires_at spec.now) from 1440 result }
    ensures within { IfSome result (λ time. time < 1440) }
{
    for time in from..DAY_MINUTES {
        if has(spec.hours, time / 60) && has(spec.minutes, time % 60) {
            return Some(time);
        }
    }
    None
}

/// The first day of a month that matches.
fn first_day_in(spec: &CronSpec, month: &Month, from: u64) -> Option<u64>
    requires from { month.now.first ≤ from }
    requires early { month.now.first < 376200 }
    ensures first { IsFirst (fires_on spec.now) from
        (month.now.first + month_length month.now.year month.now.month) result }
    ensures soon { IfSome result (λ day. day < 400000) }
{
    if !has(spec.months, month.month) {
        return None;
    }
    // a spec that fires seldom or never leaves out most months as a whole
    if !may_match(spec, month.length()) {
        return None;
    }
    for day in from..month.first + month.length() {
        if day_fields_match(spec, day - month.first + 1, weekday(day)) {
            return Some(day);
        }
    }
    None
}

/// The first day that matches.
fn first_day(spec: &CronSpec, from: u64) -> Option<u64>
    requires { from ≤ 376200 }
    ensures first { IsFirst (fires_on spec.now) from 376200 result }
    ensures soon { IfSome result (λ day. day < 400000) }
{
    let mut month = month_of(from);
    while month.first < END_DAY {
        if let Some(day) = first_day_in(spec, &month, from.max(month.first)) {
            return Some(day);
        }
        month = month.next();
    }
    None
}

/// The first minute that matches, counted from 1970.
fn first_minute(spec: &CronSpec, from: u64) -> Option<u64>
    requires { from ≤ 541728000 }
    ensures first { IsFirst (fires_in spec.now) from 541728000 result }
    ensures soon { IfSome result (λ minute. minute < 600000000) }
{
    let opening = first_time(spec, 0)?;
    let today = from / DAY_MINUTES;
    let day = first_day(spec, today)?;
    if day > today {
        return Some(day * DAY_MINUTES + opening);
    }
    if let Some(time) = first_time(spec, from % DAY_MINUTES) {
        return Some(today * DAY_MINUTES + time);
    }
    if today == END_DAY {
        return None;
    }
    let day = first_day(spec, today + 1)?;
    Some(day * DAY_MINUTES + opening)
}

/// The next minute at which `spec` fires, by the clock of UTC.
pub fn next_cron(spec: &CronSpec, after: Moment) -> Option<Moment>
    ensures { IsNextMinute spec.now after result }
{
    let minute = first_minute(spec, after.ms() / MINUTE_MS + 1)?;
    Moment::new(minute * MINUTE_MS)
}
