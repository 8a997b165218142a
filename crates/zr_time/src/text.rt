//! The text of a stamp, as it stands in the name of a snapshot, both ways.

ghost use Rattle.std.specs.Prelude.{◌≡◌, ◌<◌, ℕ, List, length, IsTrue};
ghost use Rattle.std.specs.Cmp.Lexicographic.{slice_cmp};
ghost use Rattle.std.specs.Ordering.{nat_cmp};
ghost use Rattle.std.specs.declared.cmp.Ordering.TheVariants.{Less};
ghost use Rattle.zr_time.specs.Reading.{ReadsCivil, ReadsClock, ReadsDay};
ghost use Rattle.zr_time.specs.Stamps.{IsStamp, ReadsStamp};

use crate::civil::{Civil, Clock, Day, civil_of, moment_of};
use crate::digits::{digit, number};
use zr_names::Moment;

/// A moment in UTC as `YYYYMMDD_HHMMSS_mmm`, in ASCII.
#[derive(Clone, Copy, PartialEq, Eq, PartialOrd, Ord)]
pub struct StampText(pub [u8; 19]);

/// The text is the stamp of no moment.
#[derive(Clone, Copy, PartialEq, Eq)]
pub struct BadStamp;

/// The stamp of a moment.
pub fn stamp(moment: Moment) -> StampText
    ensures value { IsStamp moment result.0 }
    ensures only { (text : List ℕ) → IsStamp moment text → text ≡ result.0 }
    ensures of_no_other { (other : ℕ) → IsStamp other result.0 → other ≡ moment }
    ensures rising { (later : ℕ) (text : List ℕ) → moment < later → IsStamp later text
        → slice_cmp nat_cmp result.0 text ≡ Less }
{
    let civil = civil_of(moment);
    let (day, clock) = (civil.day, civil.clock);
    StampText([
        digit(day.year, 1000),
        digit(day.year, 100),
        digit(day.year, 10),
        digit(day.year, 1),
        digit(day.month, 10),
        digit(day.month, 1),
        digit(day.day, 10),
        digit(day.day, 1),
        b'_',
        digit(clock.hour, 10),
        digit(clock.hour, 1),
        digit(clock.minute, 10),
        digit(clock.minute, 1),
        digit(clock.second, 10),
        digit(clock.second, 1),
        b'_',
        digit(clock.milli, 100),
        digit(clock.milli, 10),
        digit(clock.milli, 1),
    ])
}

fn read_day(text: &[u8]) -> Option<Day>
    requires { length text.now ≡ 8 }
    ensures { ReadsDay text.now result }
{
    let (year, rest) = text.split_at(4);
    let (month, day) = rest.split_at(2);
    Some(Day {
        year: number(year)?,
        month: number(month)?,
        day: number(day)?,
    })
}

fn read_clock(text: &[u8]) -> Option<Clock>
    requires { length text.now ≡ 10 }
    ensures { ReadsClock text.now result }
{
    let (hour, rest) = text.split_at(2);
    let (minute, rest) = rest.split_at(2);
    let (second, rest) = rest.split_at(2);
    let (mark, milli) = rest.split_at(1);
    if mark[0] != b'_' {
        return None;
    }
    Some(Clock {
        hour: number(hour)?,
        minute: number(minute)?,
        second: number(second)?,
        milli: number(milli)?,
    })
}

fn read_civil(text: &[u8]) -> Option<Civil>
    ensures { ReadsCivil text.now result }
{
    if text.len() != 19 || text[8] != b'_' {
        return None;
    }
    Some(Civil {
        day: read_day(&text[..8])?,
        clock: read_clock(&text[9..])?,
    })
}

/// The moment of a stamp.
pub fn read_stamp(text: &[u8]) -> Result<Moment, BadStamp>
    ensures { ReadsStamp text.now result }
{
    match read_civil(text) {
        Some(civil) => moment_of(&civil).ok_or(BadStamp),
        None => Err(BadStamp),
    }
}

/// Whether a moment's stamp reads as that moment.
pub fn stamp_is_read_again(moment: Moment) -> bool
    ensures { IsTrue result }
{
    match read_stamp(&stamp(moment).0) {
        Ok(again) => again == moment,
        Err(BadStamp) => false,
    }
}

/// Whether a text that reads as a moment is that moment's stamp.
pub fn read_stamp_is_written_again(text: &[u8]) -> bool
    ensures { IsTrue result }
{
    match read_stamp(text) {
        Ok(moment) => stamp(moment).0.as_slice() == text,
        Err(BadStamp) => true,
    }
}

/// Whether the stamps of two moments stand in the order of the moments.
pub fn stamps_stand_as_moments(one: Moment, other: Moment) -> bool
    ensures { IsTrue result }
{
    stamp(one).cmp(&stamp(other)) == one.cmp(&other)
}
