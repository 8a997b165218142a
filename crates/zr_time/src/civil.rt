//! Dates and times of a UTC clock, and the moments that they are. Apart from `text`, which only
//! spells them.

ghost use Rattle.std.specs.Prelude.{◌≡◌, ◌<◌, ◌↔◌, ◌*ℤ◌, pos, IsSome, IfSome};
ghost use Rattle.jiff_core.specs.DateTime.{civil_nanos};
ghost use Rattle.zr_names.specs.declared.moment.TheConstants.{END_OF_TIME};
ghost use Rattle.zr_time.specs.Reading.{ClockFits, DayFits, IsCivil, MomentOf};
ghost use Rattle.zr_time.specs.Stamps.{Shows, millis_of};

use jiff::Timestamp;
use jiff::civil::DateTime;
use jiff::tz::Offset;
use zr_names::Moment;

/// A day of the Gregorian calendar.
#[derive(Clone, Copy, PartialEq, Eq)]
pub struct Day {
    pub year: u16,
    /// From 1.
    pub month: u16,
    /// From 1.
    pub day: u16,
}

/// A time of day.
#[derive(Clone, Copy, PartialEq, Eq)]
pub struct Clock {
    pub hour: u16,
    pub minute: u16,
    pub second: u16,
    pub milli: u16,
}

/// A date and time in UTC.
#[derive(Clone, Copy, PartialEq, Eq)]
pub struct Civil {
    pub day: Day,
    pub clock: Clock,
}

fn instant_of(moment: Moment) -> Timestamp
    ensures { result.nanosecond ≡ pos moment *ℤ pos 1_000_000 }
{
    match Timestamp::from_millisecond(moment.ms() as i64) {
        Ok(instant) => instant,
        Err(_) => unreachable!(),
    }
}

/// What a clock in UTC shows at a moment.
pub(crate) fn civil_of(moment: Moment) -> Civil
    ensures shows { Shows moment result }
    ensures before_the_end { moment < END_OF_TIME }
{
    let shown = Offset::UTC.to_datetime(instant_of(moment));
    Civil {
        day: Day {
            year: shown.year().unsigned_abs(),
            month: u16::from(shown.month().unsigned_abs()),
            day: u16::from(shown.day().unsigned_abs()),
        },
        clock: Clock {
            hour: u16::from(shown.hour().unsigned_abs()),
            minute: u16::from(shown.minute().unsigned_abs()),
            second: u16::from(shown.second().unsigned_abs()),
            milli: shown.millisecond().unsigned_abs(),
        },
    }
}

fn datetime_of(civil: &Civil) -> Option<DateTime>
    requires day { DayFits civil.now.day }
    requires clock { ClockFits civil.now.clock }
    ensures exists { IsSome result ↔ IsCivil civil.now }
    ensures value { IfSome result
        (λ shown. civil_nanos shown ≡ millis_of civil.now *ℤ pos 1_000_000) }
{
    let (day, clock) = (civil.day, civil.clock);
    DateTime::new(
        day.year as i16,
        day.month as i8,
        day.day as i8,
        clock.hour as i8,
        clock.minute as i8,
        clock.second as i8,
        (u32::from(clock.milli) * 1_000_000) as i32,
    )
    .ok()
}

/// The moment at which a clock in UTC shows this date and time, if the calendar and a clock have it.
pub(crate) fn moment_of(civil: &Civil) -> Option<Moment>
    requires day { DayFits civil.now.day }
    requires clock { ClockFits civil.now.clock }
    ensures { MomentOf civil.now result }
{
    let shown = datetime_of(civil)?;
    let instant = Offset::UTC.to_timestamp(shown).ok()?;
    Moment::new(u64::try_from(instant.as_millisecond()).ok()?)
}
