//! The Gregorian calendar, month by month.

ghost use Rattle.std.specs.Prelude.{◌≡◌, ◌+◌, ◌<◌, ◌≤◌, ◌%◌, ◌==◌};
ghost use Rattle.zr_schedule.specs.Calendar.{is_leap, month_length, first_of, date_of, weekday_of};

/// Days from 1970-01-01 to 3000-01-01, at which the moments end.
pub const END_DAY: u64 = 376_200;

/// A month of a year.
#[derive(Clone, Copy)]
pub struct Month {
    pub year: u64,
    /// 1 to 12.
    pub month: u64,
    /// Its first day, counted from 1970-01-01.
    pub first: u64,
    ghost begins: { date_of first ≡ first_of year month },
    ghost counts: { 0 < month },
    ghost within: { month ≤ 12 },
    ghost early: { year ≤ 1970 + first },
}

fn is_leap(year: u64) -> bool
    ensures { result ≡ is_leap year }
{
    year % 4 == 0 && (year % 100 != 0 || year % 400 == 0)
}

impl Month {
    /// January 1970.
    pub fn epoch() -> Month
        ensures { result.first ≡ 0 }
    {
        Month {
            year: 1970,
            month: 1,
            first: 0,
        }
    }

    /// How many days it has.
    pub fn length(&self) -> u64
        ensures same { result ≡ month_length self.now.year self.now.month }
        ensures some { 0 < result }
        ensures few { result ≤ 31 }
    {
        match self.month {
            2 if is_leap(self.year) => 29,
            2 => 28,
            4 | 6 | 9 | 11 => 30,
            _ => 31,
        }
    }

    /// The month after it.
    #[tactic(auto, using(crate::proofs::Months::next_month, crate::proofs::Months::next_year))]
    pub fn next(&self) -> Month
        requires { self.now.first < 376200 }
        ensures { result.first ≡ self.now.first + month_length self.now.year self.now.month }
    {
        let first = self.first + self.length();
        if self.month < 12 {
            Month {
                year: self.year,
                month: self.month + 1,
                first,
            }
        } else {
            Month {
                year: self.year + 1,
                month: 1,
                first,
            }
        }
    }
}

/// The month that a day lies in.
pub fn month_of(day: u64) -> Month
    requires { day ≤ 376200 }
    ensures begun { result.first ≤ day }
    ensures within { day < result.first + month_length result.year result.month }
{
    let mut month = Month::epoch();
    while month.first + month.length() <= day {
        month = month.next();
    }
    month
}

/// The day of the week, from 0 for Sunday.
pub fn weekday(day: u64) -> u64
    requires { day < 1000000 }
    ensures same { result ≡ weekday_of day }
    ensures below { result < 7 }
{
    (day + 4) % 7
}
