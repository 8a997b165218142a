//! Cron texts: five fields parted by blanks.

ghost use Rattle.std.specs.Prelude.{◌≡◌, ◌<◌, ◌+◌, ◌∷◌, ◌&&◌, ◌||◌, ◌==◌, nat_lt, ℕ, [], List, MatchOption, IfOk, IfErr, false};
ghost use Rattle.std.specs.List.{position};
ghost use Rattle.zr_schedule.specs.declared.item.Limits.{Limits as LimitsValue};
ghost use Rattle.zr_schedule.specs.declared.spec.CronSpec.{CronSpec as CronSpecValue};
ghost use Rattle.zr_schedule.specs.Schedule.{has};
ghost use Rattle.zr_schedule.specs.Words.{is_blank, skip, words};
ghost use Rattle.zr_schedule.specs.Fault.{IsNextField, IsFaultAt};
ghost use Rattle.zr_schedule.specs.Read.{ReadsCron, IsCron};

use crate::field::read_field;
use crate::item::Limits;
use crate::spec::{CronSpec, seven_as_zero};

/// Why a text is no cron text.
#[derive(Clone, Copy, PartialEq, Eq)]
pub enum CronFault {
    /// The first bad field, counted from 1, and the byte in it, counted from 0, at which it goes wrong. Of a field that
    /// is missing, and of a sixth, it is byte 0.
    BadCron { field: u8, place: usize },
}

fn skip_blanks(text: &[u8]) -> &[u8]
    ensures { result.now ≡ skip text.now }
{
    let mut rest = text;
    while let [b' ' | b'\t', more @ ..] = rest {
        rest = more;
    }
    rest
}

fn first_blank(text: &[u8]) -> Option<usize>
    ensures { result ≡ position is_blank text.now }
{
    text.iter().position(|b| *b == b' ' || *b == b'\t')
}

/// The first word of a text, and what comes after it.
#[tactic(auto, using(crate::proofs::Parts::word_first, crate::proofs::Parts::word_last, crate::proofs::Parts::word_none, crate::proofs::Parts::place_within))]
fn next_word(text: &[u8]) -> Option<(&[u8], &[u8])>
    ensures { MatchOption result (words text.now ≡ [])
        (λ x. words text.now ≡ x.0.now ∷ words x.1.now) }
{
    let found = skip_blanks(text);
    if found.is_empty() {
        return None;
    }
    match first_blank(found) {
        Some(end) => Some((&found[..end], &found[end + 1..])),
        None => Some((found, &found[found.len()..])),
    }
}

/// The set of the next field of a text, and what comes after it. `field` is its number.
fn next_field(text: &[u8], field: u8, limits: Limits) -> Result<(u64, &[u8]), CronFault>
    requires { limits.high < 64 }
    ensures good { IfOk result (λ x. IsNextField limits (words text.now) x.0 (words x.1.now)) }
    ensures bad { IfErr result
        (λ fault. (more : List LimitsValue)
        → IsFaultAt (limits ∷ more) (words text.now) field fault) }
{
    let Some((word, rest)) = next_word(text) else {
        return Err(CronFault::BadCron { field, place: 0 });
    };
    match read_field(word, limits) {
        Ok(set) => Ok((set, rest)),
        Err(place) => Err(CronFault::BadCron { field, place }),
    }
}

const MINUTES: Limits = Limits { low: 0, high: 59 };

const HOURS: Limits = Limits { low: 0, high: 23 };

const DAYS: Limits = Limits { low: 1, high: 31 };

const MONTHS: Limits = Limits { low: 1, high: 12 };

/// 0 and 7 are Sunday.
const WEEKDAYS: Limits = Limits { low: 0, high: 7 };

/// Five fields parted by blanks: minute, hour, day of the month, month, and day of the week. Each has items parted by
/// commas: `*`, `n` or `n-m`, and `/s` behind one for each `s`th value of it. After crontab(5), without names.
pub fn read_cron(text: &[u8]) -> Result<CronSpec, CronFault>
    ensures reads { ReadsCron text.now result }
    ensures only { (spec : CronSpecValue) → IsCron text.now spec → result ≡ Ok spec }
{
    let (minutes, rest) = next_field(text, 1, MINUTES)?;
    let (hours, rest) = next_field(rest, 2, HOURS)?;
    let (days, rest) = next_field(rest, 3, DAYS)?;
    let (months, rest) = next_field(rest, 4, MONTHS)?;
    let (weekdays, rest) = next_field(rest, 5, WEEKDAYS)?;
    if next_word(rest).is_some() {
        return Err(CronFault::BadCron { field: 6, place: 0 });
    }
    Ok(CronSpec {
        minutes,
        hours,
        days,
        months,
        weekdays: seven_as_zero(weekdays),
    })
}
