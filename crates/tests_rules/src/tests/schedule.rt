//! Cron texts: the sets that they read as, the next minute after a moment, and whether something is due.
//! What is wanted was reckoned with another program's calendar, and not with `zr_schedule`.

use std::alloc::Global;
use std::str::Split;
use tests_lines::{
    Unread, answer, ask_of, bytes_of, column, counted, is_wanted, number, text, told,
};
use zr_names::Moment;
use zr_schedule::{CronFault, CronSpec, When, due, next_cron, read_cron};

/// What a line shows stands before its text and its moment, in milliseconds; `due` has the last moment and the present.
const CASES: &str = r"
# steps, ranges, lists, months and leap years: the moment and the next minute, by another program's calendar
1970-01-01 00:00:00.000 Thu to 1970-01-01 00:01:00.000 Thu | * * * * * | 0 => at 60000
1970-01-01 00:00:59.999 Thu to 1970-01-01 00:01:00.000 Thu | * * * * * | 59999 => at 60000
1970-01-01 00:01:00.000 Thu to 1970-01-01 00:02:00.000 Thu | * * * * * | 60000 => at 120000
2026-12-01 01:15:00.000 Tue to 2026-12-01 01:30:00.000 Tue | */15 * * * * | 1796087700000 => at 1796088600000
2026-12-01 01:00:00.000 Tue to 2026-12-01 01:07:00.000 Tue | 7/20 * * * * | 1796086800000 => at 1796087220000
2026-12-01 01:47:00.000 Tue to 2026-12-01 02:07:00.000 Tue | 7/20 * * * * | 1796089620000 => at 1796090820000
2026-12-01 01:24:00.000 Tue to 2026-12-01 02:10:00.000 Tue | 10-30/7 * * * * | 1796088240000 => at 1796091000000
2026-12-01 01:25:00.000 Tue to 2026-12-01 02:10:00.000 Tue | 10-30/7 * * * * | 1796088300000 => at 1796091000000
2026-12-01 01:36:00.000 Tue to 2026-12-01 01:50:00.000 Tue | 5,35,50 * * * * | 1796088960000 => at 1796089800000
2026-12-01 18:00:00.000 Tue to 2026-12-02 00:00:00.000 Wed | 0 */6 * * * | 1796148000000 => at 1796169600000
2026-12-01 09:30:00.000 Tue to 2026-12-01 17:30:00.000 Tue | 30 1/8 * * * | 1796117400000 => at 1796146200000
2026-12-31 23:59:00.000 Thu to 2027-12-31 23:59:00.000 Fri | 59 23 31 12 * | 1798761540000 => at 1830297540000
2026-12-31 23:59:59.999 Thu to 2027-01-01 00:00:00.000 Fri | 0 0 * * * | 1798761599999 => at 1798761600000
2026-01-01 00:00:00.000 Thu to 2027-01-01 00:00:00.000 Fri | 0 0 1 1 * | 1767225600000 => at 1798761600000
2026-01-31 00:00:00.000 Sat to 2026-03-31 00:00:00.000 Tue | 0 0 31 * * | 1769817600000 => at 1774915200000
2026-08-31 00:00:00.000 Mon to 2026-10-31 00:00:00.000 Sat | 0 0 31 * * | 1788134400000 => at 1793404800000
2027-01-30 00:00:00.000 Sat to 2027-03-30 00:00:00.000 Tue | 0 0 30 * * | 1801267200000 => at 1806364800000
2026-12-01 00:00:00.000 Tue to 2028-02-29 00:00:00.000 Tue | 0 0 29 2 * | 1796083200000 => at 1835395200000
2028-02-29 00:00:00.000 Tue to 2032-02-29 00:00:00.000 Sun | 0 0 29 2 * | 1835395200000 => at 1961625600000
2096-02-29 00:00:00.000 Wed to 2104-02-29 00:00:00.000 Fri | 0 0 29 2 * | 3981312000000 => at 4233686400000
2196-02-29 00:00:00.000 Mon to 2204-02-29 00:00:00.000 Wed | 0 0 29 2 * | 7136985600000 => at 7389360000000
1996-02-29 00:00:00.000 Thu to 2000-02-29 00:00:00.000 Tue | 0 0 29 2 * | 825552000000 => at 951782400000
2996-02-29 00:00:00.000 Mon to never | 0 0 29 2 * | 32382547200000 => never
1970-01-01 00:00:00.000 Thu to never | 0 0 30 2 * | 0 => never
1970-01-01 00:00:00.000 Thu to never | 0 0 31 2,4,6,9,11 * | 0 => never
2026-12-01 00:00:00.000 Tue to 2027-07-31 00:00:00.000 Sat | 0 0 31 2,4,6-7,9,11 * | 1796083200000 => at 1816992000000
2026-12-01 00:00:00.000 Tue to 2026-12-06 12:00:00.000 Sun | 0 12 * * 7 | 1796083200000 => at 1796558400000
2026-12-06 12:00:00.000 Sun to 2026-12-13 12:00:00.000 Sun | 0 12 * * 0 | 1796558400000 => at 1797163200000
2026-12-04 12:00:00.000 Fri to 2026-12-07 12:00:00.000 Mon | 0 12 * * 1-5 | 1796385600000 => at 1796644800000
2026-12-05 12:00:00.000 Sat to 2026-12-06 12:00:00.000 Sun | 0 12 * * 6-7 | 1796472000000 => at 1796558400000
2026-12-04 12:00:00.000 Fri to 2026-12-06 12:00:00.000 Sun | 0 12 * * 5/2 | 1796385600000 => at 1796558400000
2026-12-06 12:00:00.000 Sun to 2026-12-09 12:00:00.000 Wed | 0 12 * * */3 | 1796558400000 => at 1796817600000
2026-12-11 00:00:00.000 Fri to 2026-12-13 00:00:00.000 Sun | 0 0 13 * 5 | 1796947200000 => at 1797120000000
2026-12-09 00:00:00.000 Wed to 2026-12-15 00:00:00.000 Tue | 0 0 1,15 * 3 | 1796774400000 => at 1797292800000
2026-12-07 00:00:00.000 Mon to 2026-12-11 00:00:00.000 Fri | 0 0 */10 * 1 | 1796601600000 => at 1796947200000
2026-12-07 00:00:00.000 Mon to 2026-12-14 00:00:00.000 Mon | 0 0 1-31 * 1 | 1796601600000 => at 1797206400000
2026-12-11 00:00:00.000 Fri to 2026-12-13 00:00:00.000 Sun | 0 0 13 * 0-6 | 1796947200000 => at 1797120000000
2026-12-13 00:00:00.000 Sun to 2027-01-13 00:00:00.000 Wed | 0 0 13 * 1-7 | 1797120000000 => at 1799798400000
2026-02-02 00:00:00.000 Mon to 2026-02-09 00:00:00.000 Mon | 0 0 29 2 1 | 1769990400000 => at 1770595200000
2028-02-28 00:00:00.000 Mon to 2028-02-29 00:00:00.000 Tue | 0 0 29 2 1 | 1835308800000 => at 1835395200000
2026-06-01 04:15:00.000 Mon to 2026-11-01 04:15:00.000 Sun | 15 4 1 */5 * | 1780287300000 => at 1793506500000
2026-11-01 00:00:00.000 Sun to 2027-02-01 00:00:00.000 Mon | 0 0 1 2/3 * | 1793491200000 => at 1801440000000
2026-06-05 08:40:00.000 Fri to 2026-06-05 09:20:00.000 Fri | 20,40 8-10 5 6 * | 1780648800000 => at 1780651200000
2026-06-05 10:40:00.000 Fri to 2027-06-05 08:20:00.000 Sat | 20,40 8-10 5 6 * | 1780656000000 => at 1812183600000
2026-12-01 03:00:00.000 Tue to 2026-12-08 03:00:00.000 Tue | \t 0\s\s3\t* * 2\s\s | 1796094000000 => at 1796698800000
2026-07-28 03:00:00.000 Tue to 2026-08-01 03:00:00.000 Sat | 00 03 01 08 02 | 1785207600000 => at 1785553200000
2998-12-31 23:59:00.000 Mon to 2999-12-31 23:59:00.000 Tue | 59 23 31 12 * | 32472143940000 => at 32503679940000
2999-12-31 23:59:00.000 Tue to never | 59 23 31 12 * | 32503679940000 => never
2999-12-31 23:59:59.999 Tue to never | * * * * * | 32503679999999 => never
2999-01-01 00:00:00.000 Tue to never | 0 0 1 1 * | 32472144000000 => never
1999-02-28 00:00:00.000 Sun to 2000-02-28 00:00:00.000 Mon | 0 0 28 2 * | 920160000000 => at 951696000000
2000-02-28 00:00:00.000 Mon to 2000-03-01 00:00:00.000 Wed | 0 0 1 3 * | 951696000000 => at 951868800000
2100-02-28 00:00:00.000 Sun to 2101-02-01 00:00:00.000 Tue | 0 0 * 2 * | 4107456000000 => at 4136659200000
# the first of the month, or a Monday
Monday | 0 0 1 * 1 | 1708905599999 => at 1708905600000
Friday | 0 0 1 * 1 | 1708905600000 => at 1709251200000
# sets of no value never match
no minutes | * * * * * | 0 => never
no hours | * * * * * | 0 => never
no days | * * * * * | 0 => never
no months | * * * * * | 0 => never
no weekdays | * * * * * | 0 => never
# bad texts name field and place
read \e => field 1 at 0
read \s\s\s => field 1 at 0
read * * * * => field 5 at 0
read 60 * * * * => field 1 at 0
read 5-1 * * * * => field 1 at 2
read * * * * * * => field 6 at 0
read * * * * * x => field 6 at 0
read x * * * * => field 1 at 0
read *x * * * * => field 1 at 1
read ** * * * * => field 1 at 1
read 1- * * * * => field 1 at 2
read - * * * * => field 1 at 0
read 1-2- * * * * => field 1 at 3
read 123 * * * * => field 1 at 2
read 603 * * * * => field 1 at 0
read 1,, * * * * => field 1 at 2
read , * * * * => field 1 at 0
read 1, * * * * => field 1 at 2
read */0 * * * * => field 1 at 2
read */00 * * * * => field 1 at 2
read */ * * * * => field 1 at 2
read */5/5 * * * * => field 1 at 3
read *-5 * * * * => field 1 at 1
read 1/2-3 * * * * => field 1 at 3
read 5-1x * * * * => field 1 at 2
read 1-60 * * * * => field 1 at 2
read 1,2,61 * * * * => field 1 at 4
read * 24 * * * => field 2 at 0
read * * 0 * * => field 3 at 0
read * * 32 * * => field 3 at 0
read * * 1-32 * * => field 3 at 2
read * * * 13 * => field 4 at 0
read * * * 0 * => field 4 at 0
read * * * * 8 => field 5 at 0
read * * * * 7-0 => field 5 at 2
read * * * * 6-8 => field 5 at 2
read * * * jan * => field 4 at 0
read @hourly => field 1 at 0
read * * * *\n* => field 4 at 1
read * * * * *\n => field 5 at 1
read 1-2/3,4/0 * * * * => field 1 at 8
read 5-/2 * * * * => field 1 at 2
read /5 * * * * => field 1 at 0
read */100 * * * * => field 1 at 4
read 01-1,001 * * * * => field 1 at 7
# texts become sets
read 3/15 8-9,17 * */3 6,7 => minutes 3 18 33 48; hours 8 9 17; days 1 2 3 4 5 6 7 8 9 10 11 12 13 14 15 16 17 18 19 20 21 22 23 24 25 26 27 28 29 30 31; months 1 4 7 10; weekdays 0 6;
# due from the minute on
due never | 1708905599999 | 1708905600000 => false
due every 5 | none | 1708905599999 => true
due every 1 | 1708905599999 | 1708905600000 => true
due every 2 | 1708905599999 | 1708905600000 => false
due every 18446744073709551615 | 1708905599999 | 1708905600000 => false
due every 0 | 1708905600000 | 1708905599999 => false
due 0 0 1 * 1 | none | 1708905600000 => false
due 0 0 1 * 1 | 1708905599999 | 1708905599999 => false
due 0 0 1 * 1 | 1708905599999 | 1708905600000 => true
due 0 0 1 * 1 | 1708905600000 | 1708905600000 => false";

fn cron(alloc: Global, text: &str) -> Result<CronSpec, Unread> {
    let bytes = bytes_of(alloc, text)?;
    read_cron(bytes.as_slice()).ok().ok_or(Unread)
}

fn moment(columns: &mut Split<'_, &'static str>) -> Result<Moment, Unread> {
    Moment::new(number(column(columns))?).ok_or(Unread)
}

/// The sets, of which one may be left without a value.
fn changed(spec: CronSpec, why: &str) -> CronSpec {
    match why {
        "no minutes" => CronSpec { minutes: 0, ..spec },
        "no hours" => CronSpec { hours: 0, ..spec },
        "no days" => CronSpec { days: 0, ..spec },
        "no months" => CronSpec { months: 0, ..spec },
        "no weekdays" => CronSpec {
            weekdays: 0,
            ..spec
        },
        _ => spec,
    }
}

fn next_text(alloc: Global, ask: &str) -> Result<String, Unread> {
    let mut columns = ask.split(" | ");
    let why = column(&mut columns);
    let spec = changed(cron(alloc, column(&mut columns))?, why);
    match next_cron(&spec, moment(&mut columns)?) {
        Some(next) => counted(alloc, "at", next.ms()),
        None => text(alloc, "never"),
    }
}

fn push_set(out: &mut String, name: &str, set: u64) -> Result<(), Unread> {
    out.push_str(name)?;
    for place in 0..64u32 {
        if set >> place & 1 == 1 {
            write!(out, " {place}")?;
        }
    }
    out.push_str(";")?;
    Ok(())
}

fn push_sets(out: &mut String, spec: &CronSpec) -> Result<(), Unread> {
    push_set(out, "minutes", spec.minutes)?;
    push_set(out, " hours", spec.hours)?;
    push_set(out, " days", spec.days)?;
    push_set(out, " months", spec.months)?;
    push_set(out, " weekdays", spec.weekdays)
}

fn sets_text(alloc: Global, spec: &CronSpec) -> Result<String, Unread> {
    let mut out = String::new(alloc);
    push_sets(&mut out, spec)?;
    Ok(out)
}

fn read_text(alloc: Global, ask: &str) -> Result<String, Unread> {
    match read_cron(bytes_of(alloc, ask)?.as_slice()) {
        Ok(spec) => sets_text(alloc, &spec),
        Err(CronFault::BadCron { field, place }) => {
            Ok(format!(in alloc; "field {field} at {place}")?)
        }
    }
}

fn when(alloc: Global, text: &str) -> Result<When, Unread> {
    match text.split_once(' ') {
        None => Ok(When::Never),
        Some(("every", span)) => Ok(When::Every(number(span)?)),
        Some(_) => Ok(When::Cron(cron(alloc, text)?)),
    }
}

fn due_text(alloc: Global, ask: &str) -> Result<String, Unread> {
    let mut columns = ask.split(" | ");
    let when = when(alloc, column(&mut columns))?;
    let last = moment(&mut columns).ok();
    answer(alloc, due(&when, last, moment(&mut columns)?))
}

fn said(alloc: Global, ask: &str) -> Result<String, Unread> {
    match ask.split_once(' ') {
        Some(("read", cron)) => read_text(alloc, cron),
        Some(("due", rest)) => due_text(alloc, rest),
        _ => next_text(alloc, ask),
    }
}

#[test]
fn cron_texts(rt: HostRuntime) {
    for line in CASES.lines() {
        if let Some(ask) = ask_of(line) {
            let said = said(rt.alloc(), ask);
            assert!(rt; is_wanted(line, &said), "{line}: {}", told(&said));
        }
    }
}
