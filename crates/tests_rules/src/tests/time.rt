//! Stamps of moments. Moments are milliseconds since 1970-01-01T00:00:00Z, and the stamps are from Python's `datetime`.
//! A stamp that does not read as its moment is told with the word `only`.

use std::alloc::Global;
use tests_lines::{
    Unread, answer, ask_of, bytes_of, counted, is_wanted, number, shown, text, told,
};
use zr_names::Moment;
use zr_time::{
    StampText, read_stamp, read_stamp_is_written_again, stamp, stamp_is_read_again,
    stamps_stand_as_moments,
};

const CASES: &str = r"
# moments and their stamps
0 => 19700101_000000_000
1 => 19700101_000000_001
999 => 19700101_000000_999
1000 => 19700101_000001_000
86399999 => 19700101_235959_999
86400000 => 19700102_000000_000
1709210096789 => 20240229_123456_789
32503679999999 => 29991231_235959_999
# the last millisecond of each month, in a year without and in one with a leap day, and each month's first
1675209599999 => 20230131_235959_999
1677628799999 => 20230228_235959_999
1680307199999 => 20230331_235959_999
1682899199999 => 20230430_235959_999
1685577599999 => 20230531_235959_999
1688169599999 => 20230630_235959_999
1690847999999 => 20230731_235959_999
1693526399999 => 20230831_235959_999
1696118399999 => 20230930_235959_999
1698796799999 => 20231031_235959_999
1701388799999 => 20231130_235959_999
1704067199999 => 20231231_235959_999
1706745599999 => 20240131_235959_999
1709251199999 => 20240229_235959_999
1711929599999 => 20240331_235959_999
1714521599999 => 20240430_235959_999
1717199999999 => 20240531_235959_999
1719791999999 => 20240630_235959_999
1722470399999 => 20240731_235959_999
1725148799999 => 20240831_235959_999
1727740799999 => 20240930_235959_999
1730419199999 => 20241031_235959_999
1733011199999 => 20241130_235959_999
1735689599999 => 20241231_235959_999
1704067200000 => 20240101_000000_000
1706745600000 => 20240201_000000_000
1709251200000 => 20240301_000000_000
1711929600000 => 20240401_000000_000
1714521600000 => 20240501_000000_000
1717200000000 => 20240601_000000_000
1719792000000 => 20240701_000000_000
1722470400000 => 20240801_000000_000
1725148800000 => 20240901_000000_000
1727740800000 => 20241001_000000_000
1730419200000 => 20241101_000000_000
1733011200000 => 20241201_000000_000
# the end of February and what comes behind it, and a moment of the last day of the year
5097599999 => 19700228_235959_999
5097600000 => 19700301_000000_000
5097600000 => 19700301_000000_000
31494615007 => 19701231_123015_007
68169599999 => 19720228_235959_999
68169600000 => 19720229_000000_000
68256000000 => 19720301_000000_000
94653015007 => 19721231_123015_007
951782399999 => 20000228_235959_999
951782400000 => 20000229_000000_000
951868800000 => 20000301_000000_000
978265815007 => 20001231_123015_007
1709164799999 => 20240228_235959_999
1709164800000 => 20240229_000000_000
1709251200000 => 20240301_000000_000
1735648215007 => 20241231_123015_007
3981311999999 => 20960228_235959_999
3981312000000 => 20960229_000000_000
3981398400000 => 20960301_000000_000
4007795415007 => 20961231_123015_007
4107542399999 => 21000228_235959_999
4107542400000 => 21000301_000000_000
4107542400000 => 21000301_000000_000
4133939415007 => 21001231_123015_007
4233686399999 => 21040228_235959_999
4233686400000 => 21040229_000000_000
4233772800000 => 21040301_000000_000
4260169815007 => 21041231_123015_007
13574563199999 => 24000228_235959_999
13574563200000 => 24000229_000000_000
13574649600000 => 24000301_000000_000
13601046615007 => 24001231_123015_007
26197343999999 => 28000228_235959_999
26197344000000 => 28000229_000000_000
26197430400000 => 28000301_000000_000
26223827415007 => 28001231_123015_007
29353103999999 => 29000228_235959_999
29353104000000 => 29000301_000000_000
29353104000000 => 29000301_000000_000
29379501015007 => 29001231_123015_007
32477241599999 => 29990228_235959_999
32477241600000 => 29990301_000000_000
32477241600000 => 29990301_000000_000
32503638615007 => 29991231_123015_007
# what is the stamp of no moment: no such day or time, another form, before 1970, from the year 3000 on
read 20230229_000000_000 => no stamp
read 20240230_000000_000 => no stamp
read 20240231_000000_000 => no stamp
read 21000229_000000_000 => no stamp
read 20240431_000000_000 => no stamp
read 20240631_000000_000 => no stamp
read 20240931_000000_000 => no stamp
read 20241131_000000_000 => no stamp
read 20240132_000000_000 => no stamp
read 20240100_000000_000 => no stamp
read 20240001_000000_000 => no stamp
read 20241301_000000_000 => no stamp
read 20240101_240000_000 => no stamp
read 20240101_236000_000 => no stamp
read 20240101_235960_000 => no stamp
read 20240101_995959_000 => no stamp
read 19691231_235959_999 => no stamp
read 00000101_000000_000 => no stamp
read 30000101_000000_000 => no stamp
read 99991231_235959_999 => no stamp
read \e => no stamp
read _ => no stamp
read 20240101 => no stamp
read 20240101_000000 => no stamp
read 20240101_000000_ => no stamp
read 20240101_000000_00 => no stamp
read 20240101_000000_0000 => no stamp
read 20240101_000000.000 => no stamp
read 20240101-000000_000 => no stamp
read 20240101_000000_00_ => no stamp
read 2024010_0000000_000 => no stamp
read 20240101 000000 000 => no stamp
read 20240101T000000_000 => no stamp
read +2024101_000000_000 => no stamp
read 2024-101_000000_000 => no stamp
read 20240101_00000a_000 => no stamp
read 20240101_0000:0_000 => no stamp
read 20240101_0000/0_000 => no stamp
read \s0240101_000000_000 => no stamp
read 20240101_000000_000\n => no stamp
# the laws hold when they run
written again 20240229_123456_789 => true
written again 20230229_000000_000 => true
reads again 0 => true
reads again 32503679999999 => true
stand 0 32503679999999 => true
stand 32503679999999 0 => true
stand 32503679999999 32503679999999 => true
# stamps rise with moments
rises from 1969 0 => true
rises from 0 1 => true
rises from 1 999 => true
rises from 999 1000 => true
rises from 1000 59999 => true
rises from 59999 60000 => true
rises from 60000 1709210096789 => true
rises from 1709210096789 32503679999999 => true";

fn moment(text: &str) -> Result<Moment, Unread> {
    Moment::new(number(text)?).ok_or(Unread)
}

fn stamp_text(alloc: Global, moment: Moment) -> Result<String, Unread> {
    let stamp = stamp(moment);
    let only = match read_stamp(stamp.0.as_slice()) {
        Ok(again) if again.ms() == moment.ms() => "",
        _ => " only",
    };
    Ok(format!(in alloc; "{}{only}", shown(stamp.0.as_slice()))?)
}

fn read_text(alloc: Global, stamp: &str) -> Result<String, Unread> {
    match read_stamp(bytes_of(alloc, stamp)?.as_slice()) {
        Ok(moment) => counted(alloc, "at", moment.ms()),
        Err(_) => text(alloc, "no stamp"),
    }
}

/// The stamp of a moment; before the first stands the last of 1969.
fn stamp_of(text: &str) -> Result<StampText, Unread> {
    if text == "1969" {
        return Ok(StampText(*b"19691231_235959_999"));
    }
    Ok(stamp(moment(text)?))
}

fn rises(one: &str, other: &str) -> Result<bool, Unread> {
    Ok(stamp_of(one)? < stamp_of(other)?)
}

fn stand(one: &str, other: &str) -> Result<bool, Unread> {
    Ok(stamps_stand_as_moments(moment(one)?, moment(other)?))
}

fn law(ask: &str) -> Result<bool, Unread> {
    let (front, last) = ask.rsplit_once(' ').ok_or(Unread)?;
    match front.split_once(' ') {
        Some(("written", _)) => Ok(read_stamp_is_written_again(last.as_bytes())),
        Some(("reads", _)) => Ok(stamp_is_read_again(moment(last)?)),
        Some(("stand", one)) => stand(one, last),
        Some(("rises", one)) => rises(one.trim_start_matches("from "), last),
        _ => Err(Unread),
    }
}

fn law_text(alloc: Global, ask: &str) -> Result<String, Unread> {
    answer(alloc, law(ask)?)
}

fn said(alloc: Global, ask: &str) -> Result<String, Unread> {
    if let Some(stamp) = ask.strip_prefix("read ") {
        return read_text(alloc, stamp);
    }
    match moment(ask) {
        Ok(moment) => stamp_text(alloc, moment),
        Err(_) => law_text(alloc, ask),
    }
}

#[test]
fn stamps(rt: HostRuntime) {
    for line in CASES.lines() {
        if let Some(ask) = ask_of(line) {
            let said = said(rt.alloc(), ask);
            assert!(rt; is_wanted(line, &said), "{line}: {}", told(&said));
        }
    }
}
