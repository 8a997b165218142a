//! Spans, and grids: what their texts read as, how they print, and the rows that a grid keeps.
//! Answers were worked out from the grammar by hand.

use std::alloc::Global;
use tests_lines::{
    Unread, ask_of, bytes_of, column, count, counted, is_wanted, number, placed, shown, text, told,
};
use zr_grid::{
    GridFault, GridRow, GridSpec, Interval, Intervals, Keep, SpanFault, grid_keeps, is_ascending,
    is_grid, print_grid, read_grid, read_span,
};

/// `keep` has a grid and rows, each its creation and transaction group; some match no pattern, of some the mark is set.
const CASES: &str = r"
# span values
span 10m => seconds: 600
span \s10\sm\s => seconds: 600
span 0m => bad at 1
span \e => bad at 0
span \s\s\s => bad at 3
span 5 => bad at 1
span 5x => bad at 1
span m => bad at 0
span 01h => seconds: 3600
span 00s => bad at 2
span 0 s => bad at 1
span \t2\td\t => seconds: 172800
span 1w => seconds: 604800
span 1W => bad at 1
span 1 2m => bad at 2
span 1mm => bad at 2
span 1m 2 => bad at 3
span 3153600000s => seconds: 3153600000
span 3153600001s => too big
span 36500d => seconds: 3153600000
span 36501d => too big
span 18446744073709551616s => too big
span 99999999999999999999999999w => too big
span 18446744073709551616s! => bad at 21
span -1s => bad at 0
span 1\ns => bad at 1
span 1s\r => bad at 2
span 000000000000000000000000000001s => seconds: 1
# canonical grid text
grid 24x1h => 24x3600s
grid 24x1h|14x1d(keep=all) => 24x3600s | 14x86400s(keep=all)
grid 100000x1s => 100000x1s
grid \s1\sx\s1\sh\s(\skeep\s=\sall\s)\s => 1x3600s(keep=all)
grid 1x1h(keep=1) => 1x3600s
grid 1x1h(keep=01) => 1x3600s
grid 1x1h(keep=0) => 1x3600s(keep=0)
grid 1x1h(keep=007) => 1x3600s(keep=7)
grid 1x1h(keep=4294967295) => 1x3600s(keep=4294967295)
grid 1x1h(keep=1)|2x1d => 1x3600s | 2x86400s
grid 99999x1s|1x1s => 99999x1s | 1x1s
grid 1x36500d => 1x3153600000s
grid \t002x03m\t|\t1x1w => 2x180s | 1x604800s
grid 1x1h(keep = 10 )|1x1d => 1x3600s(keep=10) | 1x86400s
grid 1x1h(\tkeep\t=\t2\t)\t => 1x3600s(keep=2)
grid 24x3600s | 14x86400s(keep=all) => 24x3600s | 14x86400s(keep=all)
# grid faults
grid 24x1y => bad at 4
grid 100001x1s => too big
grid \e => bad at 0
grid | => bad at 0
grid 1x1h| => bad at 5
grid 1x1h||1x1h => bad at 5
grid 0x1h => bad at 1
grid 00x1h => bad at 2
grid 1x0h => bad at 3
grid 1x1h(keep=4294967296) => too big
grid 1x1h(keep=al) => bad at 12
grid 1x1h(keep=ax) => bad at 11
grid 1x1h(kept=1) => bad at 7
grid 1x1h(keep1) => bad at 9
grid 1x1h() => bad at 5
grid 1x1h(keep=) => bad at 10
grid 1x1h(keep=1 => bad at 11
grid 1x1h(keep=1)) => bad at 12
grid 99999x1s|2x1s => too big
grid 50000x1h|50000x1h|1x1s => too big
grid 1x3153600001s => too big
grid 1x1s|1x36501d|1x1s => too big
grid 100001x1s|x => bad at 10
grid 18446744073709551616x1s => too big
grid 1x1s(keep=18446744073709551616) => too big
grid 1X1h => bad at 1
grid 1x1h(keep=all => bad at 13
grid 1x1h(keep=all1) => bad at 13
grid 1x1h(keep=1 2) => bad at 12
grid 1x1h,1x1d => bad at 4
grid 1x1h(keep=-1) => bad at 10
grid 1x1h (keep=1) ( => bad at 14
# a grid keeps the oldest of each interval
keep 1x1h(keep=all) | 2x1h of 1699989200:7 1699992800:7 1699994600:7 1699996400:7 1699998200:7 1700000000:7 => -xx-xx
# a grid counts matching rows alone: a row that does not match is neither kept nor counted, and gives no age; a mark
# that is set stays set
keep 1x10s(keep=2) of 100:1:other:set 110:2 110:3 119:4 130:5:other => xxx--
# of equal rows the earlier is older
keep 1x1s of 5:9 5:9 5:10 => x--
# rows beyond the grid, slots without rows, and rows at the left edges of age 10 and 20
keep 2x10s | 1x100s(keep=2) of 0:1 900:2 1000:3 1001:4 1049:5 1080:6 1089:7 1090:8 1100:9 => --xx--x-x
keep 3x5s | 2x20s of 0:1 46:2 65:3 66:4 84:5 85:6 86:7 => -xx-x--
# a grid made by hand, and one of no intervals
hand 7 86400 1 => a grid: 7x86400s; 1 in it
hand none => no grid: ; 0 in it";

fn span_text(alloc: Global, ask: &str) -> Result<String, Unread> {
    match read_span(bytes_of(alloc, ask)?.as_slice()) {
        Ok(seconds) => counted(alloc, "seconds:", seconds),
        Err(SpanFault::BadSpan(place)) => placed(alloc, "bad at", place),
        Err(SpanFault::SpanTooBig) => text(alloc, "too big"),
    }
}

fn printed(alloc: Global, grid: &GridSpec) -> Result<String, Unread> {
    let bytes = print_grid(alloc, grid)?;
    text(alloc, shown(bytes.as_slice()))
}

/// The printed text as it is read and printed once more.
fn twice_printed(alloc: Global, grid: &GridSpec) -> Result<String, Unread> {
    let once = print_grid(alloc, grid)?;
    match read_grid(alloc, once.as_slice()) {
        Ok(again) => printed(alloc, &again),
        Err(_) => Err(Unread),
    }
}

fn grid_text(alloc: Global, ask: &str) -> Result<String, Unread> {
    let read = read_grid(alloc, bytes_of(alloc, ask)?.as_slice());
    read_text(alloc, &read)
}

fn read_text(alloc: Global, read: &Result<GridSpec, GridFault>) -> Result<String, Unread> {
    match read {
        Ok(grid) => twice_printed(alloc, grid),
        Err(GridFault::BadGrid(place)) => placed(alloc, "bad at", *place),
        Err(GridFault::GridTooBig) => text(alloc, "too big"),
        Err(GridFault::NoMemory) => Err(Unread),
    }
}

fn row(text: &str) -> Result<GridRow, Unread> {
    let mut words = text.split(":");
    Ok(GridRow {
        creation: number(column(&mut words))?,
        txg: number(column(&mut words))?,
        matches: column(&mut words) != "other",
    })
}

fn rows(alloc: Global, list: &str) -> Result<Vec<GridRow>, Unread> {
    let mut rows = Vec::new(alloc);
    for text in list.split(' ') {
        rows.push(row(text)?)?;
    }
    Ok(rows)
}

fn marks(alloc: Global, list: &str) -> Result<Vec<bool>, Unread> {
    let mut marks = Vec::new(alloc);
    for text in list.split(' ') {
        marks.push(text.ends_with(":set"))?;
    }
    Ok(marks)
}

fn marks_text(alloc: Global, marks: &[bool]) -> Result<String, Unread> {
    let mut out = String::new(alloc);
    for mark in marks {
        out.push_str(if *mark { "x" } else { "-" })?;
    }
    Ok(out)
}

/// The marks of rows that are set before, or that the grid sets.
fn marked(
    alloc: Global,
    grid: &GridSpec,
    rows: &[GridRow],
    marks: &mut [bool],
) -> Result<String, Unread> {
    if !is_grid(grid) || !is_ascending(rows) || marks.len() != rows.len() {
        return text(alloc, "no grid, or rows in no order");
    }
    grid_keeps(grid, rows, marks);
    marks_text(alloc, marks)
}

fn kept_of(alloc: Global, grid: &GridSpec, list: &str) -> Result<String, Unread> {
    let rows = rows(alloc, list)?;
    let mut marks = marks(alloc, list)?;
    marked(alloc, grid, rows.as_slice(), marks.as_mut_slice())
}

fn kept_text(alloc: Global, ask: &str) -> Result<String, Unread> {
    let (grid, list) = ask.split_once(" of ").ok_or(Unread)?;
    match read_grid(alloc, grid.as_bytes()) {
        Ok(grid) => kept_of(alloc, &grid, list),
        Err(_) => Err(Unread),
    }
}

fn interval(ask: &str) -> Result<Interval, Unread> {
    let mut words = ask.split(" ");
    Ok(Interval {
        count: count(column(&mut words))?,
        width: number(column(&mut words))?,
        keep: Keep::Most(count(column(&mut words))?),
    })
}

fn intervals(alloc: Global, ask: &str) -> Result<Intervals, Unread> {
    let mut items = Vec::new(alloc);
    if ask != "none" {
        items.push(interval(ask)?)?;
    }
    Ok(Intervals::from_vec(items))
}

fn hand_text(alloc: Global, ask: &str) -> Result<String, Unread> {
    let grid = GridSpec {
        intervals: intervals(alloc, ask)?,
    };
    let kind = if is_grid(&grid) { "a grid" } else { "no grid" };
    let copy = grid.clone()?;
    let printed = printed(alloc, &grid)?;
    let count = copy.intervals.into_vec().len();
    Ok(format!(in alloc; "{kind}: {printed}; {count} in it")?)
}

fn said(alloc: Global, ask: &str) -> Result<String, Unread> {
    let (verb, rest) = ask.split_once(' ').ok_or(Unread)?;
    match verb {
        "span" => span_text(alloc, rest),
        "grid" => grid_text(alloc, rest),
        "keep" => kept_text(alloc, rest),
        "hand" => hand_text(alloc, rest),
        _ => Err(Unread),
    }
}

#[test]
fn spans_and_grids(rt: HostRuntime) {
    for line in CASES.lines() {
        if let Some(ask) = ask_of(line) {
            let said = said(rt.alloc(), ask);
            assert!(rt; is_wanted(line, &said), "{line}: {}", told(&said));
        }
    }
}

/// Rows of the creations from 1 on, each of the transaction group of the same number.
fn first_rows(alloc: Global, count: u64) -> Result<Vec<GridRow>, Unread> {
    let mut rows = Vec::new(alloc);
    for before in 0..count {
        rows.push(GridRow {
            creation: before + 1,
            txg: before + 1,
            matches: true,
        })?;
    }
    Ok(rows)
}

fn count_kept(marks: &str) -> usize {
    marks.bytes().filter(|mark| *mark == b'x').count()
}

fn halves_kept(alloc: Global) -> Result<String, Unread> {
    let rows = first_rows(alloc, 200_000)?;
    let mut marks = vec![in alloc; false; rows.len()]?;
    let Ok(grid) = read_grid(alloc, b"100000x1s") else {
        return Err(Unread);
    };
    let marks = marked(alloc, &grid, rows.as_slice(), marks.as_mut_slice())?;
    let (older, younger) = marks.as_str().split_at_checked(100_000).ok_or(Unread)?;
    let (older, younger) = (count_kept(older), count_kept(younger));
    Ok(format!(in alloc; "{older} of the older half, {younger} of the younger")?)
}

/// The grid has 100,000 seconds, the rows have 200,000: a body that compares each row with each would not end in time.
#[test]
fn the_older_half_goes(rt: HostRuntime) {
    let line =
        "of the creations 1 to 200000 the grid 100000x1s keeps => 0 of the older half, 100000 of the younger";
    let said = halves_kept(rt.alloc());
    assert!(rt; is_wanted(line, &said), "{line}: {}", told(&said));
}
