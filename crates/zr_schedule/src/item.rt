//! The items of a cron field: a star, a number or a range, and a step.

ghost use Rattle.std.specs.Prelude.{◌≡◌, ◌<◌, ◌≤◌, ℕ, IfOk, false};
ghost use Rattle.std.specs.Option.{option_map};
ghost use Rattle.zr_schedule.specs.Schedule.{has};
ghost use Rattle.zr_schedule.specs.Tokens.{tokens};
ghost use Rattle.zr_schedule.specs.Cron.{item_has};
ghost use Rattle.zr_schedule.specs.Fault.{ReadsItem};
ghost use Rattle.zr_schedule.specs.Scan.{Gives, number_first, ended, step_at, after_range, last_at, after_first, numbered_at, item_at};

use crate::spec::with;

/// The least and the greatest value of a field.
#[derive(Clone, Copy)]
pub struct Limits {
    pub low: u64,
    pub high: u64,
}

/// Each `step`th value from `first` to `last`.
#[derive(Clone, Copy)]
pub struct Item {
    pub first: u64,
    pub last: u64,
    pub step: u64,
}

/// How many bytes were left at the place where an item goes wrong.
#[derive(Clone, Copy)]
pub struct Stop {
    pub left: usize,
}

/// A number of one or two digits, and what comes after it.
fn number(text: &[u8]) -> Option<(u64, &[u8])>
    ensures { number_first (tokens text.now) ≡ option_map (λ x. (x.0, tokens x.1.now)) result }
{
    match text {
        [tens @ b'0'..=b'9', ones @ b'0'..=b'9', rest @ ..] => {
            Some((u64::from(*tens - b'0') * 10 + u64::from(*ones - b'0'), rest))
        }
        [digit @ b'0'..=b'9', rest @ ..] => Some((u64::from(*digit - b'0'), rest)),
        _ => None,
    }
}

/// A step, where nothing comes after it.
#[tactic(auto, using(crate::proofs::Tokens::tokens_width))]
fn at_end(text: &[u8], step: u64) -> Result<u64, Stop>
    ensures { Gives result (ended step (tokens text.now)) }
{
    match text {
        [] => Ok(step),
        _ => Err(Stop { left: text.len() }),
    }
}

/// A step, with nothing after it.
#[tactic(auto, using(crate::proofs::Tokens::tokens_width))]
fn step(text: &[u8]) -> Result<u64, Stop>
    ensures { Gives result (step_at (tokens text.now)) }
{
    match number(text) {
        Some((step, rest)) if step >= 1 => at_end(rest, step),
        _ => Err(Stop { left: text.len() }),
    }
}

/// What comes after a range: nothing, or a step, with which the range runs to `end`.
#[tactic(auto, using(crate::proofs::Tokens::tokens_width))]
fn after_range(text: &[u8], first: u64, last: u64, end: u64) -> Result<Item, Stop>
    ensures { Gives result (after_range first last end (tokens text.now)) }
{
    match text {
        [] => Ok(Item {
            first,
            last,
            step: 1,
        }),
        [b'/', rest @ ..] => Ok(Item {
            first,
            last: end,
            step: step(rest)?,
        }),
        _ => Err(Stop { left: text.len() }),
    }
}

/// What comes after the dash of a range.
#[tactic(auto, using(crate::proofs::Tokens::tokens_width))]
fn last(text: &[u8], limits: Limits, first: u64) -> Result<Item, Stop>
    ensures { Gives result (last_at limits first (tokens text.now)) }
{
    match number(text) {
        Some((last, rest)) if first <= last && last <= limits.high => {
            after_range(rest, first, last, last)
        }
        _ => Err(Stop { left: text.len() }),
    }
}

/// What comes after the first number.
fn after_first(text: &[u8], limits: Limits, first: u64) -> Result<Item, Stop>
    ensures { Gives result (after_first limits first (tokens text.now)) }
{
    match text {
        [b'-', rest @ ..] => last(rest, limits, first),
        _ => after_range(text, first, first, limits.high),
    }
}

/// An item that begins with a number.
#[tactic(auto, using(crate::proofs::Tokens::tokens_width))]
fn numbered(text: &[u8], limits: Limits) -> Result<Item, Stop>
    ensures { Gives result (numbered_at limits (tokens text.now)) }
{
    match number(text) {
        Some((first, rest)) if limits.low <= first && first <= limits.high => {
            after_first(rest, limits, first)
        }
        _ => Err(Stop { left: text.len() }),
    }
}

fn scan(text: &[u8], limits: Limits) -> Result<Item, Stop>
    ensures { Gives result (item_at limits (tokens text.now)) }
{
    match text {
        [b'*', rest @ ..] => after_range(rest, limits.low, limits.high, limits.high),
        _ => numbered(text, limits),
    }
}

/// The item that a text is, or the byte of it at which it goes wrong.
pub fn read_item(text: &[u8], limits: Limits) -> Result<Item, usize>
    ensures { ReadsItem limits text.now result }
{
    match scan(text, limits) {
        Ok(item) => Ok(item),
        Err(stop) => Err(text.len() - stop.left),
    }
}

/// The values of an item, as a set.
pub fn values(item: Item) -> u64
    requires last { item.last < 64 }
    requires step { 0 < item.step }
    ensures { (n : ℕ) → has result n ≡ item_has item n }
{
    let mut set = 0;
    for value in item.first..item.last + 1 {
        if (value - item.first) % item.step == 0 {
            set = with(set, value);
        }
    }
    set
}
