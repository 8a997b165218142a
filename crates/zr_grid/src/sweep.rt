//! A sweep through the slots of a grid, from its far end, where the oldest rows lie, to age 0.
//! It stands apart since it knows ages alone, and no rows.

ghost use Rattle.std.specs.Prelude.{◌≡◌, ◌+◌, ◌*◌, ◌<◌, ◌≤◌, length, take};
ghost use Rattle.zr_grid.specs.Grid.{IsInterval, IsGrid, total};
ghost use Rattle.zr_grid.specs.Sweep.{span_of, IsReached, Holds, IsAt, Enters, Moves};

use crate::grid::{Interval, Keep};

/// An interval that the sweep has reached.
#[derive(Clone, Copy)]
pub struct Reached {
    /// How many intervals have younger ages.
    pub younger: usize,
    /// The age at which it begins, in seconds.
    pub start: u64,
}

/// Where a sweep stands: in a slot, or beyond the grid.
#[derive(Clone, Copy)]
pub struct Place {
    /// The interval of the slot.
    pub reached: Reached,
    /// The age at which the slot begins, in seconds.
    pub begin: u64,
    /// What the slot keeps.
    pub keep: Keep,
    /// How many rows the sweep has met there, each older than those to come.
    pub older: usize,
}

fn seconds(interval: &Interval) -> u64
    requires { IsInterval interval.now }
    ensures { result ≡ interval.now.count * interval.now.width }
{
    u64::from(interval.count) * interval.width
}

/// The age at which the grid ends.
fn far_end(intervals: &[Interval]) -> u64
    requires { IsGrid intervals.now }
    ensures { result ≡ span_of intervals.now }
{
    let mut end = 0;
    for interval in intervals {
        end += seconds(interval);
    }
    end
}

/// The interval of an age, at or before the one that was reached.
fn reach(intervals: &[Interval], from: Reached, age: u64) -> Reached
    requires grid { IsGrid intervals.now }
    requires from { IsReached intervals.now from }
    requires below { age < span_of (take (from.younger + 1) intervals.now) }
    ensures { Holds intervals.now age result }
{
    let mut reached = from;
    while age < reached.start {
        reached.younger -= 1;
        reached.start -= seconds(&intervals[reached.younger]);
    }
    reached
}

/// Beyond the grid, where nothing is kept.
pub fn beyond(intervals: &[Interval]) -> Place
    requires { IsGrid intervals.now }
    ensures stands { IsAt intervals.now (total intervals.now) result }
    ensures none { result.older ≡ 0 }
{
    let end = far_end(intervals);
    Place {
        reached: Reached {
            younger: intervals.len(),
            start: end,
        },
        begin: end,
        keep: Keep::Most(0),
        older: 0,
    }
}

/// The slot of an age that is younger than the slot where the sweep stands.
fn entered(intervals: &[Interval], place: Place, age: u64) -> Place
    requires grid { IsGrid intervals.now }
    requires from { IsReached intervals.now place.reached }
    requires below { age < span_of (take (place.reached.younger + 1) intervals.now) }
    ensures { Enters intervals.now age result }
{
    let reached = reach(intervals, place.reached, age);
    let interval = &intervals[reached.younger];
    let number = (age - reached.start) / interval.width;
    Place {
        reached,
        begin: reached.start + number * interval.width,
        keep: interval.keep,
        older: 0,
    }
}

/// Where the sweep stands at an age that is not above the last one.
pub fn moved(intervals: &[Interval], place: Place, age: u64) -> Place
    requires grid { IsGrid intervals.now }
    requires from { IsReached intervals.now place.reached }
    requires within { place.begin ≤ span_of (take (place.reached.younger + 1) intervals.now) }
    ensures { Moves intervals.now place age result }
{
    if place.begin <= age {
        return place;
    }
    entered(intervals, place, age)
}
