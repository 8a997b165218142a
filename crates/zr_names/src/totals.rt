//! The sums over outcomes that the totals line prints.

ghost use Rattle.std.specs.Prelude.{◌≡◌};
ghost use Rattle.zr_names.specs.Totals.{counted, summed};

use crate::outcome::Outcome;

/// How many units were due, were done and ended in which way. A total stays at `u64::MAX` once there.
#[derive(Clone, Copy, Default, PartialEq, Eq)]
pub struct Totals {
    pub due: u64,
    pub done: u64,
    pub coalesced: u64,
    pub taken: u64,
    pub fresh: u64,
    pub steps: u64,
    pub uptodate: u64,
    pub conflicts: u64,
    pub destroyed: u64,
    pub busy: u64,
    pub placeholders: u64,
    pub toolong: u64,
    pub faults: u64,
    pub garbled: u64,
    pub nomemory: u64,
}

impl Totals {
    /// Counts the outcome of one unit that is done.
    pub fn count(&mut self, outcome: &Outcome)
        ensures { self.new ≡ counted outcome.now self.old }
    {
        self.done = self.done.saturating_add(1);
        match *outcome {
            Outcome::Scanned { too_long, .. } => {
                self.toolong = self.toolong.saturating_add(u64::from(too_long));
            }
            Outcome::Parents(made) => {
                self.placeholders = self.placeholders.saturating_add(u64::from(made));
            }
            Outcome::Taken => self.taken = self.taken.saturating_add(1),
            Outcome::FreshEnough => self.fresh = self.fresh.saturating_add(1),
            Outcome::UpToDate => self.uptodate = self.uptodate.saturating_add(1),
            Outcome::Replicated(steps) => self.steps = self.steps.saturating_add(u64::from(steps)),
            Outcome::Pruned { destroyed, busy } => {
                self.destroyed = self.destroyed.saturating_add(u64::from(destroyed));
                self.busy = self.busy.saturating_add(u64::from(busy));
            }
            Outcome::Conflict(_) => self.conflicts = self.conflicts.saturating_add(1),
            Outcome::ChildFault(_) => self.faults = self.faults.saturating_add(1),
            Outcome::Garbled { .. } => self.garbled = self.garbled.saturating_add(1),
            Outcome::NoMemory => self.nomemory = self.nomemory.saturating_add(1),
        }
    }

    /// Adds the totals of another part of the work.
    pub fn add(&mut self, other: &Totals)
        ensures { self.new ≡ summed self.old other.now }
    {
        self.due = self.due.saturating_add(other.due);
        self.done = self.done.saturating_add(other.done);
        self.coalesced = self.coalesced.saturating_add(other.coalesced);
        self.taken = self.taken.saturating_add(other.taken);
        self.fresh = self.fresh.saturating_add(other.fresh);
        self.steps = self.steps.saturating_add(other.steps);
        self.uptodate = self.uptodate.saturating_add(other.uptodate);
        self.conflicts = self.conflicts.saturating_add(other.conflicts);
        self.destroyed = self.destroyed.saturating_add(other.destroyed);
        self.busy = self.busy.saturating_add(other.busy);
        self.placeholders = self.placeholders.saturating_add(other.placeholders);
        self.toolong = self.toolong.saturating_add(other.toolong);
        self.faults = self.faults.saturating_add(other.faults);
        self.garbled = self.garbled.saturating_add(other.garbled);
        self.nomemory = self.nomemory.saturating_add(other.nomemory);
    }
}
