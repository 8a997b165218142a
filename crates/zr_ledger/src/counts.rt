//! What the ledger counts. A number stays at `u64::MAX` once there.

use zr_names::{Outcome, Totals, Work};

/// A number for each kind of work.
#[derive(Clone, Copy)]
pub struct Kinds {
    pub scan: u64,
    pub parents: u64,
    pub snap: u64,
    pub replicate: u64,
    pub prune_source: u64,
    pub prune_target: u64,
}

impl Kinds {
    ghost use Rattle.std.specs.Prelude.{◌≡◌};
    ghost use Rattle.zr_ledger.specs.Steps.{no_kinds, raised};

    pub(crate) fn none() -> Kinds
        ensures { result ≡ no_kinds }
    {
        Kinds {
            scan: 0,
            parents: 0,
            snap: 0,
            replicate: 0,
            prune_source: 0,
            prune_target: 0,
        }
    }

    /// One more of this work's kind.
    pub(crate) fn raise(&mut self, work: &Work)
        ensures { self.new ≡ raised work.now self.old }
    {
        match work {
            Work::Scan => self.scan = self.scan.saturating_add(1),
            Work::Parents => self.parents = self.parents.saturating_add(1),
            Work::Snap(_, _) => self.snap = self.snap.saturating_add(1),
            Work::Replicate(_) => self.replicate = self.replicate.saturating_add(1),
            Work::PruneSource(_) => self.prune_source = self.prune_source.saturating_add(1),
            Work::PruneTarget(_) => self.prune_target = self.prune_target.saturating_add(1),
        }
    }
}

/// The run numbers that were given, the totals, and for each kind of work how many units were accepted, taken
/// and coalesced.
#[derive(Clone, Copy)]
pub struct Counts {
    /// The last run number that was given: 0 before the first.
    pub given: u64,
    pub totals: Totals,
    pub accepted: Kinds,
    pub taken: Kinds,
    pub coalesced: Kinds,
}

impl Counts {
    ghost use Rattle.std.specs.Prelude.{◌≡◌, ◌+◌, ◌-◌, ◌^◌, ◌<◌};
    ghost use Rattle.zr_ledger.specs.Steps.{no_counts, with_coalesced, with_end, with_new, with_run};

    pub(crate) fn none() -> Counts
        ensures { result ≡ no_counts }
    {
        Counts {
            given: 0,
            totals: Totals::default(),
            accepted: Kinds::none(),
            taken: Kinds::none(),
            coalesced: Kinds::none(),
        }
    }

    /// A unit of this work starts, with the next run number.
    pub(crate) fn start(&mut self, work: &Work)
        requires { self.old.given < 2 ^ 64 - 1 }
        ensures { self.new ≡ with_run work.now self.old }
    {
        self.given += 1;
        self.taken.raise(work);
    }

    /// A unit ends.
    pub(crate) fn end(&mut self, outcome: &Outcome)
        ensures { self.new ≡ with_end outcome.now self.old }
    {
        self.totals.count(outcome);
    }

    /// A unit of this work is due and waits.
    pub(crate) fn accept(&mut self, work: &Work)
        ensures { self.new ≡ with_new work.now self.old }
    {
        self.totals.due = self.totals.due.saturating_add(1);
        self.accepted.raise(work);
    }

    /// A unit of this work is due and has its like already.
    pub(crate) fn coalesce(&mut self, work: &Work)
        ensures { self.new ≡ with_coalesced work.now self.old }
    {
        self.totals.due = self.totals.due.saturating_add(1);
        self.totals.coalesced = self.totals.coalesced.saturating_add(1);
        self.coalesced.raise(work);
    }
}
