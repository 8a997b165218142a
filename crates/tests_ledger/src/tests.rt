//! A table for each thing that is shown: a line has the limits, the calls and what each answered, in their order.

mod lines;
mod script;

use lines::{ask_of, check};
use script::said;
use std::alloc::Global;
use std::process::Abort;

/// A ledger that is made and used once.
const FRESH: &str = "
# the clock is here, then out, then back for good; of one scan that is added twice the second is coalesced
1 / 1: take; clock; take; add 0 scan, 0 scan; end; take; take; give 1; take; totals => tick; here; wait; 1; ended; run 1: 0 scan; wait; done; ended; due 2 done 1 coalesced 1
# a ticket of another ledger is a stranger, and so is one of this ledger that came back
1 / 1: add 0 scan; take; foreign; give 1; take => 0; run 1: 0 scan; stranger; done; tick
# what is recalled is not counted, the clock is here again, and a ticket that was out is a stranger
1 / 1: add 0 scan; take; clock; recall; take; give 1; totals => 0; run 1: 0 scan; here; 1; tick; stranger; due 1 done 0 coalesced 0
1 / 1: end; take; recall; take => ended; ended; 0; tick
# the clock is taken once, and not once it has ended
1 / 1: clock; clock; back; clock; end; clock => here; none; back; here; ended; none
# no unit is out, but one waits: it is taken before the clock
1 / 1: end; add 0 parents; take; take => ended; 0; run 1: 0 parents; wait";

/// What is ready, by the line of the list, and what is not.
const READY: &str = "
# scans: another job's, and not the same job's where each is added
1,1 / 1: add 0 scan, 1 scan; take; take; take => 0; run 1: 0 scan; run 2: 1 scan; tick
once 1 / 1: add 0 scan, 0 scan; take; take; give 1; take => 0; run 1: 0 scan; tick; done; run 2: 0 scan
# snapshots: a path and a prefix are taken for all jobs at once
1,1 / 1: add 0 snap p a_, 0 snap p b_, 0 snap q a_; take; take; take => 0; run 1: 0 snap p a_; run 2: 0 snap p b_; run 3: 0 snap q a_
1,1 / 1: add 0 snap p a_, 1 snap p a_; take; add 1 snap p a_; give 1; add 1 snap p a_; take => 1; run 1: 0 snap p a_; 1; done; 0; run 2: 1 snap p a_
# parents: beside a scan, and not while the job replicates
1,1 / 2: add 0 scan; take; add 0 parents; take => 0; run 1: 0 scan; 0; run 2: 0 parents
1,1 / 2: add 0 replicate p; take; add 0 parents, 1 parents; take; take; give 1; take => 0; run 1: 0 replicate p; 0; run 2: 1 parents; tick; done; run 3: 0 parents
once 1 / 1: add 0 parents, 0 parents; take; take => 0; run 1: 0 parents; tick
# a replication waits for each scan, of any job, that waits or is out
1,1 / 1: add 0 replicate p, 1 scan; take; take; give 1; take => 0; run 1: 1 scan; tick; done; run 2: 0 replicate p
# a replication waits for the job's parents
1,1 / 2: add 0 replicate p, 0 parents; take; take; give 1; take => 0; run 1: 0 parents; tick; done; run 2: 0 replicate p
1,1 / 2: add 0 replicate p, 1 parents; take; take => 0; run 1: 0 replicate p; run 2: 1 parents
# a replication waits for the snapshots of its path, of any job
1,1 / 1: add 0 replicate p, 1 snap p a_; take; take; give 1; take => 0; run 1: 1 snap p a_; tick; done; run 2: 0 replicate p
1,1 / 1: add 0 replicate p, 1 snap q a_; take; take => 0; run 1: 0 replicate p; run 2: 1 snap q a_
# a replication waits for those of the job on ancestors of its path, however far above
2,1 / 3: add 0 replicate p/q/r, 0 replicate p; take; take; give 1; take => 0; run 1: 0 replicate p; tick; done; run 2: 0 replicate p/q/r
2,1 / 3: add 0 replicate p, 0 replicate p/q; take; take => 0; run 1: 0 replicate p; tick
2,1 / 3: add 0 replicate p/q, 0 replicate pq; take; take => 0; run 1: 0 replicate p/q; run 2: 0 replicate pq
2,1 / 3: add 0 replicate p, 1 replicate p/q; take; take => 0; run 1: 0 replicate p; run 2: 1 replicate p/q
# a job's limit, and the limit of all jobs
2,1 / 3: add 0 replicate p, 0 replicate q, 0 replicate r; take; take; take; give 2; take => 0; run 1: 0 replicate p; run 2: 0 replicate q; tick; done; run 3: 0 replicate r
2,2 / 2: add 0 replicate p, 1 replicate q, 0 replicate r; take; take; take; give 2; take => 0; run 1: 0 replicate p; run 2: 1 replicate q; tick; done; run 3: 0 replicate r
# a prune waits for the replication of its pair, which is one seat with both prunes
1,1 / 1: add 0 prune-source p, 0 prune-target p, 0 replicate p; take; take; give 1; take; take => 0; run 1: 0 replicate p; tick; done; run 2: 0 prune-source p; tick
1,1 / 1: add 0 prune-source p, 0 prune-target q, 1 replicate p; take; take; take => 0; run 1: 0 prune-source p; run 2: 0 prune-target q; run 3: 1 replicate p
# a prune of the source waits for the snapshots of its path, a prune of the target does not
1,1 / 1: add 0 prune-source p, 0 prune-target q, 1 snap p a_, 1 snap q a_; take; take; take; give 2; take => 0; run 1: 0 prune-target q; run 2: 1 snap p a_; run 3: 1 snap q a_; done; run 4: 0 prune-source p
# the first in the order of adding is taken
1,1 / 2: add 1 parents, 0 parents, 1 scan; take; take; take => 0; run 1: 1 parents; run 2: 0 parents; run 3: 1 scan";

/// What is coalesced.
const COALESCED: &str = "
# a unit whose like waits or is out
1,1 / 1: add 0 replicate p, 0 replicate p, 1 replicate p, 0 replicate q; add 0 replicate q => 1; 1
1,1 / 1: add 0 replicate p; take; add 0 replicate p; give 1; add 0 replicate p; totals => 0; run 1: 0 replicate p; 1; done; 0; due 3 done 1 coalesced 1
1,1 / 1: add 0 prune-source p, 0 prune-target p, 0 replicate p, 0 snap p a_, 0 snap p b_; totals => 0; due 5 done 0 coalesced 0
# in a ledger that lists once, snapshots alone
once 1,1 / 1: add 0 scan, 0 scan, 0 parents, 0 parents, 0 snap p a_, 1 snap p a_, 0 replicate p, 0 replicate p; totals => 1; due 8 done 0 coalesced 1";

fn walk<R: Abort>(rt: &R, alloc: Global, table: &str) {
    for line in table.lines() {
        if let Some(ask) = ask_of(line) {
            check(rt, line, said(alloc, ask));
        }
    }
}

#[test]
fn a_fresh_ledger_asks_for_a_tick(rt: HostRuntime) {
    walk(&rt, rt.alloc(), FRESH);
}

#[test]
fn who_is_ready_and_why_not(rt: HostRuntime) {
    walk(&rt, rt.alloc(), READY);
}

#[test]
fn what_is_coalesced(rt: HostRuntime) {
    walk(&rt, rt.alloc(), COALESCED);
}

/// 22,000 units are added, taken and given, one after the other: 66,000 entries, so a new base on the way.
#[test]
fn a_long_history_begins_anew(rt: HostRuntime) {
    let said = script::cycles(rt.alloc(), 22_000);
    check(
        &rt,
        "22000 cycles => run 22001: 0 scan; due 22001 done 22000 coalesced 0",
        said,
    );
}
