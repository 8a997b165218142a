//! Whether a unit that waits may start, kind by kind, and which is the first.

ghost use Rattle.std.specs.Prelude.{◌≡◌};
ghost use Rattle.zr_names.specs.declared.unit.Work.TheVariants as work;
ghost use Rattle.zr_ledger.specs.Ready.{first_ready, is_free, is_live, is_ready, is_within};
ghost use Rattle.zr_ledger.specs.Seats.{has_key, is_ancestor_of, is_scan, is_snap_of, same_key};

use crate::limits::Limits;
use crate::outs::{
    ancestor_is_out, count_of_all, count_of_job, job_replicates, key_is_out, parents_are_out,
    replicate_is_out, scan_is_out, seat_is_out, snap_is_out,
};
use crate::queue::Queue;
use crate::ticket::Ticket;
use zr_names::{Path, Unit, Work};

fn scan_is_live(waiting: &Queue, outs: &[Ticket]) -> bool
    ensures { result ≡ is_live (λ unit. is_scan unit.work) waiting.now.units outs.now }
{
    waiting.has_scan() || scan_is_out(outs)
}

fn parents_are_live(waiting: &Queue, outs: &[Ticket], job: u32) -> bool
    ensures { result ≡ is_live (has_key job work.Parents) waiting.now.units outs.now }
{
    waiting.has_parents_of(job) || parents_are_out(outs, job)
}

fn snap_is_live(waiting: &Queue, outs: &[Ticket], path: &Path) -> bool
    ensures { result ≡ is_live (λ unit. is_snap_of path.now unit.work) waiting.now.units outs.now }
{
    waiting.has_snap_of(path) || snap_is_out(outs, path)
}

fn replicate_is_live(waiting: &Queue, outs: &[Ticket], job: u32, path: &Path) -> bool
    ensures { result ≡ is_live (has_key job (work.Replicate path.now)) waiting.now.units outs.now }
{
    waiting.has_replicate_on(job, path) || replicate_is_out(outs, job, path)
}

fn ancestor_is_live(waiting: &Queue, outs: &[Ticket], job: u32, path: &Path) -> bool
    ensures { result ≡ is_live (is_ancestor_of job path.now) waiting.now.units outs.now }
{
    waiting.has_ancestor_of(job, path) || ancestor_is_out(outs, job, path)
}

/// Whether a unit with the key of this one waits or is out.
pub(crate) fn key_is_live(waiting: &Queue, outs: &[Ticket], unit: &Unit) -> bool
    ensures { result ≡ is_live (same_key unit.now) waiting.now.units outs.now }
{
    waiting.has_key_of(unit) || key_is_out(outs, unit)
}

/// Whether the limits allow one more replication of the job.
fn is_within(limits: &Limits, outs: &[Ticket], job: u32) -> bool
    ensures { result ≡ is_within limits.now outs.now job }
{
    count_of_job(outs, job) < limits.steps_of(job) as usize
        && count_of_all(outs) < limits.replicators as usize
}

/// Whether a replication may start. The limits come first, since they cost least.
fn may_replicate(limits: &Limits, waiting: &Queue, outs: &[Ticket], job: u32, path: &Path) -> bool
    ensures { result ≡ is_free limits.now waiting.now.units outs.now job (work.Replicate path.now) }
{
    is_within(limits, outs, job)
        && !scan_is_live(waiting, outs)
        && !parents_are_live(waiting, outs, job)
        && !snap_is_live(waiting, outs, path)
        && !ancestor_is_live(waiting, outs, job, path)
}

fn is_free(limits: &Limits, waiting: &Queue, outs: &[Ticket], unit: &Unit) -> bool
    ensures { result ≡ is_free limits.now waiting.now.units outs.now unit.now.job unit.now.work }
{
    match &unit.work {
        Work::Scan => true,
        Work::Snap(_, _) => true,
        Work::Parents => !job_replicates(outs, unit.job),
        Work::Replicate(path) => may_replicate(limits, waiting, outs, unit.job, path),
        Work::PruneSource(path) => {
            !replicate_is_live(waiting, outs, unit.job, path) && !snap_is_live(waiting, outs, path)
        }
        Work::PruneTarget(path) => !replicate_is_live(waiting, outs, unit.job, path),
    }
}

fn is_ready(limits: &Limits, waiting: &Queue, outs: &[Ticket], unit: &Unit) -> bool
    ensures { result ≡ is_ready limits.now waiting.now.units outs.now unit.now }
{
    !seat_is_out(outs, unit) && is_free(limits, waiting, outs, unit)
}

/// The place of the first unit, in the order of adding, that may start.
pub(crate) fn first_ready(limits: &Limits, waiting: &Queue, outs: &[Ticket]) -> Option<usize>
    ensures { result ≡ first_ready limits.now waiting.now.units outs.now }
{
    waiting
        .order()
        .iter()
        .position(|unit| is_ready(limits, waiting, outs, unit))
}
