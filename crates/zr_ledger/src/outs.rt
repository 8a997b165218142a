//! What is out: look-ups in the list of tickets that no worker has given back.

ghost use Rattle.std.specs.Prelude.{◌≡◌, ◌+◌, ◌<◌, count_by, length, position, remove};
ghost use Rattle.std.specs.List.{list_any};
ghost use Rattle.std.specs.Vec.{vec_capacity};
ghost use Rattle.zr_names.specs.declared.unit.Work.TheVariants as work;
ghost use Rattle.zr_ledger.specs.Ready.{count_out, is_out, is_ticket};
ghost use Rattle.zr_ledger.specs.Seats.{has_key, is_ancestor_of, is_replicate, is_replicate_of, is_scan, is_snap_of, same_key, same_seat, seat_of};

use crate::seats::{
    has_same_key, has_same_seat, is_ancestor_of, is_parents_of, is_replicate, is_replicate_of,
    is_replicate_on, is_same_unit, is_scan, is_snap_of,
};
use crate::ticket::Ticket;
use zr_names::{Path, Unit};

pub(crate) fn scan_is_out(outs: &[Ticket]) -> bool
    ensures { result ≡ is_out (λ unit. is_scan unit.work) outs.now }
{
    outs.iter().any(|out| is_scan(&out.unit().work))
}

pub(crate) fn parents_are_out(outs: &[Ticket], job: u32) -> bool
    ensures { result ≡ is_out (has_key job work.Parents) outs.now }
{
    outs.iter().any(|out| is_parents_of(job, out.unit()))
}

pub(crate) fn snap_is_out(outs: &[Ticket], path: &Path) -> bool
    ensures { result ≡ is_out (λ unit. is_snap_of path.now unit.work) outs.now }
{
    outs.iter().any(|out| is_snap_of(path, &out.unit().work))
}

pub(crate) fn replicate_is_out(outs: &[Ticket], job: u32, path: &Path) -> bool
    ensures { result ≡ is_out (has_key job (work.Replicate path.now)) outs.now }
{
    outs.iter()
        .any(|out| is_replicate_on(job, path, out.unit()))
}

pub(crate) fn ancestor_is_out(outs: &[Ticket], job: u32, path: &Path) -> bool
    ensures { result ≡ is_out (is_ancestor_of job path.now) outs.now }
{
    outs.iter().any(|out| is_ancestor_of(job, path, out.unit()))
}

/// Whether any replication of the job is out.
pub(crate) fn job_replicates(outs: &[Ticket], job: u32) -> bool
    ensures { result ≡ is_out (is_replicate_of job) outs.now }
{
    outs.iter().any(|out| is_replicate_of(job, out.unit()))
}

pub(crate) fn seat_is_out(outs: &[Ticket], unit: &Unit) -> bool
    ensures { result ≡ is_out (λ other. same_seat (seat_of unit.now) (seat_of other)) outs.now }
{
    outs.iter().any(|out| has_same_seat(unit, out.unit()))
}

pub(crate) fn key_is_out(outs: &[Ticket], unit: &Unit) -> bool
    ensures { result ≡ is_out (same_key unit.now) outs.now }
{
    outs.iter().any(|out| has_same_key(unit, out.unit()))
}

/// How many replications of the job are out.
pub(crate) fn count_of_job(outs: &[Ticket], job: u32) -> usize
    ensures { result ≡ count_out (is_replicate_of job) outs.now }
{
    outs.iter()
        .filter(|out| is_replicate_of(job, out.unit()))
        .count()
}

/// How many replications of all jobs are out.
pub(crate) fn count_of_all(outs: &[Ticket]) -> usize
    ensures { result ≡ count_out (λ unit. is_replicate unit.work) outs.now }
{
    outs.iter()
        .filter(|out| is_replicate(&out.unit().work))
        .count()
}

fn is_same_run(ticket: &Ticket, out: &Ticket) -> bool
    ensures { result ≡ is_ticket ticket.now out.now }
{
    ticket.run() == out.run() && is_same_unit(ticket.unit(), out.unit())
}

/// Where the unit of a ticket stands among those that are out.
pub(crate) fn place_of(outs: &[Ticket], ticket: &Ticket) -> Option<usize>
    ensures { result ≡ position (is_ticket ticket.now) outs.now }
{
    outs.iter().position(|out| is_same_run(ticket, out))
}

/// Takes the unit at a place off the list, and lets its ticket go.
pub(crate) fn end_out(outs: &mut Vec<Ticket>, place: usize, ticket: Ticket)
    requires { place < length outs.old.items }
    ensures items { outs.new.items ≡ remove outs.old.items place }
    ensures room { vec_capacity outs.new ≡ vec_capacity outs.old }
{
    drop(ticket);
    drop(outs.remove(place));
}
