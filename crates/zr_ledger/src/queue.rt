//! The units that wait: in the order of adding, and by job beside it, where look-ups are short. So each stands
//! twice. A unit that starts goes into its ticket and among those that are out, and a start takes no memory.

ghost use Rattle.std.specs.Prelude.{◌≡◌, ◌+◌, ◌-◌, ◌^◌, ◌<◌, ◌≤◌, [], ◌∷◌, ◌++◌, ℕ, false, true, All, List, nat_lt, count_by, filter, if◌then◌else◌, length, IfOk, OnOk, remove, slice_get, slice_index, Some, take};
ghost use Rattle.std.specs.List.{list_any};
ghost use Rattle.zr_names.specs.declared.unit.Work.TheVariants as work;
ghost use Rattle.zr_names.specs.declared.unit.Unit.{Unit as TheUnit};
ghost use Rattle.zr_ledger.specs.Index.{is_snap_in, line_at, rooms_of, slot_of};
ghost use Rattle.zr_ledger.specs.Queue.{HasRoomFor, is_of_job};
ghost use Rattle.zr_ledger.specs.Seats.{has_key, is_ancestor_of, is_scan, is_snap, is_snap_of, same_key};

use crate::line::Line;
use crate::seats::{
    has_same_key, is_ancestor_of, is_parents_of, is_replicate_on, is_scan, is_snap_of,
};
use crate::slots::{SLOTS, count_snap, forget_snap, slot_of};
use crate::spare::Spare;
use std::alloc::{AllocError, Global};
use std::collections::VecDeque;
use std::marker::Model;
use zr_names::{Path, Rows, Same, Unit, Work};

#[derive(Drop)]
pub(crate) struct Queue {
    order: VecDeque<Unit>,
    /// By the number of the job.
    lines: Vec<Line>,
    /// So many scans wait.
    scans: usize,
    /// So many snapshots wait, by the slot of their path.
    snaps: Vec<usize>,
}

impl Model for Queue {
    ghost use Rattle.std.specs.Prelude.{◌-◌, length, map};
    ghost use Rattle.std.specs.VecDeque.{deque_capacity};
    ghost use Rattle.zr_ledger.specs.Index.{IsIndexed, rooms_of};
    ghost use Rattle.zr_ledger.specs.Queue.{Queued};

    ghost Value = { Queued };

    ghost view = { λ q. record {
      units = q.order.items;
      room = deque_capacity q.order - length q.order.items;
      rooms = rooms_of q.lines.items;
    } };

    ghost invariant = { λ q. IsIndexed q.order.items q.lines.items q.scans q.snaps.items };
}

/// The units of a job.
fn line_of(lines: &[Line], job: u32) -> &[Unit]
    ensures { result.now ≡ line_at lines.now job }
{
    match lines.get(job as usize) {
        Some(line) => line.as_slice(),
        None => &[],
    }
}

fn parents_wait(units: &[Unit], job: u32) -> bool
    ensures { result ≡ list_any (has_key job work.Parents) units.now }
{
    units.iter().any(|unit| is_parents_of(job, unit))
}

fn replicate_waits(units: &[Unit], job: u32, path: &Path) -> bool
    ensures { result ≡ list_any (has_key job (work.Replicate path.now)) units.now }
{
    units.iter().any(|unit| is_replicate_on(job, path, unit))
}

fn ancestor_waits(units: &[Unit], job: u32, path: &Path) -> bool
    ensures { result ≡ list_any (is_ancestor_of job path.now) units.now }
{
    units.iter().any(|unit| is_ancestor_of(job, path, unit))
}

fn key_waits(units: &[Unit], unit: &Unit) -> bool
    ensures { result ≡ list_any (same_key unit.now) units.now }
{
    units.iter().any(|other| has_same_key(unit, other))
}

fn snap_waits(order: &VecDeque<Unit>, path: &Path) -> bool
    ensures { result ≡ list_any (λ unit. is_snap_of path.now unit.work) order.now.items }
{
    order.iter().any(|unit| is_snap_of(path, &unit.work))
}

fn key_waits_anywhere(order: &VecDeque<Unit>, unit: &Unit) -> bool
    ensures { result ≡ list_any (same_key unit.now) order.now.items }
{
    order.iter().any(|other| has_same_key(unit, other))
}

/// How many units of the job stand before a place.
fn rank_of(order: &VecDeque<Unit>, place: usize, job: u32) -> usize
    ensures { result ≡ count_by (is_of_job job) (take place order.now.items) }
{
    order
        .iter()
        .take(place)
        .filter(|unit| unit.job == job)
        .count()
}

/// Lines for so many jobs at least.
fn grow_lines(alloc: Global, lines: &mut Vec<Line>, jobs: usize) -> Result<(), AllocError>
    ensures lines { (job : ℕ) → line_at lines.new.items job ≡ line_at lines.old.items job }
    ensures ok { OnOk result (jobs ≤ length lines.new.items) }
{
    for _number in lines.len()..jobs {
        lines.push(Line::new(alloc))?;
    }
    Ok(())
}

/// How many of these units are of a job.
fn count_of(units: &[Spare], job: usize) -> usize
    ensures { result ≡ count_by (is_of_job job) units.now }
{
    units.iter().filter(|unit| unit.job() == job).count()
}

/// Makes room for the units of each job in its line.
fn reserve_lines(lines: &mut Vec<Line>, units: &[Spare]) -> Result<(), AllocError>
    ensures lines { (job : ℕ) → line_at lines.new.items job ≡ line_at lines.old.items job }
    ensures len { length lines.new.items ≡ length lines.old.items }
    ensures ok { OnOk result ((job : ℕ) → job < length lines.old.items
        → count_by (is_of_job job) units.now ≤ slice_index (rooms_of lines.new.items) job) }
{
    for job in 0..lines.len() {
        let more = count_of(units, job);
        let line = &mut lines[job];
        line.reserve(more)?;
    }
    Ok(())
}

/// One scan more, where the work is one.
fn scans_with(scans: usize, work: &Work) -> usize
    requires { scans < 2 ^ 64 - 1 }
    ensures { result ≡ scans + (if is_scan work.now then 1 else 0) }
{
    if is_scan(work) { scans + 1 } else { scans }
}

/// One scan fewer.
fn scans_without(scans: usize, work: &Work) -> usize
    requires { (if is_scan work.now then 1 else 0) ≤ scans }
    ensures { result + (if is_scan work.now then 1 else 0) ≡ scans }
{
    if is_scan(work) { scans - 1 } else { scans }
}

impl Queue {
    pub(crate) fn new(alloc: Global) -> Result<Queue, AllocError>
        ensures { IfOk result (λ queue. queue.units ≡ []) }
    {
        Ok(Queue {
            order: VecDeque::new(alloc),
            lines: Vec::new(alloc),
            scans: 0,
            snaps: vec![in alloc; 0; SLOTS]?,
        })
    }

    /// The units in the order of adding.
    pub(crate) fn order(&self) -> &VecDeque<Unit>
        ensures { result.now.items ≡ self.now.units }
    {
        &self.order
    }

    /// The same units in memory of their own.
    pub(crate) fn copy(&self, alloc: Global) -> Result<Rows<Unit>, AllocError>
        ensures { IfOk result (λ units. units ≡ self.now.units) }
    {
        let mut units = Vec::with_capacity(alloc, self.order.len())?;
        for place in 0..self.order.len() {
            units.push(self.order[place].same()?)?;
        }
        Ok(Rows::from_vec(units))
    }

    pub(crate) fn len(&self) -> usize
        ensures { result ≡ length self.now.units }
    {
        self.order.len()
    }

    /// The units of a job, in the order of adding.
    fn line(&self, job: u32) -> &[Unit]
        ensures { result.now ≡ filter (is_of_job job) self.now.units }
    {
        line_of(self.lines.as_slice(), job)
    }

    pub(crate) fn has_scan(&self) -> bool
        ensures { result ≡ list_any (λ unit. is_scan unit.work) self.now.units }
    {
        self.scans > 0
    }

    pub(crate) fn has_parents_of(&self, job: u32) -> bool
        ensures { result ≡ list_any (has_key job work.Parents) self.now.units }
    {
        parents_wait(self.line(job), job)
    }

    pub(crate) fn has_replicate_on(&self, job: u32, path: &Path) -> bool
        ensures { result ≡ list_any (has_key job (work.Replicate path.now)) self.now.units }
    {
        replicate_waits(self.line(job), job, path)
    }

    pub(crate) fn has_ancestor_of(&self, job: u32, path: &Path) -> bool
        ensures { result ≡ list_any (is_ancestor_of job path.now) self.now.units }
    {
        ancestor_waits(self.line(job), job, path)
    }

    /// Whether a snapshot of a path may wait: none does where none is in its slot.
    fn may_have_snap(&self, path: &Path) -> bool
        ensures { result ≡ nat_lt 0
            (count_by (λ unit. is_snap_in (slot_of path.now) unit.work) self.now.units) }
    {
        self.snaps[slot_of(path)] > 0
    }

    pub(crate) fn has_snap_of(&self, path: &Path) -> bool
        ensures { result ≡ list_any (λ unit. is_snap_of path.now unit.work) self.now.units }
    {
        self.may_have_snap(path) && snap_waits(&self.order, path)
    }

    fn has_snap_like(&self, path: &Path, unit: &Unit) -> bool
        requires { (other : TheUnit) → same_key unit.now other ≡ true
            → is_snap_of path.now other.work ≡ true }
        ensures { result ≡ list_any (same_key unit.now) self.now.units }
    {
        self.may_have_snap(path) && key_waits_anywhere(&self.order, unit)
    }

    fn has_like_of_job(&self, unit: &Unit) -> bool
        requires { is_snap unit.now.work ≡ false }
        ensures { result ≡ list_any (same_key unit.now) self.now.units }
    {
        key_waits(self.line(unit.job), unit)
    }

    pub(crate) fn has_key_of(&self, unit: &Unit) -> bool
        ensures { result ≡ list_any (same_key unit.now) self.now.units }
    {
        match &unit.work {
            Work::Snap(path, _) => self.has_snap_like(path, unit),
            Work::Scan => self.has_like_of_job(unit),
            Work::Parents => self.has_like_of_job(unit),
            Work::Replicate(_) => self.has_like_of_job(unit),
            Work::PruneSource(_) => self.has_like_of_job(unit),
            Work::PruneTarget(_) => self.has_like_of_job(unit),
        }
    }

    /// Makes room for these units of the first so many jobs.
    pub(crate) fn reserve(&mut self, jobs: usize, units: &[Spare]) -> Result<(), AllocError>
        requires { All (λ unit. unit.job < jobs) units.now }
        ensures units { self.new.units ≡ self.old.units }
        ensures ok { OnOk result (HasRoomFor self.new units.now) }
    {
        let alloc = *self.order.allocator();
        grow_lines(alloc, &mut self.lines, jobs)?;
        reserve_lines(&mut self.lines, units)?;
        self.order.reserve(units.len())?;
        Ok(())
    }

    /// Puts a unit, of which it takes two, behind all others.
    pub(crate) fn push(&mut self, unit: Unit, twin: Unit)
        requires room { HasRoomFor self.old (unit ∷ []) }
        requires same { twin ≡ unit }
        ensures units { self.new.units ≡ self.old.units ++ unit ∷ [] }
        ensures room { (rest : List TheUnit) → HasRoomFor self.old (unit ∷ rest)
            → HasRoomFor self.new rest }
    {
        self.scans = scans_with(self.scans, &unit.work);
        count_snap(&mut self.snaps, &unit.work);
        let line = &mut self.lines[unit.job as usize];
        line.push(twin);
        self.order.push_back_reserved(unit);
    }

    /// Takes out the unit at a place, both of it.
    pub(crate) fn take_out(&mut self, place: usize) -> (Unit, Unit)
        requires { place < length self.old.units }
        ensures unit { slice_get self.old.units place ≡ Some result.0 }
        ensures twin { result.1 ≡ result.0 }
        ensures units { self.new.units ≡ remove self.old.units place }
    {
        let job = self.order[place].job;
        let rank = rank_of(&self.order, place, job);
        let line = &mut self.lines[job as usize];
        let twin = line.take_out(rank);
        self.scans = scans_without(self.scans, &twin.work);
        forget_snap(&mut self.snaps, &twin.work);
        let unit = self.order.remove(place).unwrap();
        (unit, twin)
    }
}
