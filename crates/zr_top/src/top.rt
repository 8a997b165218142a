//! The call that the program makes: words in, a line and a status out.

ghost use Rattle.std.specs.Prelude.{◌⊎◌, drop, ◌≡◌, ◌≢◌, ◌≤◌, ◌<◌, ◌+◌, ℕ, IfOk, List, Some, None, [], ◌∷◌, ◌++◌, codes, length, map, take, true, vec_len};
ghost use Rattle.std.specs.String.{string_bytes};
ghost use Rattle.zr_jobfile.specs.declared.TheConstants.{FILE_LIMIT};
ghost use Rattle.zr_jobset.specs.Units.{ArePlain};
ghost use Rattle.std.specs.Io.KnownBytes.{append_known};
ghost use Rattle.zr_pipe.specs.Faults.{Rose};
ghost use Rattle.zr_top.specs.Calls.{given, edges, Promises};
ghost use Rattle.zr_top.specs.Records.{FirstRan, FirstRose, RefusalPrinted, Wrote, WroteAllOrNothing, WroteFrontOf, RanBytes, RanFile, RanJobs, RanOnce, Unrun, view};
ghost use Rattle.zr_top.specs.declared.status.Status.{Status};
ghost use Rattle.zr_top.specs.Status.{is_idle, is_of_run, IsRefused, Printed, RefusedOrUnread};
ghost use Rattle.zr_top.specs.Stored.{AsksAtMost};
ghost use Rattle.zr_top.specs.Words.{file_of};

use crate::clock::Clock;
use crate::files::{Files, ReadFault};
use crate::once::once;
use crate::printing::{print, refuse};
use crate::report::{USAGE, totals_line};
use crate::rules::compile_all;
use crate::status::Status;
use crate::words::once_file;
use std::alloc::Global;
use std::sync::Wait;
use std::thread::Threads;
use zr_exec::{CliZfs, Spawn};
use zr_jobfile::{FILE_LIMIT, read_jobs};
use zr_jobset::JobSet;
use zr_names::{NoMemory, Totals};
use zr_pipe::Sink;

/// Runs all that is due at the clock's next moment, with one runner, which is given back.
fn once_with<R: Spawn, C: Clock + Drop>(
    alloc: Global,
    jobs: &JobSet,
    child: R,
    mut clock: C,
) -> (Result<Totals, NoMemory>, R)
    requires plain { ArePlain jobs.now }
    ensures ran { RanOnce jobs.now (C.moments clock) (R.history child) (R.history result.1)
        result.0 }
    ensures rose { IfOk result.0
        (λ totals. 0 < totals.faults → Rose (R.faults child) (R.faults result.1)) }
{
    let Ok(program) = String::from_str(alloc, "zfs") else {
        return (Err(NoMemory), child);
    };
    let Ok(mut rules) = compile_all(alloc, jobs) else {
        return (Err(NoMemory), child);
    };
    let moment = clock.tick();
    let mut zfs = CliZfs::new(child, program);
    match once(alloc, jobs, rules.as_mut_slice(), moment, &mut zfs) {
        Ok(totals) => (Ok(totals), zfs.spawn()),
        Err(fault) => (Err(fault), zfs.spawn()),
    }
}

/// Runs `once` with the first of the runners, which is put back in its place.
fn once_with_first<R: Spawn + Drop, C: Clock + Drop>(
    alloc: Global,
    jobs: &JobSet,
    children: &mut Vec<R>,
    clock: C,
) -> Result<Totals, NoMemory>
    requires some { 0 < vec_len children.old }
    requires plain { ArePlain jobs.now }
    ensures len { vec_len children.new ≡ vec_len children.old }
    ensures first { FirstRan jobs.now (C.moments clock) (map (λ r. R.history r) children.old.items)
        (map (λ r. R.history r) children.new.items) result }
    ensures rose { IfOk result (λ totals. 0 < totals.faults →
        FirstRose (map (λ r. R.faults r) children.old.items)
        (map (λ r. R.faults r) children.new.items)) }
    ensures others { drop 1 children.new.items ≡ drop 1 children.old.items }
{
    let child = children.remove(0);
    let (totals, child) = once_with(alloc, jobs, child, clock);
    match children.insert(0, child) {
        Ok(()) => totals,
        Err(_) => unreachable!(),
    }
}

/// Runs `once` for the jobs of a file, and prints its totals.
fn run_jobs<R: Spawn + Drop, C: Clock + Drop, S: Sink>(
    alloc: Global,
    jobs: &JobSet,
    children: &mut Vec<R>,
    clock: C,
    out: &mut S,
) -> Status
    requires some { 0 < vec_len children.old }
    requires plain { ArePlain jobs.now }
    ensures len { vec_len children.new ≡ vec_len children.old }
    ensures of_run { is_of_run result ≡ true }
    ensures ran { (file : List ℕ) → Unrun file
        (view (λ r. R.history r) (λ r. R.faults r) children.old.items (S.written out.old)
        (S.faults out.old))
        (view (λ r. R.history r) (λ r. R.faults r) children.new.items (S.written out.new)
        (S.faults out.new)) result
        ⊎ RanJobs jobs.now (C.moments clock)
        (view (λ r. R.history r) (λ r. R.faults r) children.old.items (S.written out.old)
        (S.faults out.old))
        (view (λ r. R.history r) (λ r. R.faults r) children.new.items (S.written out.new)
        (S.faults out.new)) result }
    ensures failed { result ≡ Status.ChildFault →
        FirstRose (map (λ r. R.faults r) children.old.items)
        (map (λ r. R.faults r) children.new.items) }
    ensures others { drop 1 children.new.items ≡ drop 1 children.old.items }
    ensures unwritable { result ≡ Status.Unwritable → Rose (S.faults out.old) (S.faults out.new) }
{
    let Ok(totals) = once_with_first(alloc, jobs, children, clock) else {
        return Status::OutOfMemory;
    };
    match totals_line(alloc, &totals) {
        Ok(line) => print(out, line.as_str(), Status::of(&totals)),
        Err(_) => Status::OutOfMemory,
    }
}

/// Runs `once` for the bytes of a job file.
fn run_file<R: Spawn + Drop, C: Clock + Drop, S: Sink>(
    alloc: Global,
    bytes: &[u8],
    children: &mut Vec<R>,
    clock: C,
    out: &mut S,
) -> Status
    requires { 0 < vec_len children.old }
    ensures len { vec_len children.new ≡ vec_len children.old }
    ensures refused { IsRefused bytes.now → Printed Status.JobFile result }
    ensures refused_only { result ≡ Status.JobFile → IsRefused bytes.now }
    ensures refusal_printed { result ≡ Status.JobFile →
        RefusalPrinted bytes.now (S.written out.old) (S.written out.new) }
    ensures no_usage { result ≢ Status.Usage }
    ensures readable { result ≢ Status.Unreadable }
    ensures idle { result ≡ Status.JobFile → children.new.items ≡ children.old.items }
    ensures ran { (file : List ℕ) → Unrun file
        (view (λ r. R.history r) (λ r. R.faults r) children.old.items (S.written out.old)
        (S.faults out.old))
        (view (λ r. R.history r) (λ r. R.faults r) children.new.items (S.written out.new)
        (S.faults out.new)) result
        ⊎ RanBytes bytes.now (C.moments clock)
        (view (λ r. R.history r) (λ r. R.faults r) children.old.items (S.written out.old)
        (S.faults out.old))
        (view (λ r. R.history r) (λ r. R.faults r) children.new.items (S.written out.new)
        (S.faults out.new)) result }
    ensures failed { result ≡ Status.ChildFault →
        FirstRose (map (λ r. R.faults r) children.old.items)
        (map (λ r. R.faults r) children.new.items) }
    ensures others { drop 1 children.new.items ≡ drop 1 children.old.items }
    ensures unwritable { result ≡ Status.Unwritable → Rose (S.faults out.old) (S.faults out.new) }
{
    match read_jobs(alloc, bytes) {
        Ok(jobs) => run_jobs(alloc, &jobs, children, clock, out),
        Err(fault) => refuse(out, fault),
    }
}

/// Prints that a file can't be read.
fn unreadable<S: Sink>(alloc: Global, out: &mut S, file: &str) -> Status
    ensures printed { Printed Status.Unreadable result }
    ensures wrote { Wrote result (S.written out.old) (S.written out.new)
        (codes "cannot read " ++ file.now) }
    ensures front { WroteFrontOf (S.written out.old) (S.written out.new)
        (codes "cannot read " ++ file.now) }
    ensures whole { WroteAllOrNothing (S.faults out.old) (S.faults out.new)
        (S.written out.old) (S.written out.new) ((codes "cannot read " ++ file.now) ++ 10 ∷ []) }
    ensures unwritable { result ≡ Status.Unwritable → Rose (S.faults out.old) (S.faults out.new) }
{
    match format!(in alloc; "cannot read {file}\n") {
        Ok(line) => print(out, line.as_str(), Status::Unreadable),
        Err(_) => Status::OutOfMemory,
    }
}

/// Runs `once` for the job file of this name.
fn run_named<F: Files, R: Spawn + Drop, C: Clock + Drop, S: Sink>(
    alloc: Global,
    file: &str,
    files: &mut F,
    children: &mut Vec<R>,
    clock: C,
    out: &mut S,
) -> Status
    requires { 0 < vec_len children.old }
    ensures len { vec_len children.new ≡ vec_len children.old }
    ensures refused { (whole : List ℕ) → F.content files.old file.now ≡ Some whole →
        IsRefused (take (FILE_LIMIT + 1) whole) → RefusedOrUnread result }
    ensures refused_only { result ≡ Status.JobFile → (whole : List ℕ) →
        F.content files.old file.now ≡ Some whole → IsRefused (take (FILE_LIMIT + 1) whole) }
    ensures refusal_printed { result ≡ Status.JobFile → (whole : List ℕ) →
        F.content files.old file.now ≡ Some whole →
        RefusalPrinted (take (FILE_LIMIT + 1) whole) (S.written out.old) (S.written out.new) }
    ensures unread_printed { result ≡ Status.Unreadable →
        S.written out.new ≡ append_known (S.written out.old)
        (codes "cannot read " ++ file.now ++ 10 ∷ []) }
    ensures no_usage { result ≢ Status.Usage }
    ensures idle { is_idle result ≡ true → children.new.items ≡ children.old.items }
    ensures ran { RanFile file.now (F.content files.old file.now) (C.moments clock)
        (view (λ r. R.history r) (λ r. R.faults r) children.old.items (S.written out.old)
        (S.faults out.old))
        (view (λ r. R.history r) (λ r. R.faults r) children.new.items (S.written out.new)
        (S.faults out.new)) result }
    ensures asked { AsksAtMost (F.asked files.old) (F.asked files.new) file.now }
    ensures failed { result ≡ Status.ChildFault →
        FirstRose (map (λ r. R.faults r) children.old.items)
        (map (λ r. R.faults r) children.new.items) }
    ensures others { drop 1 children.new.items ≡ drop 1 children.old.items }
    ensures unwritable { result ≡ Status.Unwritable → Rose (S.faults out.old) (S.faults out.new) }
    ensures unreadable { result ≡ Status.Unreadable →
        Rose (F.faults files.old) (F.faults files.new) × (F.failed files.new ≡ Some file.now) }
{
    match files.read(file, FILE_LIMIT) {
        Ok(bytes) => run_file(alloc, bytes.as_slice(), children, clock, out),
        Err(ReadFault::Failed) => unreadable(alloc, out, file),
        Err(ReadFault::NoMemory) => Status::OutOfMemory,
    }
}

/// Runs a command line, and gives the program's exit status.
///
/// `once FILE` reads the job file, runs the scan of each job and then the units that the scans found,
/// with the first of the runners, and prints the totals.
pub fn zrepl<H, F, R, C, S>(
    _rt: &H,
    alloc: Global,
    words: &[String],
    files: &mut F,
    children: &mut Vec<R>,
    clock: C,
    out: &mut S,
) -> u8
where
    H: Threads + Wait + Sync,
    F: Files,
    R: Spawn + Send + Drop,
    C: Clock + Send + Drop,
    S: Sink,
    requires some { 0 < vec_len children.old }
    requires few { vec_len children.old ≤ 16 }
    ensures runners { vec_len children.new ≡ vec_len children.old }
    ensures others { drop 1 children.new.items ≡ drop 1 children.old.items }
    ensures unrun { file_of (map string_bytes words.now) ≡ None
        → children.new.items ≡ children.old.items }
    ensures idle { (result ≡ 2) ⊎ (result ≡ 3) ⊎ (result ≡ 7)
        → children.new.items ≡ children.old.items }
    ensures kept { Promises (given (map string_bytes words.now) (F.content files.old)
        (C.moments clock)
        (edges (F.faults files.old) (F.failed files.old) (F.asked files.old)
        (view (λ r. R.history r) (λ r. R.faults r) children.old.items (S.written out.old)
        (S.faults out.old)))
        (edges (F.faults files.new) (F.failed files.new) (F.asked files.new)
        (view (λ r. R.history r) (λ r. R.faults r) children.new.items (S.written out.new)
        (S.faults out.new))) result) }
{
    match once_file(words) {
        Some(file) => run_named(alloc, file, files, children, clock, out).code(),
        None => print(out, USAGE, Status::Usage).code(),
    }
}
