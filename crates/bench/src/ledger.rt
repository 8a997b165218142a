//! A ledger's turns, as bench/ledger.sh times them.

ghost use Rattle.std.specs.Prelude.{◌≤◌, All, IfOk};
ghost use Rattle.zr_ledger.specs.Kept.{AllowsSome};

use std::alloc::{AllocError, AllocFailed, Global};
use std::collections::VecDeque;
use std::io;
use std::str::Split;
use zr_ledger::{Ledger, Limits, Ticket, Turn};
use zr_names::{
    Moment, NameFault, NoMemory, Outcome, Path, Rows, Unit, Work, read_path, read_prefix,
};

const JOBS: u32 = 64;

/// So many units are out at a time.
const WORKERS: usize = 4;

/// What can't be read or made.
#[derive(Clone, Copy)]
struct Unmade;

impl From<AllocError> for Unmade {
    fn from(_error: AllocError) -> Unmade {
        Unmade
    }
}

impl<T: Drop> From<AllocFailed<T>> for Unmade {
    fn from(_error: AllocFailed<T>) -> Unmade {
        Unmade
    }
}

impl From<NoMemory> for Unmade {
    fn from(_error: NoMemory) -> Unmade {
        Unmade
    }
}

impl From<NameFault> for Unmade {
    fn from(_fault: NameFault) -> Unmade {
        Unmade
    }
}

/// Each job may have so many replications out, and all jobs together so many.
fn limits(alloc: Global, steps: u32, replicators: u32) -> Result<Limits, Unmade>
    ensures { IfOk result (λ limits. AllowsSome limits) }
{
    let mut each = Vec::new(alloc);
    for _job in 0..JOBS {
        each.push(steps.max(1))?;
    }
    Ok(Limits {
        steps: Rows::from_vec(each),
        replicators: replicators.max(1),
        once: false,
    })
}

fn push_unit(units: &mut Vec<Unit>, job: u32, work: Work) -> Result<(), Unmade> {
    match Moment::new(0) {
        Some(moment) => {
            units.push(Unit { job, moment, work })?;
            Ok(())
        }
        None => {
            drop(work);
            Err(Unmade)
        }
    }
}

fn path(alloc: Global, job: u32, number: u32) -> Result<Path, Unmade> {
    let text = format!(in alloc; "pool{job}/home/user{number}")?;
    Ok(read_path(alloc, text.as_bytes())?)
}

/// What the scan of a job with so many filesystems finds.
fn found(alloc: Global, job: u32, filesystems: u32) -> Result<Vec<Unit>, Unmade> {
    let mut units = Vec::new(alloc);
    push_unit(&mut units, job, Work::Parents)?;
    for number in 0..filesystems {
        let prefix = read_prefix(alloc, b"zrepl_")?;
        push_unit(
            &mut units,
            job,
            Work::Snap(path(alloc, job, number)?, prefix),
        )?;
    }
    for number in 0..filesystems {
        push_unit(&mut units, job, Work::Replicate(path(alloc, job, number)?))?;
    }
    for number in 0..filesystems {
        push_unit(
            &mut units,
            job,
            Work::PruneSource(path(alloc, job, number)?),
        )?;
        push_unit(
            &mut units,
            job,
            Work::PruneTarget(path(alloc, job, number)?),
        )?;
    }
    Ok(units)
}

fn add(ledger: &mut Ledger<()>, units: Vec<Unit>) -> Result<(), Unmade> {
    if !ledger.has_limits(units.as_slice()) {
        drop(units);
        return Err(Unmade);
    }
    let _coalesced = ledger.add(units)?;
    Ok(())
}

fn add_all(alloc: Global, ledger: &mut Ledger<()>, filesystems: u32) -> Result<(), Unmade> {
    for job in 0..JOBS {
        let mut scan = Vec::new(alloc);
        push_unit(&mut scan, job, Work::Scan)?;
        add(ledger, scan)?;
    }
    for job in 0..JOBS {
        add(ledger, found(alloc, job, filesystems)?)?;
    }
    Ok(())
}

/// Takes until as many are out as there are workers, or nothing is ready.
fn take_some(ledger: &mut Ledger<()>, outs: &mut VecDeque<Ticket>) -> Result<bool, Unmade> {
    for _ in 0..WORKERS {
        if outs.len() >= WORKERS {
            break;
        }
        match ledger.take() {
            Turn::Work(ticket) => outs.push_back(ticket)?,
            Turn::TickYourself => break,
            Turn::Wait => break,
            Turn::Ended => return Ok(true),
        }
    }
    Ok(false)
}

/// Runs all that waits: what was taken first is given back first.
fn run_all(alloc: Global, ledger: &mut Ledger<()>) -> Result<u64, Unmade> {
    let mut outs = VecDeque::new(alloc);
    for _ in 0..u64::MAX {
        if take_some(ledger, &mut outs)? {
            break;
        }
        if let Some(ticket) = outs.pop_front() {
            let _given = ledger.give(ticket, &Outcome::UpToDate);
        }
    }
    drop(outs);
    Ok(ledger.totals().done)
}

/// The next word, which is a number.
fn number(words: &mut Split<'_, char>) -> Result<u32, Unmade> {
    let word = words.next().unwrap_or("");
    word.parse::<u32>().ok().ok_or(Unmade)
}

fn run(alloc: Global, line: &str) -> Result<u64, Unmade> {
    let mut words = line.split(' ');
    let filesystems = number(&mut words)?;
    let steps = number(&mut words)?;
    let replicators = number(&mut words)?;
    let only_adds = words.next().is_some();
    let mut ledger = Ledger::new(alloc, (), limits(alloc, steps, replicators)?)?;
    ledger.give_clock((), true);
    add_all(alloc, &mut ledger, filesystems)?;
    if only_adds {
        return Ok(ledger.totals().due);
    }
    run_all(alloc, &mut ledger)
}

/// Only makes the units, which is no work of a ledger.
fn make(alloc: Global, filesystems: u32) -> Result<u64, Unmade> {
    let mut count: u64 = 0;
    for job in 0..JOBS {
        let units = found(alloc, job, filesystems)?;
        count = count.saturating_add(units.len() as u64);
        drop(units);
    }
    Ok(count)
}

fn answer(alloc: Global, line: &str) -> Result<u64, Unmade> {
    match line.strip_prefix("make ") {
        Some(number) => make(alloc, number.parse::<u32>().ok().ok_or(Unmade)?),
        None => run(alloc, line),
    }
}

/// A line of standard input has the filesystems of each of 64 jobs, the limit of each job and that of all: adds their units,
/// takes and gives them with four out at a time, and prints how many ended. `add` behind it only adds, `make` in front only
/// makes the units.
pub fn turn_ledger(rt: &HostRuntime) -> io::Result<()> {
    for line in rt.lines(rt.alloc()) {
        let line = line?;
        match answer(rt.alloc(), line.as_str()) {
            Ok(count) => println!(rt; "{count} units")?,
            Err(Unmade) => println!(rt; "not three numbers, or no memory")?,
        }
    }
    Ok(())
}
