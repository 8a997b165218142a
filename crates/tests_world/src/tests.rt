//! Cases stand in blocks, with an empty line between them, as `tests_pools` reads them. A test writes each block anew with what
//! came, and compares the two.

mod children;
mod commands;
mod formed;
mod listings;
mod model;
mod records;

use std::alloc::Global;
use std::process::Abort;
use tests_pools::{answer_text, command_of, difference, number};
use zr_names::{Moment, Unit, Work};
use zr_world::Zfs;

/// The block came out as it stands.
fn is<R: Abort>(rt: &R, block: &str, came: Option<String>) {
    let (line, said) = difference(block, &came);
    assert!(rt; said == line, "{line}\ncame out as\n{said}");
}

/// Begins a run of a unit.
fn begun<Z: Zfs>(alloc: Global, zfs: &mut Z, run: &str) -> Option<String> {
    let run = number(run)?;
    let moment = Moment::new(1000)?;
    let unit = Unit {
        job: 3,
        moment,
        work: Work::Scan,
    };
    let begun = zfs.begin(&unit, run);
    drop(unit);
    begun.ok()?;
    String::from_str(alloc, "begun").ok()
}

/// The begun run of a unit.
fn run_text(alloc: Global, unit: &Unit, run: u64) -> Option<String> {
    let work = match unit.work {
        Work::Scan => "a scan",
        _ => "other work",
    };
    let (job, moment) = (unit.job, unit.moment.ms());
    format!(in alloc; "run {run} of {work} of job {job} at {moment}").ok()
}

/// What comes of `begin` and a run's number, or of a command.
fn answered<Z: Zfs>(alloc: Global, zfs: &mut Z, ask: &str) -> Option<String> {
    if let Some(run) = ask.strip_prefix("begin ") {
        return begun(alloc, zfs, run);
    }
    let cmd = command_of(alloc, ask)?;
    let answer = zfs.run(&cmd);
    drop(cmd);
    let text = answer_text(alloc, &answer);
    drop(answer);
    text.ok()
}
