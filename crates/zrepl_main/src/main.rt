//! The program: children, files, a clock and an output of the system, handed to the call that does all.
#![tactic(auto)]

ghost use Rattle.std.specs.Prelude.{◌≡◌, IfOk, vec_len};

mod children;
mod clock;
mod files;
mod piping;
mod running;
mod silence;
#[cfg(test)]
mod tests;

use children::RealSpawn;
use clock::RealClock;
use files::RealFiles;
use running::{Errors, Starter};
use std::alloc::AllocError;
use std::env::Env;
use std::fs::Files;
use std::io::ErrorKind;
use std::process::{ExitCode, Processes};
use std::{env, fs};
use zr_pipe::Output;
use zr_top::{Status, zrepl};

/// How many children may run at once.
const RUNNERS: usize = 16;

/// The words behind the program's name. Words that are no UTF-8 are no command.
fn words<R: Env + AllocGlobal>(rt: &R) -> Result<Vec<String>, AllocError> {
    let mut words = Vec::new(rt.alloc());
    match env::args(rt) {
        Ok(given) => {
            for word in given.skip(1) {
                words.push(word)?;
            }
            Ok(words)
        }
        Err(fault) if fault.kind() == ErrorKind::OutOfMemory => Err(AllocError),
        Err(_) => Ok(words),
    }
}

/// Whether this process has a standard error. Where the system does not tell its open files, it is taken to have one.
fn errors<F: Files>(files: &F) -> Errors {
    let told = fs::metadata(files, "/proc/self/fd").is_ok();
    if told && fs::metadata(files, "/proc/self/fd/2").is_err() {
        Errors::Dropped
    } else {
        Errors::Shared
    }
}

fn runners<P: Processes + Copy>(starter: Starter<P>) -> Result<Vec<RealSpawn<P>>, AllocError>
    ensures { IfOk result (λ runners. vec_len runners ≡ 16) }
{
    let mut runners = Vec::new(starter.alloc);
    for _ in 0..RUNNERS {
        runners.push(RealSpawn::new(starter))?;
    }
    Ok(runners)
}

fn main(rt: HostRuntime) -> ExitCode {
    let alloc = rt.alloc();
    let starter = Starter {
        rt,
        alloc,
        errors: errors(&rt),
    };
    let (Ok(words), Ok(mut runners)) = (words(&rt), runners(starter)) else {
        return ExitCode::from(Status::OutOfMemory.code());
    };
    let mut files = RealFiles::new(rt, alloc);
    let mut out = Output::new(rt.stdout());
    let clock = RealClock::new(rt);
    let status = zrepl(
        &rt,
        alloc,
        words.as_slice(),
        &mut files,
        &mut runners,
        clock,
        &mut out,
    );
    ExitCode::from(status)
}
