//! Starts one program and waits for it.

ghost use Rattle.std.specs.Prelude.{◌≡◌, ◌≢◌, ◌≤◌, vec_len};
ghost use Rattle.std.specs.Process.{child_status};
ghost use Rattle.zr_exec.specs.declared.spawn.TheConstants.{LISTING_LIMIT};
ghost use Rattle.zrepl_main.specs.Ended.{EndedWell};

use std::alloc::Global;
use std::io;
use std::io::ErrorKind;
use std::process::{Child, Command, OpenProcess, Processes, Stdio};
use zr_exec::{LISTING_LIMIT, RunExit};
use zr_pipe::{Reading, read_up_to};

/// Where a child's standard error goes.
#[derive(Clone, Copy)]
pub enum Errors {
    /// To this process's.
    Shared,
    /// Nowhere: this process has none, and the first file that a child opens would get its number.
    Dropped,
}

/// What starts children.
#[derive(Clone, Copy)]
pub struct Starter<P> {
    pub rt: P,
    pub alloc: Global,
    pub errors: Errors,
}

/// The command line of a child. It is made in a function of its own, so that it is let go at few exits.
fn command_of(alloc: Global, argv: &[String]) -> io::Result<Command> {
    let Some(program) = argv.first() else {
        return Err(io::Error::from(ErrorKind::InvalidInput));
    };
    let mut command = Command::new(alloc, program.as_str())?;
    for word in &argv[1..] {
        command.arg(word.as_str())?;
    }
    Ok(command)
}

impl<P: Processes> Starter<P> {
    fn stderr(&self) -> Stdio {
        match self.errors {
            Errors::Shared => Stdio::inherit(),
            Errors::Dropped => Stdio::null(),
        }
    }

    /// Starts the program that the first word names. Its environment is this process's.
    pub fn start(
        &self,
        argv: &[String],
        stdin: Stdio,
        stdout: Stdio,
    ) -> io::Result<Child<P::Started>> {
        let stderr = self.stderr();
        command_of(self.alloc, argv)?
            .stdin(stdin)
            .stdout(stdout)
            .stderr(stderr)
            .spawn(&self.rt)
    }
}

/// The end of a child that was not started, or whose status could not be had.
pub fn unended(fault: &io::Error) -> RunExit
    ensures short { result ≢ RunExit.TooLong }
    ensures not_done { result ≢ RunExit.Done }
{
    if fault.kind() == ErrorKind::OutOfMemory {
        RunExit::NoMemory
    } else {
        RunExit::Failed
    }
}

/// Waits until a child ends. It sees the end of its input first.
pub fn wait_for<S: OpenProcess>(child: &mut Child<S>) -> RunExit
    ensures short { result ≢ RunExit.TooLong }
    ensures done { result ≡ RunExit.Done → EndedWell (child_status child.new) }
{
    match child.wait() {
        Ok(status) => match status.code() {
            Some(0) => RunExit::Done,
            Some(_) => RunExit::Nonzero,
            None => RunExit::Failed,
        },
        Err(fault) => unended(&fault),
    }
}

/// Ends a child that is of no more use, and waits for it.
pub fn put_down<S: OpenProcess>(child: &mut Child<S>) {
    let _ = child.kill();
    // A child that may not be killed, as one of another user, ends once nobody reads what it writes.
    drop(child.stdout.take());
    let _ = child.wait();
}

/// Reads what a child writes, up to the limit.
fn listen<S: OpenProcess>(alloc: Global, child: &mut Child<S>, out: &mut Vec<u8>) -> Reading
    ensures within { vec_len out.new ≤ LISTING_LIMIT }
    ensures full { result ≡ Reading.TooLong → vec_len out.new ≡ LISTING_LIMIT }
{
    match child.stdout.take() {
        Some(mut stdout) => read_up_to(alloc, &mut stdout, out, LISTING_LIMIT),
        None => {
            out.clear();
            Reading::Failed
        }
    }
}

/// Runs a child that was started to its end.
fn run_started<S: OpenProcess>(alloc: Global, child: &mut Child<S>, out: &mut Vec<u8>) -> RunExit
    ensures within { vec_len out.new ≤ LISTING_LIMIT }
    ensures full { result ≡ RunExit.TooLong → vec_len out.new ≡ LISTING_LIMIT }
    ensures done { result ≡ RunExit.Done → EndedWell (child_status child.new) }
{
    let exit = match listen(alloc, child, out) {
        Reading::Whole => return wait_for(child),
        Reading::TooLong => RunExit::TooLong,
        Reading::Failed => RunExit::Failed,
        Reading::NoMemory => RunExit::NoMemory,
    };
    put_down(child);
    exit
}

/// Runs a program to its end.
pub fn run_to_end<P: Processes>(starter: &Starter<P>, argv: &[String], out: &mut Vec<u8>) -> RunExit
    ensures within { vec_len out.new ≤ LISTING_LIMIT }
    ensures full { result ≡ RunExit.TooLong → vec_len out.new ≡ LISTING_LIMIT }
{
    match starter.start(argv, Stdio::null(), Stdio::piped()) {
        Ok(mut child) => run_started(starter.alloc, &mut child, out),
        Err(fault) => {
            out.clear();
            unended(&fault)
        }
    }
}
