//! The runner of the system's programs: one child whose output is read, or two with a pipe between
//! them.

ghost use Rattle.std.specs.Prelude.{◌≡◌, ◌≤◌, None, true, false};
ghost use Rattle.zr_exec.specs.Exits.{is_child_fault, is_pipe_fault};
ghost use Rattle.zr_base.specs.Count.{Rose};

use crate::piping::pipe_to_end;
use crate::running::{Starter, run_to_end};
use crate::silence::Audible;
use std::process::{OpenProcess, Processes};
use zr_exec::{PipeExit, RunExit, Spawn};
use zr_names::{NoMemory, Unit};

/// Runs programs of the system. A child has no input but the other end of its pipe, and its standard error is this
/// process's, where there is one.
#[derive(Drop)]
pub struct RealSpawn<P> {
    starter: Starter<P>,
    faults: u64,
}

impl<P: Processes> RealSpawn<P> {
    pub fn new(starter: Starter<P>) -> RealSpawn<P> {
        RealSpawn { starter, faults: 0 }
    }
}

/// Whether a child failed.
fn is_child_fault(exit: RunExit) -> bool
    ensures { result ≡ is_child_fault exit }
{
    match exit {
        RunExit::Nonzero | RunExit::Failed | RunExit::TooLong => true,
        RunExit::Done | RunExit::NoMemory => false,
    }
}

/// Whether an end of a pipe failed.
fn is_pipe_fault(exit: PipeExit) -> bool
    ensures { result ≡ is_pipe_fault exit }
{
    match exit {
        PipeExit::Failed => true,
        PipeExit::Done | PipeExit::NoMemory => false,
    }
}

/// Counts a child or a pipe that failed.
fn count(failed: bool, faults: &mut u64)
    ensures rose { failed ≡ true → Rose faults.old faults.new }
    ensures keeps { failed ≡ false → faults.new ≡ faults.old }
    ensures later { faults.old ≤ faults.new }
{
    if failed {
        *faults = faults.saturating_add(1);
    }
}

impl<P: Processes> Spawn for RealSpawn<P>
where
    <P::Started as OpenProcess>::Stdout: Audible,
{
    ghost faults = { λ s. s.faults };

    ghost history = { λ _. None };

    ghost pools = { λ _. None };

    fn begin(&mut self, _unit: &Unit, _run: u64) -> Result<(), NoMemory> {
        Ok(())
    }

    fn run(&mut self, argv: &[String], out: &mut Vec<u8>) -> RunExit {
        let exit = run_to_end(&self.starter, argv, out);
        count(is_child_fault(exit), &mut self.faults);
        exit
    }

    fn pipe(&mut self, send: &[String], receive: &[String]) -> PipeExit {
        let exit = pipe_to_end(&self.starter, send, receive);
        count(is_pipe_fault(exit), &mut self.faults);
        exit
    }
}
