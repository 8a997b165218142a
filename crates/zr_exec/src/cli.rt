//! The runner of commands by children: words out, listings and ends in. Apart from `spawn`, which
//! knows no ZFS.

ghost use Rattle.std.specs.Prelude.{◌≡◌, ◌≤◌, ◌+◌, ◌<◌, ℕ, List, length};
ghost use Rattle.zr_exec.specs.Answering.{IsAnswer, newlines, pipe_answer, refusal_of};
ghost use Rattle.zr_exec.specs.Listed.{listed_by, token};
ghost use Rattle.zr_world.specs.Answering.{IsReplyTo};
ghost use Rattle.zr_command.specs.declared.command.Cmd.TheVariants as command;

use crate::spawn::{LISTING_LIMIT, PipeExit, RunExit, Spawn};
use std::alloc::Global;
use std::marker::Model;
use zr_cmd::{Argv, argv_of};
use zr_command::{Answer, Cmd, Reply};
use zr_listing::{ListFault, read_holds, read_sets, read_token, read_versions};
use zr_names::{NoMemory, Path, Rows, Unit};
use zr_world::Zfs;

/// A runner of ZFS commands that starts a child of its program for each, for a transfer two in a pipe, and reads what
/// they write.
#[derive(Drop)]
pub struct CliZfs<S> {
    spawn: S,
    program: String,
}

impl<S> Model for CliZfs<S> {
    ghost use Rattle.std.specs.String.{string_bytes};
    ghost use Rattle.zr_exec.specs.Running.{Running, running_code};

    ghost Value = { Running S };

    ghost coded = { running_code S.code };

    ghost view = { λ c. record { program = string_bytes c.program; children = c.spawn } };
}

impl<S> CliZfs<S> {
    ghost use Rattle.std.specs.Prelude.{◌≡◌};
    ghost use Rattle.std.specs.String.{string_bytes};

    /// A runner whose children are those of this program, as `zfs`.
    pub fn new(spawn: S, program: String) -> CliZfs<S>
        ensures { result ≡ record { program = string_bytes program; children = spawn } }
    {
        CliZfs { spawn, program }
    }

    /// The runner of children.
    pub fn spawn(self) -> S
        ensures { result ≡ self.children }
    {
        let CliZfs { spawn, program: _ } = self;
        spawn
    }
}

fn newlines(bytes: &[u8]) -> usize
    ensures count { result ≡ newlines bytes.now }
    ensures within { result ≤ length bytes.now }
{
    bytes.iter().filter(|byte| **byte == b'\n').count()
}

/// The answer to a listing that is too long.
fn cut(out: &[u8]) -> Answer
    requires { length out.now ≤ LISTING_LIMIT }
    ensures { result ≡ Answer.Garbled (newlines out.now + 1) }
{
    Answer::Garbled(newlines(out) as u64 + 1)
}

fn refused(fault: ListFault) -> Answer
    ensures { result ≡ refusal_of fault }
{
    match fault {
        ListFault::Garbled(line) => Answer::Garbled(line),
        ListFault::NoMemory => Answer::NoMemory,
    }
}

/// Reads what a child wrote that ended well.
fn read_reply(alloc: Global, cmd: &Cmd, out: &[u8]) -> Answer
    ensures answer { IsAnswer (listed_by cmd.now) RunExit.Done out.now result }
    ensures shape { IsReplyTo cmd.now result }
{
    match cmd {
        Cmd::Sets => match read_sets(alloc, out) {
            Ok(rows) => Answer::Done(Reply::Sets(rows)),
            Err(fault) => refused(fault),
        },
        Cmd::Versions(path) => match read_versions(alloc, path, out) {
            Ok(rows) => Answer::Done(Reply::Versions(rows)),
            Err(fault) => refused(fault),
        },
        Cmd::Holds(path, name) => match read_holds(alloc, path, name, out) {
            Ok(tags) => Answer::Done(Reply::Holds(tags)),
            Err(fault) => refused(fault),
        },
        Cmd::Token(_) => match read_token(out) {
            Ok(info) => Answer::Done(Reply::Token(info)),
            Err(fault) => refused(fault),
        },
        Cmd::Snapshot(_, _)
        | Cmd::Hold(_, _, _, _)
        | Cmd::Release(_, _, _, _)
        | Cmd::Bookmark(_, _, _)
        | Cmd::DestroySnaps(_, _)
        | Cmd::DestroyMark(_, _)
        | Cmd::Create(_)
        | Cmd::Transfer(_)
        | Cmd::Abort(_) => Answer::Done(Reply::Nothing),
    }
}

/// Reads what a token says where its child ended with another status, as it does where the source is gone.
fn read_anyhow(out: &[u8]) -> Answer
    ensures answer { IsAnswer token RunExit.Nonzero out.now result }
    ensures shape { (text : List ℕ) → IsReplyTo (command.Token text) result }
{
    match read_token(out) {
        Ok(info) => Answer::Done(Reply::Token(info)),
        Err(ListFault::Garbled(_)) => Answer::Failed,
        Err(ListFault::NoMemory) => Answer::NoMemory,
    }
}

/// The answer to a command by its child's end and what it wrote.
fn answer(alloc: Global, cmd: &Cmd, exit: RunExit, out: &[u8]) -> Answer
    requires { length out.now ≤ LISTING_LIMIT }
    ensures answer { IsAnswer (listed_by cmd.now) exit out.now result }
    ensures shape { IsReplyTo cmd.now result }
{
    match (exit, cmd) {
        (RunExit::Done, _) => read_reply(alloc, cmd, out),
        (RunExit::Nonzero, Cmd::Token(_)) => read_anyhow(out),
        (RunExit::TooLong, Cmd::Sets | Cmd::Versions(_) | Cmd::Holds(_, _) | Cmd::Token(_)) => {
            cut(out)
        }
        (RunExit::TooLong | RunExit::Nonzero | RunExit::Failed, _) => Answer::Failed,
        (RunExit::NoMemory, _) => Answer::NoMemory,
    }
}

/// The answer to a transfer by its pipe's end.
fn piped(exit: PipeExit) -> Answer
    ensures { result ≡ pipe_answer exit }
{
    match exit {
        PipeExit::Done => Answer::Done(Reply::Nothing),
        PipeExit::Failed => Answer::Failed,
        PipeExit::NoMemory => Answer::NoMemory,
    }
}

impl<S: Spawn> Zfs for CliZfs<S> {
    ghost use Rattle.zr_exec.specs.Entries.{entries_of};

    ghost faults = { λ c. S.faults c.children };

    ghost pools = { λ c. S.pools c.children };

    ghost history = { λ c. entries_of c.program (S.history c.children) };

    #[tactic(auto, using(crate::proofs::Told::begin_told))]
    fn begin(&mut self, unit: &Unit, run: u64) -> Result<(), NoMemory> {
        self.spawn.begin(unit, run)
    }

    fn run(&mut self, cmd: &Cmd) -> Answer {
        let alloc = *self.program.allocator();
        match argv_of(alloc, self.program.as_str(), cmd) {
            Ok(Argv::One(words)) => {
                let mut out = Vec::new(alloc);
                let exit = self.spawn.run(words.as_slice(), &mut out);
                answer(alloc, cmd, exit, out.as_slice())
            }
            Ok(Argv::Pipe(send, receive)) => {
                piped(self.spawn.pipe(send.as_slice(), receive.as_slice()))
            }
            Err(NoMemory) => Answer::NoMemory,
        }
    }
}
