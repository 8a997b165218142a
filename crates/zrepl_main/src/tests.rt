//! What the ends of children do, over children in memory: a line a case, with what was started, killed, waited for and looked
//! at, in its order. A look that finds a child's end has waited for it. A test in the program itself, since its edge is no
//! library.
//!
//! A child is `OUTPUT/STATUS` with flags behind it, as `abc/0/slow`: what it writes (`-` is nothing), its wait status as the
//! system has it (256 is an exit with 1, 9 an end by that signal), and whether it is `mute` (reading from it fails), `deaf`
//! (writing to it fails), `slow` (it is silent for two waits), `silent` (for ever), `over` (it has ended when it is looked at),
//! `lost` (a look fails), `stays` (it can't be killed) or is `absent` (it can't be started).

use crate::piping::pipe_to_end;
use crate::running::{Errors, Starter, run_to_end};
use crate::silence::Audible;
use std::alloc::{AllocError, Allocator, Global};
use std::cell::{Cell, RefCell};
use std::io;
use std::io::{ErrorKind, Read, Write};
use std::os::unix::process::ExitStatusExt;
use std::process::{Child, Command, ExitStatus, OpenProcess, Processes, Stdio};
use std::test::Fail;
use zr_exec::{PipeExit, RunExit};

const CASES: &str = "\
# a child is done only where it ended with status 0
run abc/0 => Done abc, start 1, wait 1
run -/0 => Done , start 1, wait 1
run abc/256 => Nonzero abc, start 1, wait 1
run abc/9 => Failed abc, start 1, wait 1
# one that can't be read is killed and waited for; nothing waits for one that was not started
run abc/0/mute => Failed , start 1, kill 1, wait 1
run abc/0/absent => Failed 
# behind a whole stream the sending end is waited for first; only where it ended well may the receiving end finish
pipe abc/0 -/0 => Done, start 1, start 2, wait 2, wait 1
pipe abc/0 -/256 => Failed, start 1, start 2, wait 2, wait 1
pipe abc/256 -/0 => Failed, start 1, start 2, wait 2, kill 1, wait 1
pipe abc/9 -/0 => Failed, start 1, start 2, wait 2, kill 1, wait 1
pipe abc/9 -/0/stays => Failed, start 1, start 2, wait 2, kill 1, wait 1
# where the stream is cut both are ended, the receiving end first, also those that can't be killed
pipe abc/0 -/0/deaf => Failed, start 1, start 2, kill 1, wait 1, kill 2, wait 2
pipe abc/0/mute -/0 => Failed, start 1, start 2, kill 1, wait 1, kill 2, wait 2
pipe abc/0/stays -/0/deaf => Failed, start 1, start 2, kill 1, wait 1, kill 2, wait 2
# while the sending end is silent the receiving end is looked at; where that has failed both are ended at once
pipe abc/0/slow -/0 => Done, start 1, start 2, look 1, look 1, wait 2, wait 1
pipe abc/0/slow -/256 => Failed, start 1, start 2, look 1, look 1, wait 2, wait 1
pipe abc/0/silent -/256/over => Failed, start 1, start 2, end 1, kill 2, wait 2
pipe abc/0/silent -/9/over => Failed, start 1, start 2, end 1, kill 2, wait 2
pipe abc/0/silent/stays -/256/over => Failed, start 1, start 2, end 1, kill 2, wait 2
# one that has ended well, or that can't be looked at, is no reason to end the sending end
pipe -/0/slow -/0/over => Done, start 1, start 2, end 1, wait 2
pipe -/256/slow -/0/over => Failed, start 1, start 2, end 1, wait 2
pipe abc/0/slow -/0/over/deaf => Failed, start 1, start 2, end 1, kill 2, wait 2
pipe abc/0/slow -/256/lost => Failed, start 1, start 2, look 1, look 1, wait 2, wait 1
# nobody looks at a receiving end that has failed while the sending end writes
pipe abc/0 -/256/over => Failed, start 1, start 2, wait 2, wait 1
# what was started is waited for where the other end can't be started
pipe abc/0/absent -/0 => Failed, start 1, kill 1, wait 1
pipe abc/0 -/0/absent => Failed";

/// What a child writes.
#[derive(Drop)]
struct Text {
    left: &'static [u8],
    fails: bool,
    /// How many waits find nothing.
    silence: u64,
}

impl Audible for Text {
    fn stays_silent(&mut self) -> bool {
        let was_silent = self.silence > 0;
        self.silence = self.silence.saturating_sub(1);
        was_silent
    }
}

impl Read for Text {
    fn read(&mut self, buf: &mut [u8]) -> io::Result<usize> {
        if self.fails {
            return Err(io::Error::from(ErrorKind::BrokenPipe));
        }
        let count = buf.len().min(self.left.len());
        buf[..count].copy_from_slice(&self.left[..count]);
        self.left = &self.left[count..];
        Ok(count)
    }
}

/// What a child reads.
#[derive(Drop)]
struct Ear {
    fails: bool,
}

impl Write for Ear {
    fn write(&mut self, buf: &[u8]) -> io::Result<usize> {
        if self.fails {
            return Err(io::Error::from(ErrorKind::BrokenPipe));
        }
        Ok(buf.len())
    }

    fn flush(&mut self) -> io::Result<()> {
        Ok(())
    }
}

/// What is done to the children of one case.
#[derive(Drop)]
struct Log {
    text: RefCell<String>,
    started: Cell<u32>,
}

impl Log {
    fn new(alloc: Global) -> Log {
        Log {
            text: RefCell::new(String::new(alloc)),
            started: Cell::new(0),
        }
    }

    fn add(&self, what: &str, number: u32) -> Result<(), AllocError> {
        match self.text.try_borrow_mut() {
            Ok(mut text) => {
                let text: &mut String = &mut text;
                write!(text, ", {what} {number}")
            }
            Err(_) => Err(AllocError),
        }
    }

    /// What was done, behind a first text.
    fn told(&self, alloc: Global, first: &str) -> Result<String, AllocError> {
        match self.text.try_borrow() {
            Ok(text) => format!(in alloc; "{first}{}", text.as_str()),
            Err(_) => Err(AllocError),
        }
    }
}

/// A child that was started.
#[derive(Drop)]
struct Started<'a> {
    log: &'a Log,
    number: u32,
    script: Script,
}

impl<'a> OpenProcess for Started<'a> {
    type Stdin = Ear;

    type Stdout = Text;

    type Stderr = Text;

    fn id(&self) -> u32 {
        self.number
    }

    fn wait(&mut self) -> io::Result<ExitStatus> {
        self.log.add("wait", self.number)?;
        Ok(ExitStatus::from_raw(self.script.raw))
    }

    fn try_wait(&mut self) -> io::Result<Option<ExitStatus>> {
        if self.script.is_over {
            self.log.add("end", self.number)?;
            return Ok(Some(ExitStatus::from_raw(self.script.raw)));
        }
        self.log.add("look", self.number)?;
        if self.script.is_lost {
            return Err(io::Error::from(ErrorKind::NotFound));
        }
        Ok(None)
    }

    fn kill(&mut self) -> io::Result<()> {
        self.log.add("kill", self.number)?;
        if self.script.stays {
            Err(io::Error::from(ErrorKind::PermissionDenied))
        } else {
            Ok(())
        }
    }
}

/// What a child's text says of it.
#[derive(Clone, Copy)]
struct Script {
    output: &'static [u8],
    raw: i32,
    silence: u64,
    is_mute: bool,
    is_deaf: bool,
    is_over: bool,
    is_lost: bool,
    stays: bool,
    is_absent: bool,
}

fn script_of(text: &str) -> Script {
    Script {
        output: if text.starts_with("abc") { b"abc" } else { b"" },
        raw: if text.contains("/256") {
            256
        } else if text.contains("/9") {
            9
        } else {
            0
        },
        silence: if text.contains("/slow") {
            2
        } else if text.contains("/silent") {
            u64::MAX
        } else {
            0
        },
        is_mute: text.contains("/mute"),
        is_deaf: text.contains("/deaf"),
        is_over: text.contains("/over"),
        is_lost: text.contains("/lost"),
        stays: text.contains("/stays"),
        is_absent: text.contains("/absent"),
    }
}

/// Starts children; the name of a program is the child's text.
#[derive(Clone, Copy)]
struct Scripted<'a> {
    log: &'a Log,
}

impl<'a> Processes for Scripted<'a> {
    type Started = Started<'a>;

    fn spawn<B: Allocator + Clone>(
        &self,
        command: &Command<B>,
        _stdin: &Stdio,
        _stdout: &Stdio,
        _stderr: &Stdio,
    ) -> io::Result<Child<Started<'a>>> {
        let script = script_of(command.get_program());
        if script.is_absent {
            return Err(io::Error::from(ErrorKind::NotFound));
        }
        let number = self.log.started.get().saturating_add(1);
        self.log.started.set(number);
        self.log.add("start", number)?;
        let process = Started {
            log: self.log,
            number,
            script,
        };
        let stdin = Ear {
            fails: script.is_deaf,
        };
        let stdout = Text {
            left: script.output,
            fails: script.is_mute,
            silence: script.silence,
        };
        Ok(Child::from_parts(process, Some(stdin), Some(stdout), None))
    }
}

fn run_name(exit: RunExit) -> &'static str {
    match exit {
        RunExit::Done => "Done",
        RunExit::Nonzero => "Nonzero",
        RunExit::Failed => "Failed",
        RunExit::TooLong => "TooLong",
        RunExit::NoMemory => "NoMemory",
    }
}

fn pipe_name(exit: PipeExit) -> &'static str {
    match exit {
        PipeExit::Done => "Done",
        PipeExit::Failed => "Failed",
        PipeExit::NoMemory => "NoMemory",
    }
}

fn words(alloc: Global, program: &str) -> Result<Vec<String>, AllocError> {
    let mut words = Vec::new(alloc);
    words.push(String::from_str(alloc, program)?)?;
    Ok(words)
}

/// Runs one child, and tells its end, what it wrote, and what was done to it.
fn run(alloc: Global, child: &str) -> Result<String, AllocError> {
    let log = Log::new(alloc);
    let starter = Starter {
        rt: Scripted { log: &log },
        alloc,
        errors: Errors::Dropped,
    };
    let mut out = Vec::new(alloc);
    let exit = run_to_end(&starter, words(alloc, child)?.as_slice(), &mut out);
    let wrote = if out.as_slice() == b"abc".as_slice() {
        "abc"
    } else {
        ""
    };
    let end = format!(in alloc; "{} {wrote}", run_name(exit))?;
    log.told(alloc, end.as_str())
}

/// Runs a pipe of two children, and tells its end and what was done to them.
fn pipe(alloc: Global, ends: &str) -> Result<String, AllocError> {
    let (send, receive) = ends.split_once(' ').unwrap_or((ends, ""));
    let log = Log::new(alloc);
    let starter = Starter {
        rt: Scripted { log: &log },
        alloc,
        errors: Errors::Shared,
    };
    let exit = pipe_to_end(
        &starter,
        words(alloc, send)?.as_slice(),
        words(alloc, receive)?.as_slice(),
    );
    log.told(alloc, pipe_name(exit))
}

fn said(alloc: Global, ask: &str) -> Result<String, AllocError> {
    match ask.split_once(' ') {
        Some(("run", child)) => run(alloc, child),
        Some((_, ends)) => pipe(alloc, ends),
        None => String::from_str(alloc, ""),
    }
}

#[test]
fn ends_of_children(rt: HostRuntime) -> Result<(), Fail> {
    let alloc = rt.alloc();
    for line in CASES.lines() {
        if let Some((ask, want)) = line.split_once(" => ") {
            let said = said(alloc, ask)?;
            assert!(rt; said.as_str() == want, "{line}: {said}");
        }
    }
    Ok(())
}
