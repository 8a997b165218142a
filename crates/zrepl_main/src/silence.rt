//! Looks at the receiving end while the sending end is silent.

ghost use Rattle.std.specs.Prelude.{◌≡◌, None, false};
ghost use Rattle.std.specs.Process.{child_status};
ghost use Rattle.zrepl_main.specs.Ended.{EndedWell};

use libc::net::{POLLIN, poll};
use libc::types::pollfd;
use std::os::fd::AsRawFd;
use std::process::{Child, ChildStdout, OpenProcess};
use zr_pipe::{Failed, Input, Source};

/// How long a child that writes nothing is waited for at a time, in milliseconds.
const PAUSE: i32 = 50;

/// What a child writes, where one can wait for it a while.
pub trait Audible {
    /// Waits for something to read, `PAUSE` at most. It answers whether there was nothing.
    fn stays_silent(&mut self) -> bool;
}

impl Audible for ChildStdout {
    fn stays_silent(&mut self) -> bool {
        let mut asked = [pollfd {
            fd: self.as_raw_fd(),
            events: POLLIN,
            revents: 0,
        }];
        // Where the system can't tell, the read has to.
        poll(&mut asked, PAUSE) == 0
    }
}

/// Whether a child has ended otherwise than well. One that ended well may have all that it needs.
fn has_failed<S: OpenProcess>(child: &mut Child<S>) -> bool
    ensures { EndedWell (child_status child.new) → result ≡ false }
{
    match child.try_wait() {
        Ok(Some(status)) => status.code() != Some(0),
        Ok(None) | Err(_) => false,
    }
}

/// Waits until a read of what the sending end writes need not wait, unless the receiving end has failed.
fn wait_for_output<S: OpenProcess>(
    output: &mut S::Stdout,
    receiver: &mut Child<S>,
) -> Result<(), Failed>
where
    S::Stdout: Audible,
{
    for _ in 0..u64::MAX {
        if !output.stays_silent() {
            break;
        }
        if has_failed(receiver) {
            return Err(Failed);
        }
    }
    Ok(())
}

/// What a sending end writes, as a source. It is not waited for where the receiving end has failed. It holds the output itself,
/// since a source that holds two references gets no proof.
#[derive(Drop)]
pub struct Watched<'a, S: OpenProcess> {
    output: S::Stdout,
    receiver: &'a mut Child<S>,
    faults: u64,
}

impl<'a, S: OpenProcess> Watched<'a, S> {
    pub fn new(output: S::Stdout, receiver: &'a mut Child<S>) -> Watched<'a, S> {
        Watched {
            output,
            receiver,
            faults: 0,
        }
    }
}

impl<'a, S: OpenProcess> Source for Watched<'a, S>
where
    S::Stdout: Audible,
{
    ghost faults = { λ s. s.faults };

    ghost left = { λ _. None };

    fn take(&mut self, buf: &mut [u8]) -> Result<usize, Failed> {
        let taken = match wait_for_output(&mut self.output, self.receiver) {
            Ok(()) => Input::new(&mut self.output).take(buf),
            Err(fault) => Err(fault),
        };
        if taken.is_err() {
            self.faults = self.faults.saturating_add(1);
        }
        taken
    }
}
