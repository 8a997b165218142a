//! Moves a stream between two children, and waits for both in the order that makes a cut stream a
//! failed one.

ghost use Rattle.std.specs.Prelude.{◌≡◌, ◌≢◌, ◌↔◌, ℕ, true, None, is_some};
ghost use Rattle.std.specs.Process.{child_status};
ghost use Rattle.zr_pipe.specs.Relay.{is_read_fault, is_write_fault};
ghost use Rattle.zrepl_main.specs.Ended.{EndedWell};

use crate::running::{Starter, put_down, unended, wait_for};
use crate::silence::{Audible, Watched};
use std::alloc::Global;
use std::process::{Child, OpenProcess, Processes, Stdio};
use zr_exec::{PipeExit, RunExit};
use zr_pipe::{Output, RelayEnd, Sink, Source, relay};

/// Moves all of a source to a sink, and lets the source go.
fn drain<F: Source + Drop, T: Sink>(alloc: Global, mut from: F, to: &mut T) -> RelayEnd {
    relay(alloc, &mut from, to)
}

/// Moves what the sending end writes to the receiving end, whose input stays open, and closes what the sending end writes to.
/// Where the receiving end fails, a sending end that writes nothing counts as one that can't be read.
fn move_all<S: OpenProcess>(
    alloc: Global,
    sender: &mut Child<S>,
    receiver: &mut Child<S>,
) -> RelayEnd
where
    S::Stdout: Audible,
    ensures open { is_some receiver.new.stdin ≡ is_some receiver.old.stdin }
    ensures closed { sender.new.stdout ≡ None }
{
    let Some(output) = sender.stdout.take() else {
        return RelayEnd::ReadFault(0);
    };
    let Some(mut to) = receiver.stdin.take() else {
        return RelayEnd::ReadFault(0);
    };
    let from = Watched::new(output, &mut *receiver);
    let end = drain(alloc, from, &mut Output::new(&mut to));
    receiver.stdin = Some(to);
    end
}

/// The end of a pipe by the ends of its two children.
fn joined(sent: RunExit, received: RunExit) -> PipeExit
    ensures done { (result ≡ PipeExit.Done) ↔ (sent ≡ RunExit.Done) × (received ≡ RunExit.Done) }
    ensures memory { sent ≢ RunExit.NoMemory → received ≢ RunExit.NoMemory
        → result ≢ PipeExit.NoMemory }
{
    match (sent, received) {
        (RunExit::Done, RunExit::Done) => PipeExit::Done,
        (RunExit::NoMemory, _) | (_, RunExit::NoMemory) => PipeExit::NoMemory,
        _ => PipeExit::Failed,
    }
}

/// Waits for both behind a whole stream. The sending end has closed its output, so it ends by itself; only where it ended
/// well does the receiving end see the end of its input, so that no part of a stream is ever taken for the whole.
fn wait_for_both<S: OpenProcess>(sender: &mut Child<S>, receiver: &mut Child<S>) -> PipeExit
    ensures sent { result ≡ PipeExit.Done → EndedWell (child_status sender.new) }
    ensures received { result ≡ PipeExit.Done → EndedWell (child_status receiver.new) }
{
    match wait_for(sender) {
        RunExit::Done => joined(RunExit::Done, wait_for(receiver)),
        sent => {
            put_down(receiver);
            joined(sent, RunExit::Failed)
        }
    }
}

/// Ends both, the receiving end first, so that it never takes what came for the whole.
fn put_both_down<S: OpenProcess>(sender: &mut Child<S>, receiver: &mut Child<S>) {
    put_down(receiver);
    put_down(sender);
}

/// Ends two children whose relay has ended. Only where all came over may they end by themselves.
fn finish<S: OpenProcess>(end: RelayEnd, sender: &mut Child<S>, receiver: &mut Child<S>) -> PipeExit
    ensures whole { result ≡ PipeExit.Done → (moved : ℕ) × (end ≡ RelayEnd.Whole moved) }
    ensures sent { result ≡ PipeExit.Done → EndedWell (child_status sender.new) }
    ensures received { result ≡ PipeExit.Done → EndedWell (child_status receiver.new) }
    ensures read_fault { is_read_fault end ≡ true → result ≡ PipeExit.Failed }
    ensures write_fault { is_write_fault end ≡ true → result ≡ PipeExit.Failed }
    ensures limit { end ≡ RelayEnd.Limit → result ≡ PipeExit.Failed }
    ensures memory { end ≡ RelayEnd.NoMemory → result ≡ PipeExit.NoMemory }
{
    let exit = match end {
        RelayEnd::Whole(_) => return wait_for_both(sender, receiver),
        RelayEnd::ReadFault(_) | RelayEnd::WriteFault(_) | RelayEnd::Limit => PipeExit::Failed,
        RelayEnd::NoMemory => PipeExit::NoMemory,
    };
    put_both_down(sender, receiver);
    exit
}

/// Runs two children that were started to their ends.
fn join<S: OpenProcess>(alloc: Global, sender: &mut Child<S>, receiver: &mut Child<S>) -> PipeExit
where
    S::Stdout: Audible,
    ensures sent { result ≡ PipeExit.Done → EndedWell (child_status sender.new) }
    ensures received { result ≡ PipeExit.Done → EndedWell (child_status receiver.new) }
{
    let end = move_all(alloc, sender, receiver);
    finish(end, sender, receiver)
}

/// Starts the sending end beside a receiving end that was started, and runs both to their ends.
fn send_to<P: Processes>(
    starter: &Starter<P>,
    send: &[String],
    receiver: &mut Child<P::Started>,
) -> PipeExit
where
    <P::Started as OpenProcess>::Stdout: Audible,
{
    match starter.start(send, Stdio::null(), Stdio::piped()) {
        Ok(mut sender) => join(starter.alloc, &mut sender, receiver),
        Err(fault) => {
            put_down(receiver);
            joined(unended(&fault), RunExit::Failed)
        }
    }
}

/// Runs two programs, the second of which reads what the first one writes, to their ends.
pub fn pipe_to_end<P: Processes>(
    starter: &Starter<P>,
    send: &[String],
    receive: &[String],
) -> PipeExit
where
    <P::Started as OpenProcess>::Stdout: Audible,
{
    match starter.start(receive, Stdio::piped(), Stdio::null()) {
        Ok(mut receiver) => send_to(starter, send, &mut receiver),
        Err(fault) => joined(RunExit::Failed, unended(&fault)),
    }
}
