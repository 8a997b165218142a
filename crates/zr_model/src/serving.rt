//! Serves the words of one child: the command that they spell, and what it prints.

ghost use Rattle.std.specs.Prelude.{◌≡◌, ◌≢◌, ◌≤◌, [], IfOk, None, drop, length, map, string_bytes, true};
ghost use Rattle.zr_exec.specs.Commands.{command_in};
ghost use Rattle.zr_exec.specs.Exits.{HasExitCause, is_child_fault};
ghost use Rattle.zr_exec.specs.Listed.{listed_by};
ghost use Rattle.zr_cmd.specs.Words.{Spells};
ghost use Rattle.zr_cmd.specs.declared.forms.ZfsCall.TheVariants.{One};
ghost use Rattle.zr_model.specs.Piping.{FindsOne, is_unspelled};
ghost use Rattle.zr_model.specs.Ends.{AreFree, EndsAt, EndsWords, is_sendable, Wrote};
ghost use Rattle.zr_exec.specs.Serving.{Does, DoesWords, IsReply};
ghost use Rattle.zr_world.specs.Answering.{IsReplyTo};
ghost use Rattle.zr_world.specs.Planned.{risen_if};
ghost use Rattle.zr_world.specs.Pools.{IsWellFormed};
ghost use Rattle.zr_command.specs.declared.command.Cmd.{Cmd};

use std::alloc::Global;
use zr_cmd::{ArgvFault, ZfsCall, read_argv};
use zr_command::{Answer, Cmd, Reply};
use zr_exec::{LISTING_LIMIT, RunExit};
use zr_listing::{print_holds, print_sets, print_token, print_versions};
use zr_names::NoMemory;
use zr_world::{Extent, Pools, act, partial_of_token};

/// The words behind the program's name.
pub fn behind_program(argv: &[String]) -> &[String]
    ensures { map string_bytes result.now ≡ drop 1 (map string_bytes argv.now) }
{
    match argv.split_first() {
        Some((_, words)) => words,
        None => argv,
    }
}

/// Counts a child that failed.
fn counted(faults: &mut u64, exit: RunExit) -> RunExit
    ensures cause { HasExitCause faults.old faults.new result }
    ensures same { result ≡ exit }
    ensures counted { faults.new ≡ risen_if true faults.old }
{
    *faults = faults.saturating_add(1);
    exit
}

/// What a child writes that gives this reply.
fn print(alloc: Global, cmd: &Cmd, reply: &Reply) -> Result<Vec<u8>, NoMemory>
    requires fits { IsReplyTo cmd.now (Answer.Done reply.now) }
    requires free { AreFree reply.now }
    ensures { IfOk result (λ text. IsReply (listed_by cmd.now) text.items reply.now) }
{
    match (cmd, reply) {
        (_, Reply::Nothing) => Ok(Vec::new(alloc)),
        (_, Reply::Token(info)) => print_token(alloc, info),
        (_, Reply::Sets(rows)) => print_sets(alloc, rows.as_slice()),
        (Cmd::Versions(path), Reply::Versions(rows)) => {
            print_versions(alloc, path, rows.as_slice())
        }
        (Cmd::Holds(path, name), Reply::Holds(tags)) => {
            print_holds(alloc, path, name, tags.as_slice())
        }
        (_, Reply::Versions(_) | Reply::Holds(_)) => unreachable!(),
    }
}

/// Writes what a child printed, up to the limit.
fn write_out(text: &[u8], out: &mut Vec<u8>, faults: &mut u64) -> RunExit
    requires { out.old.items ≡ [] }
    ensures cause { HasExitCause faults.old faults.new result }
    ensures within { length out.new.items ≤ LISTING_LIMIT }
    ensures full { result ≡ RunExit.TooLong → length out.new.items ≡ LISTING_LIMIT }
    ensures done { result ≡ RunExit.Done → out.new.items ≡ text.now }
    ensures counted { faults.new ≡ risen_if (is_child_fault result) faults.old }
    ensures ran { result ≢ RunExit.Nonzero }
    ensures ended { result ≢ RunExit.Failed }
{
    if text.len() > LISTING_LIMIT {
        let front = text.get(..LISTING_LIMIT).unwrap_or(text);
        return match out.extend_from_slice(front) {
            Ok(()) => counted(faults, RunExit::TooLong),
            Err(_) => RunExit::NoMemory,
        };
    }
    match out.extend_from_slice(text) {
        Ok(()) => RunExit::Done,
        Err(_) => RunExit::NoMemory,
    }
}

/// Whether words that are refused for this are those of no call.
fn is_unspelled(fault: &ArgvFault) -> bool
    ensures { result ≡ is_unspelled fault.now }
{
    match fault {
        ArgvFault::UnknownCommand | ArgvFault::BadWord(_) => true,
        ArgvFault::NoMemory => false,
    }
}

/// The call whose words these are.
pub(crate) fn read_call(alloc: Global, words: &[String]) -> Result<Option<ZfsCall>, NoMemory>
    ensures { IfOk result (FindsOne (Spells (map string_bytes words.now))) }
{
    match read_argv(alloc, words) {
        Ok(call) => Ok(Some(call)),
        Err(fault) if is_unspelled(&fault) => Ok(None),
        Err(_) => Err(NoMemory),
    }
}

/// The command that a call is. One end of a transfer alone is none.
fn command_in(call: Option<ZfsCall>) -> Option<Cmd>
    ensures { result ≡ command_in call }
{
    match call {
        Some(ZfsCall::One(cmd)) => Some(cmd),
        _ => None,
    }
}

/// The command whose words these are.
#[tactic(auto, using(crate::proofs::Calls::found_command))]
fn read_command(alloc: Global, words: &[String]) -> Result<Option<Cmd>, NoMemory>
    ensures { IfOk result (FindsOne
        (λ (given : Cmd). Spells (map string_bytes words.now) (One given))) }
{
    Ok(command_in(read_call(alloc, words)?))
}

/// Whether the source of a token still has its snapshot; every other command has no such source.
fn is_sendable(alloc: Global, pools: &Pools, cmd: &Cmd) -> Result<bool, NoMemory>
    ensures { IfOk result (λ sendable. sendable ≡ is_sendable pools.entry.now cmd.now) }
{
    let Cmd::Token(token) = cmd else {
        return Ok(true);
    };
    match partial_of_token(alloc, token)? {
        Some(partial) => Ok(pools.first_of_guid(&partial.source, partial.to).is_some()),
        None => Ok(false),
    }
}

/// Writes what a command replied; what a token says is written with another status where its source is gone.
fn write_reply(text: &[u8], sendable: bool, out: &mut Vec<u8>, faults: &mut u64) -> RunExit
    requires { out.old.items ≡ [] }
    ensures cause { HasExitCause faults.old faults.new result }
    ensures within { length out.new.items ≤ LISTING_LIMIT }
    ensures full { result ≡ RunExit.TooLong → length out.new.items ≡ LISTING_LIMIT }
    ensures wrote { Wrote sendable text.now out.new.items result }
    ensures counted { faults.new ≡ risen_if (is_child_fault result) faults.old }
{
    match write_out(text, out, faults) {
        RunExit::Done if !sendable => counted(faults, RunExit::Nonzero),
        exit => exit,
    }
}

/// Serves a command on these pools, or fails it at a planned extent.
#[tactic(auto, using(crate::proofs::Free::free_replies, crate::proofs::Served::reply_does, crate::proofs::Served::reply_ends, crate::proofs::Served::failure_does))]
fn serve_command(
    alloc: Global,
    pools: &mut Pools,
    faults: &mut u64,
    cmd: &Cmd,
    plan: Option<Extent>,
    out: &mut Vec<u8>,
) -> RunExit
    requires well_formed { IsWellFormed pools.old }
    requires empty { out.old.items ≡ [] }
    ensures cause { HasExitCause faults.old faults.new result }
    ensures well_formed { IsWellFormed pools.new }
    ensures within { length out.new.items ≤ LISTING_LIMIT }
    ensures full { result ≡ RunExit.TooLong → length out.new.items ≡ LISTING_LIMIT }
    ensures does { Does cmd.now pools.old pools.new result out.new.items }
    ensures ends { EndsAt plan cmd.now pools.old pools.new result out.new.items }
    ensures counted { faults.new ≡ risen_if (is_child_fault result) faults.old }
{
    let sendable = is_sendable(alloc, pools, cmd);
    match act(alloc, pools, faults, cmd, plan) {
        Answer::Done(reply) => {
            let text = print(alloc, cmd, &reply);
            // Let go here: at each exit below it would be proved again.
            drop(reply);
            match (text, sendable) {
                (Ok(text), Ok(sendable)) => write_reply(text.as_slice(), sendable, out, faults),
                _ => RunExit::NoMemory,
            }
        }
        Answer::Failed if plan.is_none() => RunExit::Nonzero,
        Answer::Failed => RunExit::Failed,
        Answer::Garbled(_) => unreachable!(),
        Answer::NoMemory => RunExit::NoMemory,
    }
}

/// Serves the words of a command on these pools, or fails it at a planned extent. Words that are no
/// command's do nothing.
#[tactic(auto, using(crate::proofs::Ends::does_spelled))]
pub fn serve(
    alloc: Global,
    pools: &mut Pools,
    faults: &mut u64,
    words: &[String],
    plan: Option<Extent>,
    out: &mut Vec<u8>,
) -> RunExit
    requires { IsWellFormed pools.old }
    ensures cause { HasExitCause faults.old faults.new result }
    ensures well_formed { IsWellFormed pools.new }
    ensures within { length out.new.items ≤ LISTING_LIMIT }
    ensures full { result ≡ RunExit.TooLong → length out.new.items ≡ LISTING_LIMIT }
    ensures does { DoesWords (map string_bytes words.now) pools.old pools.new result out.new.items }
    ensures ends { EndsWords plan (map string_bytes words.now) pools.old pools.new result
        out.new.items }
    ensures counted { faults.new ≡ risen_if (is_child_fault result) faults.old }
{
    out.clear();
    match read_command(alloc, words) {
        Ok(Some(cmd)) => {
            let exit = serve_command(alloc, pools, faults, &cmd, plan, out);
            drop(cmd);
            exit
        }
        Ok(None) => counted(faults, RunExit::Nonzero),
        Err(NoMemory) => RunExit::NoMemory,
    }
}
