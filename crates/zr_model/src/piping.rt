//! Serves the words of a pipe: the one transfer that they give on these pools. Apart from
//! `serving`, which reads one child's words.

ghost use Rattle.std.specs.Prelude.{◌≡◌, None, true, false, IfOk, MatchOption, map, option_map, string_bytes};
ghost use Rattle.zr_cmd.specs.declared.forms.ZfsCall.TheVariants as call;
ghost use Rattle.zr_exec.specs.Exits.{HasPipeCause, is_pipe_fault};
ghost use Rattle.zr_model.specs.Piping.{AreEnds, FindsOne};
ghost use Rattle.zr_exec.specs.Serving.{DoesPipe, DoesTransfer, PipeGives};
ghost use Rattle.zr_model.specs.Ends.{PipeEnds, PipeEndsAt};
ghost use Rattle.zr_world.specs.Lookup.{first_of_guid, stands};
ghost use Rattle.zr_world.specs.Planned.{risen_if};
ghost use Rattle.zr_world.specs.Pools.{IsWellFormed};
ghost use Rattle.zr_command.specs.declared.command.Cmd.TheVariants as cmd;
ghost use Rattle.zr_command.specs.declared.version.VersionName.TheVariants.{Mark, Snap};

use crate::serving::read_call;
use std::alloc::Global;
use zr_cmd::ZfsCall;
use zr_command::{Answer, Base, Cmd, Transfer, VersionName};
use zr_exec::PipeExit;
use zr_names::{Guid, MarkName, NoMemory, Path, Same, SnapName, TokenText};
use zr_world::{Extent, Pools, act, partial_of_token};

/// Counts a pipe that failed.
fn failed(faults: &mut u64) -> PipeExit
    ensures cause { HasPipeCause faults.old faults.new result }
    ensures same { result ≡ PipeExit.Failed }
    ensures counted { faults.new ≡ risen_if true faults.old }
{
    *faults = faults.saturating_add(1);
    PipeExit::Failed
}

/// The guid of a snapshot, if it is there.
fn snap_guid(pools: &Pools, path: &Path, name: &SnapName) -> Option<Guid>
    ensures { MatchOption result
        ((guid : Guid) → stands pools.entry.now path.now (Snap name.now) guid ≡ false)
        (λ guid. stands pools.entry.now path.now (Snap name.now) guid ≡ true) }
{
    Some(pools.snap(path, name)?.guid)
}

/// The guid of a bookmark, if it is there.
fn mark_guid(pools: &Pools, path: &Path, name: &MarkName) -> Option<Guid>
    ensures { MatchOption result
        ((guid : Guid) → stands pools.entry.now path.now (Mark name.now) guid ≡ false)
        (λ guid. stands pools.entry.now path.now (Mark name.now) guid ≡ true) }
{
    Some(pools.mark(path, name)?.guid)
}

/// The whole transfer of a snapshot, if that is there.
fn full_transfer(
    pools: &Pools,
    source: Path,
    to: SnapName,
    target: Path,
    force: bool,
) -> Option<Transfer>
    ensures { FindsOne (AreEnds pools.entry.now (call.SendFull source to)
        (call.Receive target force)) result }
{
    let guid = snap_guid(pools, &source, &to)?;
    Some(Transfer {
        source,
        to,
        guid,
        base: Base::Full,
        target,
        force,
    })
}

/// The transfer of a snapshot from a bookmark, if both are there.
fn increment(
    pools: &Pools,
    source: Path,
    mark: MarkName,
    to: SnapName,
    target: Path,
    force: bool,
) -> Option<Transfer>
    ensures { FindsOne (AreEnds pools.entry.now (call.SendFrom source mark to)
        (call.Receive target force)) result }
{
    let from = mark_guid(pools, &source, &mark)?;
    let guid = snap_guid(pools, &source, &to)?;
    Some(Transfer {
        source,
        to,
        guid,
        base: Base::From(mark, from),
        target,
        force,
    })
}

/// The name of the first snapshot of this guid.
fn first_name(pools: &Pools, path: &Path, guid: Guid) -> Result<Option<SnapName>, NoMemory>
    ensures { IfOk result (λ name. option_map Snap name ≡
        option_map (λ version. version.name) (first_of_guid pools.entry.now path.now guid)) }
{
    let Some(version) = pools.first_of_guid(path, guid) else {
        return Ok(None);
    };
    match &version.name {
        VersionName::Snap(name) => Ok(Some(name.same()?)),
        VersionName::Mark(_) => Ok(None),
    }
}

/// The resume by a token, if its source still has the snapshot: the first of the token's guid.
#[tactic(auto, using(crate::proofs::Resumed::unread, crate::proofs::Resumed::unsent))]
fn resume(
    alloc: Global,
    pools: &Pools,
    token: TokenText,
    target: Path,
    force: bool,
) -> Result<Option<Transfer>, NoMemory>
    ensures { IfOk result (FindsOne (AreEnds pools.entry.now (call.SendToken token)
        (call.Receive target force))) }
{
    let Some(partial) = partial_of_token(alloc, &token)? else {
        return Ok(None);
    };
    let Some(to) = first_name(pools, &partial.source, partial.to)? else {
        return Ok(None);
    };
    Ok(Some(Transfer {
        source: partial.source,
        to,
        guid: partial.to,
        base: Base::Resume(token, partial.from),
        target,
        force,
    }))
}

/// The transfer onto a target that a call sends. It names no guids, so these are looked up on the source.
#[tactic(auto, using(crate::proofs::Calls::one_sends_none, crate::proofs::Calls::receive_sends_none))]
fn transfer_onto(
    alloc: Global,
    pools: &Pools,
    send: ZfsCall,
    target: Path,
    force: bool,
) -> Result<Option<Transfer>, NoMemory>
    ensures { IfOk result (FindsOne (AreEnds pools.entry.now send (call.Receive target force))) }
{
    match send {
        ZfsCall::SendFull(source, to) => Ok(full_transfer(pools, source, to, target, force)),
        ZfsCall::SendFrom(source, mark, to) => {
            Ok(increment(pools, source, mark, to, target, force))
        }
        ZfsCall::SendToken(token) => resume(alloc, pools, token, target, force),
        // Let go by hand: at the end of the arm each variant would be proved again.
        ZfsCall::One(cmd) => {
            drop(cmd);
            drop(target);
            Ok(None)
        }
        ZfsCall::Receive(path, _) => {
            drop(path);
            drop(target);
            Ok(None)
        }
    }
}

/// The transfer whose ends two calls are.
fn transfer_of(
    alloc: Global,
    pools: &Pools,
    send: ZfsCall,
    receive: ZfsCall,
) -> Result<Option<Transfer>, NoMemory>
    ensures { IfOk result (FindsOne (AreEnds pools.entry.now send receive)) }
{
    match receive {
        ZfsCall::Receive(target, force) => transfer_onto(alloc, pools, send, target, force),
        // Let go by hand: at the end of the arm each variant would be proved again.
        other => {
            drop(other);
            drop(send);
            Ok(None)
        }
    }
}

/// The transfer that the words of a pipe give on these pools.
#[tactic(auto, using(crate::proofs::Ends::found_gives, crate::proofs::Ends::unreceived, crate::proofs::Ends::unsent))]
fn read_transfer(
    alloc: Global,
    pools: &Pools,
    send: &[String],
    receive: &[String],
) -> Result<Option<Transfer>, NoMemory>
    ensures { IfOk result
        (FindsOne (PipeGives (map string_bytes send.now) (map string_bytes receive.now)
        pools.entry.now)) }
{
    let Some(send) = read_call(alloc, send)? else {
        return Ok(None);
    };
    match read_call(alloc, receive) {
        Ok(Some(receive)) => transfer_of(alloc, pools, send, receive),
        // Let go by hand: at the end of the arm each variant would be proved again.
        Ok(None) => {
            drop(send);
            Ok(None)
        }
        Err(NoMemory) => {
            drop(send);
            Err(NoMemory)
        }
    }
}

/// Does a transfer on these pools, or fails it at a planned extent.
fn do_transfer(
    alloc: Global,
    pools: &mut Pools,
    faults: &mut u64,
    transfer: Transfer,
    plan: Option<Extent>,
) -> PipeExit
    requires { IsWellFormed pools.old }
    ensures cause { HasPipeCause faults.old faults.new result }
    ensures well_formed { IsWellFormed pools.new }
    ensures does { DoesTransfer transfer pools.old pools.new result }
    ensures ends { PipeEndsAt plan transfer pools.old pools.new result }
    ensures counted { faults.new ≡ risen_if (is_pipe_fault result) faults.old }
{
    let cmd = Cmd::Transfer(transfer);
    let answer = act(alloc, pools, faults, &cmd, plan);
    // Let go here: at each exit below it would be proved again.
    drop(cmd);
    match answer {
        Answer::Done(_) => PipeExit::Done,
        Answer::Failed => PipeExit::Failed,
        Answer::Garbled(_) => unreachable!(),
        Answer::NoMemory => PipeExit::NoMemory,
    }
}

/// Serves the words of a pipe on these pools, or fails it at a planned extent. Words that are no transfer's, or those of
/// one whose source is not there, do nothing.
pub fn serve_pipe(
    alloc: Global,
    pools: &mut Pools,
    faults: &mut u64,
    send: &[String],
    receive: &[String],
    plan: Option<Extent>,
) -> PipeExit
    requires { IsWellFormed pools.old }
    ensures cause { HasPipeCause faults.old faults.new result }
    ensures well_formed { IsWellFormed pools.new }
    ensures does { DoesPipe (map string_bytes send.now) (map string_bytes receive.now) pools.old
        pools.new result }
    ensures ends { PipeEnds plan (map string_bytes send.now) (map string_bytes receive.now)
        pools.old pools.new result }
    ensures counted { faults.new ≡ risen_if (is_pipe_fault result) faults.old }
{
    match read_transfer(alloc, pools, send, receive) {
        Ok(Some(transfer)) => do_transfer(alloc, pools, faults, transfer, plan),
        Ok(None) => failed(faults),
        Err(NoMemory) => PipeExit::NoMemory,
    }
}
