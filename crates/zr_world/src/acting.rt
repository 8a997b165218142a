//! How a command is answered by pools in memory, planned failures among the answers. Apart from
//! `effects`, which fails none.

ghost use Rattle.std.specs.Prelude.{◌≡◌, false};
ghost use Rattle.zr_world.specs.Answering.{Answers, IsReplyTo, HasCause, is_failed, is_garbled};
ghost use Rattle.zr_world.specs.Pools.{IsWellFormed};
ghost use Rattle.zr_world.specs.Planned.{ComesAt, ComesWhole, LeavesAt, risen_if};

use crate::effects::{ApplyFault, Extent, apply};
use crate::pools::Pools;
use std::alloc::Global;
use zr_command::{Answer, Cmd};

/// Answers a command as ZFS does on these pools, or fails it at a planned extent.
pub fn act(
    alloc: Global,
    pools: &mut Pools,
    faults: &mut u64,
    cmd: &Cmd,
    plan: Option<Extent>,
) -> Answer
    ensures cause { HasCause faults.old faults.new result }
    ensures answer { IsWellFormed pools.old → Answers cmd.now pools.old pools.new result }
    ensures well_formed { IsWellFormed pools.old → IsWellFormed pools.new }
    ensures shape { IsWellFormed pools.old → IsReplyTo cmd.now result }
    ensures legible { is_garbled result ≡ false }
    ensures comes { ComesAt plan cmd.now pools.old pools.new result }
    ensures counted { faults.new ≡ risen_if (is_failed result) faults.old }
{
    match plan {
        Some(extent) => fail(alloc, pools, faults, cmd, extent),
        None => succeed(alloc, pools, faults, cmd),
    }
}

/// The command comes as far as the extent says, and is answered as failed.
fn fail(alloc: Global, pools: &mut Pools, faults: &mut u64, cmd: &Cmd, extent: Extent) -> Answer
    ensures cause { HasCause faults.old faults.new result }
    ensures answer { IsWellFormed pools.old → Answers cmd.now pools.old pools.new result }
    ensures well_formed { IsWellFormed pools.old → IsWellFormed pools.new }
    ensures failed { result ≡ Answer.Failed }
    ensures comes { LeavesAt cmd.now extent pools.old pools.new }
    ensures counted { faults.new ≡ risen_if (is_failed result) faults.old }
{
    let _ = apply(alloc, pools, cmd, extent);
    *faults = faults.saturating_add(1);
    Answer::Failed
}

/// The command comes whole, unless it is refused.
fn succeed(alloc: Global, pools: &mut Pools, faults: &mut u64, cmd: &Cmd) -> Answer
    ensures cause { HasCause faults.old faults.new result }
    ensures answer { IsWellFormed pools.old → Answers cmd.now pools.old pools.new result }
    ensures well_formed { IsWellFormed pools.old → IsWellFormed pools.new }
    ensures shape { IsWellFormed pools.old → IsReplyTo cmd.now result }
    ensures legible { is_garbled result ≡ false }
    ensures comes { ComesWhole cmd.now pools.old pools.new result }
    ensures counted { faults.new ≡ risen_if (is_failed result) faults.old }
{
    match apply(alloc, pools, cmd, Extent::Whole) {
        Ok(reply) => Answer::Done(reply),
        Err(ApplyFault::Refused(_)) => {
            *faults = faults.saturating_add(1);
            Answer::Failed
        }
        Err(ApplyFault::NoMemory) => Answer::NoMemory,
    }
}
