//! What runs ZFS commands, as units of work see it.

ghost use Rattle.std.specs.Prelude.{◌≡◌, ℕ, [], ◌∷◌, List, Option, OnOk, OnErr};
ghost use Rattle.zr_world.specs.Answering.{Acts, appended, IsReplyTo, HasCause, Logs};
ghost use Rattle.zr_command.specs.Plain.{plain};
ghost use Rattle.zr_command.specs.declared.command.Entry.{Entry as EntryValue};
ghost use Rattle.zr_command.specs.declared.command.Entry.TheVariants.{Begin};
ghost use Rattle.zr_world.specs.declared.pools.Pools.{Pools as PoolsValue};

use zr_command::{Answer, Cmd};
use zr_names::{NoMemory, Unit};

/// Runs ZFS commands, one at a time. Nothing happens after the answer.
pub trait Zfs {
    /// How many faults there were; it stays at `u64::MAX` once there.
    ghost faults: { Self → ℕ };

    /// The pools, where they are told.
    ghost pools: { Self → Option PoolsValue };

    /// The record of begun runs and calls, where it is told.
    ghost history: { Self → Option (List EntryValue) };

    /// Begins a run of a unit under a run number: the calls up to the next `begin` belong to it.
    fn begin(&mut self, unit: &Unit, run: u64) -> Result<(), NoMemory>
        ensures faults { faults self.new ≡ faults self.old }
        ensures pools { pools self.new ≡ pools self.old }
        ensures ok { OnOk result
            (history self.new ≡ appended (history self.old) (Begin unit.now run ∷ [])) }
        ensures err { OnErr result (history self.new ≡ history self.old) };

    fn run(&mut self, cmd: &Cmd) -> Answer
        ensures cause { HasCause (faults self.old) (faults self.new) result }
        ensures told { Logs (history self.old) (history self.new) (plain cmd.now) result }
        ensures pools { Acts cmd.now (pools self.old) (pools self.new) result }
        ensures shape { IsReplyTo cmd.now result };
}
