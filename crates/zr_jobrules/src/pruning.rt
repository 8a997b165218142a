//! Which snapshots are kept on the two sides, or on the one.

ghost use Rattle.std.specs.Prelude.{◌≡◌, ◌≢◌, IfErr, IfOk, OnOk};
ghost use Rattle.zr_jobwalk.specs.Faults.{HasFault, InTable, field_of};
ghost use Rattle.zr_jobwalk.specs.Tables.{section};
ghost use Rattle.zr_jobwalk.specs.Values.{Has, IsTable};
ghost use Rattle.zr_jobrules.specs.Patterns.{asked};
ghost use Rattle.zr_jobrules.specs.Pruning.{IsKeep, IsPruning, KeepFault, PruningFault};

use crate::rules::rules_of;
use zr_jobwalk::{Field, JobFault, Table};
use zr_names::Rows;
use zr_rules::{Patterns, RuleSpec};

/// The table `pruning` of a push or pull job.
#[derive(Drop)]
pub struct Pruning {
    /// The rules of the sending side.
    pub sender: Rows<RuleSpec>,
    /// The rules of the receiving side.
    pub receiver: Rows<RuleSpec>,
}

fn read_pruning<P: Patterns>(patterns: &mut P, table: &Table<'_>) -> Result<Pruning, JobFault>
    ensures pruning { IfOk result (λ pruning. IsPruning (section table.now).members pruning) }
    ensures fault { IfErr result (λ fault. fault ≢ JobFault.NoMemory → PruningFault
        (asked (P.refusals patterns.old) (P.refusals patterns.new) (P.refused_last patterns.new))
        (section table.now) fault) }
    ensures count { OnOk result (P.refusals patterns.new ≡ P.refusals patterns.old) }
{
    table.has_only(&[Field::KeepSender, Field::KeepReceiver])?;
    let sender = rules_of(patterns, table, Field::KeepSender)?;
    let receiver = rules_of(patterns, table, Field::KeepReceiver)?;
    Ok(Pruning { sender, receiver })
}

/// The rules of both sides of a push or pull job.
#[tactic(auto, using(zr_jobwalk::proofs::InnerTables::inner_faults))]
pub fn pruning_of<P: Patterns>(patterns: &mut P, job: &Table<'_>) -> Result<Pruning, JobFault>
    ensures pruning { IfOk result
        (λ pruning. Has (IsTable IsPruning) (field_of (section job.now) Field.Pruning) pruning) }
    ensures fault { IfErr result (λ fault. fault ≢ JobFault.NoMemory
        → HasFault (InTable (PruningFault
        (asked (P.refusals patterns.old) (P.refusals patterns.new) (P.refused_last patterns.new))))
        (section job.now) Field.Pruning fault) }
    ensures count { OnOk result (P.refusals patterns.new ≡ P.refusals patterns.old) }
{
    let table = job.table(Field::Pruning)?;
    read_pruning(patterns, &table)
}

fn read_keep<P: Patterns>(patterns: &mut P, table: &Table<'_>) -> Result<Rows<RuleSpec>, JobFault>
    ensures rules { IfOk result (λ rules. IsKeep (section table.now).members rules) }
    ensures fault { IfErr result (λ fault. fault ≢ JobFault.NoMemory → KeepFault
        (asked (P.refusals patterns.old) (P.refusals patterns.new) (P.refused_last patterns.new))
        (section table.now) fault) }
    ensures count { OnOk result (P.refusals patterns.new ≡ P.refusals patterns.old) }
{
    table.has_only(&[Field::Keep])?;
    rules_of(patterns, table, Field::Keep)
}

/// The rules of a snap job.
#[tactic(auto, using(zr_jobwalk::proofs::InnerTables::inner_faults))]
pub fn keep_of<P: Patterns>(patterns: &mut P, job: &Table<'_>) -> Result<Rows<RuleSpec>, JobFault>
    ensures rules { IfOk result
        (λ rules. Has (IsTable IsKeep) (field_of (section job.now) Field.Pruning) rules) }
    ensures fault { IfErr result (λ fault. fault ≢ JobFault.NoMemory
        → HasFault (InTable (KeepFault
        (asked (P.refusals patterns.old) (P.refusals patterns.new) (P.refused_last patterns.new))))
        (section job.now) Field.Pruning fault) }
    ensures count { OnOk result (P.refusals patterns.new ≡ P.refusals patterns.old) }
{
    let table = job.table(Field::Pruning)?;
    read_keep(patterns, &table)
}
