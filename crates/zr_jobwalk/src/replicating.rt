//! How a job replicates.

ghost use Rattle.std.specs.Prelude.{◌≢◌, false, IfOk, IfErr};
ghost use Rattle.zr_jobwalk.specs.Faults.{InTable, IsBad, MayFault, field_of};
ghost use Rattle.zr_jobwalk.specs.Replicating.{AreGuarantees, ConcurrencyFault, GuaranteesFault, IsConcurrency};
ghost use Rattle.zr_jobwalk.specs.Replicating.{IsReplication, IsResolution, ReplicationFault, ResolutionFault};
ghost use Rattle.zr_jobwalk.specs.Replicating.{default_guarantees, default_replication};
ghost use Rattle.zr_jobwalk.specs.Tables.{section};
ghost use Rattle.zr_jobwalk.specs.Texts.{IsInitial, IsProtection};
ghost use Rattle.zr_jobwalk.specs.Values.{HasOr, IsFlag, IsNumber, IsTable, IsText};
ghost use Rattle.zr_jobset.specs.declared.fields.TheConstants.{MAX_STEPS as MOST_STEPS};

use crate::fault::JobFault;
use crate::field::Field;
use crate::table::Table;
use crate::texts;
use zr_jobset::MAX_STEPS;
use zr_names::{Initial, Protection};

/// Where `protection` is left out.
const RESUMABLE: Guarantees = Guarantees {
    first: Protection::Resumability,
    later: Protection::Resumability,
};

/// What is guaranteed of replications.
#[derive(Clone, Copy)]
pub struct Guarantees {
    /// Of the first replication of a filesystem.
    pub first: Protection,
    /// Of each later one.
    pub later: Protection,
}

/// The table `replication` of a push or pull job.
#[derive(Clone, Copy)]
pub struct Replication {
    pub guarantees: Guarantees,
    /// How many steps may run at once.
    pub steps: u32,
    /// Whether the job takes over the replication cursor of earlier versions.
    pub migrate: bool,
}

/// What a field guarantees; resumability, where it is left out.
fn guarantee(table: &Table<'_>, field: Field) -> Result<Protection, JobFault>
    ensures guarantee { IfOk result
        (λ p. HasOr Protection.Resumability (IsText IsProtection)
        (field_of (section table.now) field) p) }
    ensures fault { IfErr result (λ fault. fault ≢ JobFault.NoMemory
        → MayFault (IsBad (IsText IsProtection)) (section table.now) field fault) }
{
    if table.lacks(field) {
        return Ok(Protection::Resumability);
    }
    let text = table.text(field)?;
    match texts::guarantee(text) {
        Ok(protection) => Ok(protection),
        Err(unread) => Err(table.unread(field, unread)),
    }
}

/// Which snapshots are replicated first; the most recent one, where it is left out.
fn replicated_first(table: &Table<'_>, field: Field) -> Result<Initial, JobFault>
    ensures first { IfOk result
        (λ first. HasOr Initial.MostRecent (IsText IsInitial)
        (field_of (section table.now) field) first) }
    ensures fault { IfErr result (λ fault. fault ≢ JobFault.NoMemory
        → MayFault (IsBad (IsText IsInitial)) (section table.now) field fault) }
{
    if table.lacks(field) {
        return Ok(Initial::MostRecent);
    }
    let text = table.text(field)?;
    match texts::replicated_first(text) {
        Ok(first) => Ok(first),
        Err(unread) => Err(table.unread(field, unread)),
    }
}

fn steps(table: &Table<'_>, field: Field) -> Result<u32, JobFault>
    ensures steps { IfOk result
        (λ n. HasOr 1 (IsNumber 1 MOST_STEPS) (field_of (section table.now) field) n) }
    ensures fault { IfErr result (λ fault. fault ≢ JobFault.NoMemory
        → MayFault (IsBad (IsNumber 1 MOST_STEPS)) (section table.now) field fault) }
{
    if table.lacks(field) {
        return Ok(1);
    }
    table.number(field, 1, MAX_STEPS)
}

/// Reads the table `protection`.
fn read_guarantees(table: &Table<'_>) -> Result<Guarantees, JobFault>
    ensures guarantees { IfOk result
        (λ guarantees. AreGuarantees (section table.now).members guarantees) }
    ensures fault { IfErr result
        (λ fault. fault ≢ JobFault.NoMemory → GuaranteesFault (section table.now) fault) }
{
    table.has_only(&[Field::Initial, Field::Incremental])?;
    let first = guarantee(table, Field::Initial)?;
    let later = guarantee(table, Field::Incremental)?;
    Ok(Guarantees { first, later })
}

/// Reads the table `concurrency`.
fn read_concurrency(table: &Table<'_>) -> Result<u32, JobFault>
    ensures steps { IfOk result (λ steps. IsConcurrency (section table.now).members steps) }
    ensures fault { IfErr result
        (λ fault. fault ≢ JobFault.NoMemory → ConcurrencyFault (section table.now) fault) }
{
    table.has_only(&[Field::Steps])?;
    steps(table, Field::Steps)
}

fn protection(replication: &Table<'_>) -> Result<Guarantees, JobFault>
    ensures guarantees { IfOk result (λ guarantees. HasOr default_guarantees
        (IsTable AreGuarantees) (field_of (section replication.now) Field.Protection) guarantees) }
    ensures fault { IfErr result (λ fault. fault ≢ JobFault.NoMemory
        → MayFault (InTable GuaranteesFault) (section replication.now) Field.Protection fault) }
{
    if replication.lacks(Field::Protection) {
        return Ok(RESUMABLE);
    }
    let table = replication.table(Field::Protection)?;
    read_guarantees(&table)
}

fn concurrency(replication: &Table<'_>) -> Result<u32, JobFault>
    ensures steps { IfOk result (λ steps. HasOr 1
        (IsTable IsConcurrency) (field_of (section replication.now) Field.Concurrency) steps) }
    ensures fault { IfErr result (λ fault. fault ≢ JobFault.NoMemory
        → MayFault (InTable ConcurrencyFault) (section replication.now) Field.Concurrency fault) }
{
    if replication.lacks(Field::Concurrency) {
        return Ok(1);
    }
    let table = replication.table(Field::Concurrency)?;
    read_concurrency(&table)
}

fn migrates(replication: &Table<'_>) -> Result<bool, JobFault>
    ensures migrate { IfOk result (λ migrate. HasOr false
        IsFlag (field_of (section replication.now) Field.MigrateOldCursor) migrate) }
    ensures fault { IfErr result (λ fault. fault ≢ JobFault.NoMemory
        → MayFault (IsBad IsFlag) (section replication.now) Field.MigrateOldCursor fault) }
{
    if replication.lacks(Field::MigrateOldCursor) {
        return Ok(false);
    }
    replication.flag(Field::MigrateOldCursor)
}

/// Reads the table `replication`.
fn read_replication(table: &Table<'_>) -> Result<Replication, JobFault>
    ensures replication { IfOk result
        (λ replication. IsReplication (section table.now).members replication) }
    ensures fault { IfErr result
        (λ fault. fault ≢ JobFault.NoMemory → ReplicationFault (section table.now) fault) }
{
    table.has_only(&[
        Field::Protection,
        Field::Concurrency,
        Field::MigrateOldCursor,
    ])?;
    let guarantees = protection(table)?;
    let steps = concurrency(table)?;
    let migrate = migrates(table)?;
    Ok(Replication {
        guarantees,
        steps,
        migrate,
    })
}

/// Reads the table `conflict_resolution`.
fn read_resolution(table: &Table<'_>) -> Result<Initial, JobFault>
    ensures first { IfOk result (λ first. IsResolution (section table.now).members first) }
    ensures fault { IfErr result
        (λ fault. fault ≢ JobFault.NoMemory → ResolutionFault (section table.now) fault) }
{
    table.has_only(&[Field::InitialReplication])?;
    replicated_first(table, Field::InitialReplication)
}

/// How a push or pull job replicates.
pub fn replication_of(job: &Table<'_>) -> Result<Replication, JobFault>
    ensures replication { IfOk result (λ replication. HasOr default_replication
        (IsTable IsReplication) (field_of (section job.now) Field.Replication) replication) }
    ensures fault { IfErr result (λ fault. fault ≢ JobFault.NoMemory
        → MayFault (InTable ReplicationFault) (section job.now) Field.Replication fault) }
{
    if job.lacks(Field::Replication) {
        return Ok(Replication {
            guarantees: RESUMABLE,
            steps: 1,
            migrate: false,
        });
    }
    let table = job.table(Field::Replication)?;
    read_replication(&table)
}

/// Which snapshots a push or pull job replicates first.
pub fn initial_of(job: &Table<'_>) -> Result<Initial, JobFault>
    ensures first { IfOk result (λ first. HasOr Initial.MostRecent
        (IsTable IsResolution) (field_of (section job.now) Field.ConflictResolution) first) }
    ensures fault { IfErr result (λ fault. fault ≢ JobFault.NoMemory
        → MayFault (InTable ResolutionFault) (section job.now) Field.ConflictResolution fault) }
{
    if job.lacks(Field::ConflictResolution) {
        return Ok(Initial::MostRecent);
    }
    let table = job.table(Field::ConflictResolution)?;
    read_resolution(&table)
}
