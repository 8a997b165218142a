//! When snapshots are taken.

ghost use Rattle.std.specs.Prelude.{◌≢◌, IfOk, IfErr};
ghost use Rattle.zr_jobwalk.specs.Faults.{HasFault, InTable, IsBad, field_of};
ghost use Rattle.zr_jobwalk.specs.Snapshotting.{IsOccasion, IsTakenOn, IsTaking, OccasionFault, TakingFault};
ghost use Rattle.zr_jobwalk.specs.Tables.{section};
ghost use Rattle.zr_jobwalk.specs.Texts.{ReadsText};
ghost use Rattle.zr_jobwalk.specs.Values.{Has, IsTable, IsText};

use crate::fault::JobFault;
use crate::field::Field;
use crate::table::Table;
use crate::texts::Unread;
use zr_names::Prefix;
use zr_schedule::When;

/// The types of snapshotting.
#[derive(Clone, Copy)]
pub enum Occasion {
    Periodic,
    Cron,
    Manual,
}

/// The table `snapshotting` of a push, source or snap job. Snapshots that are taken by hand have no prefix.
#[derive(Drop)]
pub struct Taking {
    pub when: When,
    pub prefix: Option<Prefix>,
}

impl Occasion {
    ghost use Rattle.std.specs.Prelude.{◌≡◌};
    ghost use Rattle.zr_jobwalk.specs.Snapshotting.{fields_of};

    /// The fields that the table has.
    fn fields(self) -> &'static [Field]
        ensures { result.now ≡ fields_of self }
    {
        match self {
            Occasion::Periodic => &[Field::Type, Field::Prefix, Field::Interval],
            Occasion::Cron => &[Field::Type, Field::Prefix, Field::Cron],
            Occasion::Manual => &[Field::Type],
        }
    }
}

fn occasion_in(text: &[u8]) -> Result<Occasion, Unread>
    ensures { ReadsText IsOccasion text.now result }
{
    if text == b"periodic".as_slice() {
        Ok(Occasion::Periodic)
    } else if text == b"cron".as_slice() {
        Ok(Occasion::Cron)
    } else if text == b"manual".as_slice() {
        Ok(Occasion::Manual)
    } else {
        Err(Unread::Bad)
    }
}

fn type_of(table: &Table<'_>) -> Result<Occasion, JobFault>
    ensures typed { IfOk result (λ occasion. Has (IsText IsOccasion)
        (field_of (section table.now) Field.Type) occasion) }
    ensures fault { IfErr result (λ fault. fault ≢ JobFault.NoMemory
        → HasFault (IsBad (IsText IsOccasion)) (section table.now) Field.Type fault) }
{
    let text = table.text(Field::Type)?;
    match occasion_in(text) {
        Ok(occasion) => Ok(occasion),
        Err(unread) => Err(table.unread(Field::Type, unread)),
    }
}

/// Reads the fields that a type of snapshotting has.
fn taken_on(table: &Table<'_>, occasion: Occasion) -> Result<Taking, JobFault>
    ensures taken { IfOk result (λ taking. IsTakenOn occasion (section table.now).members taking) }
    ensures fault { IfErr result
        (λ fault. fault ≢ JobFault.NoMemory → OccasionFault occasion (section table.now) fault) }
{
    match occasion {
        Occasion::Periodic => {
            let prefix = table.prefix(Field::Prefix)?;
            let when = table.every(Field::Interval)?;
            Ok(Taking { when, prefix })
        }
        Occasion::Cron => {
            let prefix = table.prefix(Field::Prefix)?;
            let when = table.minutes(Field::Cron)?;
            Ok(Taking { when, prefix })
        }
        Occasion::Manual => Ok(Taking {
            when: When::Never,
            prefix: None,
        }),
    }
}

/// Reads the table `snapshotting`. Its type says which fields it has.
fn read_snapshotting(table: &Table<'_>) -> Result<Taking, JobFault>
    ensures taking { IfOk result (λ taking. IsTaking (section table.now).members taking) }
    ensures fault { IfErr result
        (λ fault. fault ≢ JobFault.NoMemory → TakingFault (section table.now) fault) }
{
    let occasion = type_of(table)?;
    table.has_only(occasion.fields())?;
    taken_on(table, occasion)
}

/// When a push, source or snap job takes snapshots.
pub fn taking_of(job: &Table<'_>) -> Result<Taking, JobFault>
    ensures taking { IfOk result (λ taking. Has (IsTable IsTaking)
        (field_of (section job.now) Field.Snapshotting) taking) }
    ensures fault { IfErr result (λ fault. fault ≢ JobFault.NoMemory
        → HasFault (InTable TakingFault) (section job.now) Field.Snapshotting fault) }
{
    let table = job.table(Field::Snapshotting)?;
    read_snapshotting(&table)
}
