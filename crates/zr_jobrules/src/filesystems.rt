//! Which filesystems a job works on. The table has patterns for keys.

ghost use Rattle.std.specs.Prelude.{◌≡◌, ◌≢◌, ◌++◌, IfErr, IfOk, map};
ghost use Rattle.zr_jobwalk.specs.Faults.{HasFault, InTable, field_of};
ghost use Rattle.zr_jobwalk.specs.Fields.{shown};
ghost use Rattle.zr_jobwalk.specs.Lines.{pair_of};
ghost use Rattle.zr_jobwalk.specs.Tables.{section};
ghost use Rattle.zr_jobwalk.specs.Values.{Has, IsTable};
ghost use Rattle.zr_jobrules.specs.Filesystems.{AreEntries, BadLine, FilterFault, FirstLine, IsEntry, IsFilter, ReadsEntry};

use std::alloc::Global;
use zr_filter::{Filter, FilterEntry, read_pattern};
use zr_jobwalk::{Field, JobFault, Line, Many, Table, Unread};
use zr_names::{NameFault, Rows};

/// How many patterns `filesystems` may have.
pub const MAX_FILTERS: usize = 256;

#[tactic(auto, using(crate::proofs::Entries::no_flag, crate::proofs::Entries::no_entry))]
fn entry_of(alloc: Global, line: &Line<'_>) -> Result<FilterEntry, Unread>
    ensures { ReadsEntry (pair_of line.now) result }
{
    let Some(allow) = line.flag() else {
        return Err(Unread::Bad);
    };
    match read_pattern(alloc, line.key, allow) {
        Ok(entry) => Ok(entry),
        Err(NameFault::NoMemory) => Err(Unread::NoMemory),
        Err(_) => Err(Unread::Bad),
    }
}

/// Why a line was not taken.
fn unread(table: &Table<'_>, key: &[u8], unread: Unread) -> JobFault
    ensures bad { result ≢ JobFault.NoMemory → unread ≡ Unread.Bad }
    ensures told { result ≢ JobFault.NoMemory
        → result ≡ JobFault.BadValue ((section table.now).front ++ shown key.now) }
{
    match unread {
        Unread::Bad => table.bad_key(key),
        Unread::NoMemory => JobFault::NoMemory,
    }
}

fn entry(table: &Table<'_>, line: &Line<'_>) -> Result<FilterEntry, JobFault>
    ensures entry { IfOk result (λ entry. IsEntry (pair_of line.now) entry) }
    ensures fault { IfErr result (λ fault. fault ≢ JobFault.NoMemory
        → BadLine (section table.now).front (pair_of line.now) fault) }
{
    match entry_of(table.alloc(), line) {
        Ok(entry) => Ok(entry),
        Err(fault) => Err(unread(table, line.key, fault)),
    }
}

fn entries(table: &Table<'_>, lines: &[Line<'_>]) -> Result<Rows<FilterEntry>, JobFault>
    ensures entries { IfOk result (λ entries. AreEntries (map pair_of lines.now) entries) }
    ensures fault { IfErr result (λ fault. fault ≢ JobFault.NoMemory
        → FirstLine (section table.now).front (map pair_of lines.now) fault) }
{
    let mut entries = Rows::new(table.alloc());
    for line in lines {
        match entry(table, line) {
            Ok(entry) => entries.push(entry)?,
            Err(fault) => return Err(fault),
        }
    }
    Ok(entries)
}

/// Reads the table `filesystems`.
fn read_filter(table: &Table<'_>) -> Result<Filter, JobFault>
    ensures filter { IfOk result (λ filter. IsFilter (section table.now).members filter) }
    ensures fault { IfErr result
        (λ fault. fault ≢ JobFault.NoMemory → FilterFault (section table.now) fault) }
{
    let lines = table.lines()?;
    if lines.len() > MAX_FILTERS {
        return Err(JobFault::TooMany(Many::Filters));
    }
    let entries = entries(table, lines.as_slice())?;
    Ok(Filter { entries })
}

/// Which filesystems a push, source or snap job works on.
pub fn filter_of(job: &Table<'_>) -> Result<Filter, JobFault>
    ensures filter { IfOk result
        (λ filter. Has (IsTable IsFilter) (field_of (section job.now) Field.Filesystems) filter) }
    ensures fault { IfErr result (λ fault. fault ≢ JobFault.NoMemory
        → HasFault (InTable FilterFault) (section job.now) Field.Filesystems fault) }
{
    let table = job.table(Field::Filesystems)?;
    read_filter(&table)
}
