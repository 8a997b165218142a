//! The two ends of a connection.

ghost use Rattle.std.specs.Prelude.{◌≢◌, IfOk, IfErr};
ghost use Rattle.zr_jobwalk.specs.Connecting.{ClientFault, IsClient, IsServer, ServerFault};
ghost use Rattle.zr_jobwalk.specs.Faults.{HasFault, InTable, field_of};
ghost use Rattle.zr_jobwalk.specs.Tables.{section};
ghost use Rattle.zr_jobwalk.specs.Values.{Has, IsTable};

use crate::fault::JobFault;
use crate::field::Field;
use crate::table::Table;
use zr_jobs::Identity;
use zr_names::JobName;

/// How a client connects.
#[derive(Drop)]
pub struct Client {
    pub listener: JobName,
    pub identity: Identity,
}

/// Reads the table `connect` of a push or pull job.
fn read_client(table: &Table<'_>) -> Result<Client, JobFault>
    ensures client { IfOk result (λ client. IsClient (section table.now).members client) }
    ensures fault { IfErr result
        (λ fault. fault ≢ JobFault.NoMemory → ClientFault (section table.now) fault) }
{
    table.has_only(&[Field::Type, Field::ListenerName, Field::ClientIdentity])?;
    table.local(Field::Type)?;
    let listener = table.job_name(Field::ListenerName)?;
    let identity = table.identity(Field::ClientIdentity)?;
    Ok(Client { listener, identity })
}

/// Reads the table `serve` of a sink or source job: the listener that it serves.
fn read_server(table: &Table<'_>) -> Result<JobName, JobFault>
    ensures listener { IfOk result (λ listener. IsServer (section table.now).members listener) }
    ensures fault { IfErr result
        (λ fault. fault ≢ JobFault.NoMemory → ServerFault (section table.now) fault) }
{
    table.has_only(&[Field::Type, Field::ListenerName])?;
    table.local(Field::Type)?;
    table.job_name(Field::ListenerName)
}

/// The client of a push or pull job.
pub fn client_of(job: &Table<'_>) -> Result<Client, JobFault>
    ensures client { IfOk result
        (λ client. Has (IsTable IsClient) (field_of (section job.now) Field.Connect) client) }
    ensures fault { IfErr result (λ fault. fault ≢ JobFault.NoMemory
        → HasFault (InTable ClientFault) (section job.now) Field.Connect fault) }
{
    let table = job.table(Field::Connect)?;
    read_client(&table)
}

/// The listener of a sink or source job.
pub fn listener_of(job: &Table<'_>) -> Result<JobName, JobFault>
    ensures listener { IfOk result
        (λ listener. Has (IsTable IsServer) (field_of (section job.now) Field.Serve) listener) }
    ensures fault { IfErr result (λ fault. fault ≢ JobFault.NoMemory
        → HasFault (InTable ServerFault) (section job.now) Field.Serve fault) }
{
    let table = job.table(Field::Serve)?;
    read_server(&table)
}
