//! The tables of a job: what each gives, or its first fault. A line has the field of a job and what stands in the job, as
//! YAML. Answers were worked out by hand from the documentation of a job file.

use super::shown::{fault_text, node};
use std::alloc::Global;
use tests_lines::{Unread, ask_of, is_wanted, shown, text, told};
use zr_jobwalk::{
    Client, Replication, Table, Taking, client_of, initial_of, listener_of, replication_of,
    taking_of,
};
use zr_names::{Initial, JobName, Protection};
use zr_schedule::When;

const CASES: &str = r"
# the end of a client
connect connect:\n type: local\n listener_name: l\n client_identity: c => l c
connect connect:\n client_identity: c\n listener_name: l\n type: local => l c
connect connect:\n client_identity: a b\n listener_name: ..\n type: local => .. a b
connect \e => missing connect
connect connect: ~ => missing connect
connect connect: 1 => bad value connect
connect connect: local => bad value connect
connect connect: [local] => bad value connect
connect connect:\n type: ~ => missing connect.type
connect connect:\n listener_name: l\n client_identity: c => missing connect.type
connect connect:\n type: local\n client_identity: c => missing connect.listener_name
connect connect:\n type: local\n listener_name: l => missing connect.client_identity
connect connect:\n type: local\n listener_name: l\n client_identity: ~ => missing connect.client_identity
connect connect:\n type: tcp\n listener_name: l\n client_identity: c => bad value connect.type
connect connect:\n type: true\n listener_name: l\n client_identity: c => bad value connect.type
connect connect:\n type: local\n listener_name: a/b\n client_identity: c => bad value connect.listener_name
connect connect:\n type: local\n listener_name: ''\n client_identity: c => bad value connect.listener_name
connect connect:\n type: local\n listener_name: \*a64;\n client_identity: c => aaaaaaaaaaaaaaaaaaaaaaaaaaaaaaaaaaaaaaaaaaaaaaaaaaaaaaaaaaaaaaaa c
connect connect:\n type: local\n listener_name: \*a65;\n client_identity: c => bad value connect.listener_name
connect connect:\n type: local\n listener_name: l\n client_identity: 7 => bad value connect.client_identity
connect connect:\n type: local\n listener_name: l\n client_identity: . => bad value connect.client_identity
connect connect:\n type: local\n listener_name: l\n client_identity: .. => bad value connect.client_identity
# of two faults the first in the order, however they stand
connect connect:\n client_identity: ..\n listener_name: a/b\n type: tcp => bad value connect.type
connect connect:\n client_identity: ..\n listener_name: a/b\n type: local => bad value connect.listener_name
connect connect:\n client_identity: .. => missing connect.type
connect connect:\n client_identity: ..\n type: local => missing connect.listener_name
# a key that is none of the table's fields comes first, the least in byte order; one without a value is none
connect connect:\n port: 1 => unknown field connect.port
connect connect:\n type: tcp\n b: 1\n a: 2 => unknown field connect.a
connect connect:\n type: tcp\n b: 1\n B: 2 => unknown field connect.B
connect connect:\n type: tcp\n ab: 1\n a: 2 => unknown field connect.a
connect connect:\n type: tcp\n port: ~ => bad value connect.type
connect connect:\n a\xc3\xa4b: 1 => unknown field connect.a??b
connect connect:\n ~\x7f: 1 => unknown field connect.~?
connect connect:\n Type: local\n listener_name: l\n client_identity: c => unknown field connect.Type
# the end of a server
serve serve:\n type: local\n listener_name: l => l
serve serve:\n type: local\n listener_name: l\n client_identity: c => unknown field serve.client_identity
serve serve:\n listener_name: l => missing serve.type
serve serve:\n type: local => missing serve.listener_name
serve serve:\n type: tls => bad value serve.type
serve serve:\n type: local\n listener_name: 1 => bad value serve.listener_name
serve connect:\n type: local => missing serve
# replication, with what is left out
replication \e => resumability resumability 1 false
replication replication: ~ => resumability resumability 1 false
replication replication:\n protection:\n  initial: guarantee_nothing => nothing resumability 1 false
replication replication:\n protection:\n  incremental: guarantee_incremental => resumability incremental 1 false
replication replication:\n protection:\n  initial: guarantee_resumability\n  incremental: guarantee_nothing => resumability nothing 1 false
replication replication:\n concurrency:\n  steps: 16 => resumability resumability 16 false
replication replication:\n concurrency:\n  steps: 1 => resumability resumability 1 false
replication replication:\n concurrency:\n  steps: ~ => resumability resumability 1 false
replication replication:\n migrate_old_cursor: true => resumability resumability 1 true
replication replication:\n migrate_old_cursor: false\n concurrency:\n  steps: 2\n protection:\n  incremental: guarantee_incremental\n  initial: guarantee_incremental => incremental incremental 2 false
replication replication: true => bad value replication
replication replication:\n protection: guarantee_nothing => bad value replication.protection
replication replication:\n protection:\n  initial: nothing => bad value replication.protection.initial
replication replication:\n protection:\n  initial: 1 => bad value replication.protection.initial
replication replication:\n protection:\n  incremental: guarantee_Nothing => bad value replication.protection.incremental
replication replication:\n protection:\n  later: guarantee_nothing => unknown field replication.protection.later
replication replication:\n protection:\n  initial: x\n  incremental: x => bad value replication.protection.initial
replication replication:\n concurrency: 2 => bad value replication.concurrency
replication replication:\n concurrency:\n  steps: 0 => bad value replication.concurrency.steps
replication replication:\n concurrency:\n  steps: 17 => bad value replication.concurrency.steps
replication replication:\n concurrency:\n  steps: '2' => bad value replication.concurrency.steps
replication replication:\n concurrency:\n  size: 2 => unknown field replication.concurrency.size
replication replication:\n migrate_old_cursor: 1 => bad value replication.migrate_old_cursor
replication replication:\n migrate_old_cursor: 'true' => bad value replication.migrate_old_cursor
replication replication:\n bandwidth: 1\n protection: 1 => unknown field replication.bandwidth
replication replication:\n migrate_old_cursor: 1\n concurrency: 1\n protection: 1 => bad value replication.protection
replication replication:\n migrate_old_cursor: 1\n concurrency: 1 => bad value replication.concurrency
# conflicts
conflicts \e => most recent
conflicts conflict_resolution:\n initial_replication: ~\n x: ~ => most recent
conflicts conflict_resolution:\n initial_replication: most_recent => most recent
conflicts conflict_resolution:\n initial_replication: all => all
conflicts conflict_resolution:\n initial_replication: fail => fail
conflicts conflict_resolution:\n initial_replication: none => bad value conflict_resolution.initial_replication
conflicts conflict_resolution:\n initial_replication: false => bad value conflict_resolution.initial_replication
conflicts conflict_resolution:\n later_replication: all => unknown field conflict_resolution.later_replication
conflicts conflict_resolution: all => bad value conflict_resolution
# snapshotting; its type says which fields it has, and comes before those that it has not
snapshotting snapshotting:\n type: manual => by hand
snapshotting snapshotting:\n type: periodic\n prefix: z_\n interval: 10m => z_ every 600000
snapshotting snapshotting:\n interval: 1 d\n type: periodic\n prefix: z_ => z_ every 86400000
snapshotting snapshotting:\n type: periodic\n prefix: z_\n interval: 3153600000s => z_ every 3153600000000
snapshotting snapshotting:\n type: cron\n prefix: z_\n cron: 0 * * * * => z_ cron
snapshotting snapshotting: ~ => missing snapshotting
snapshotting snapshotting: manual => bad value snapshotting
snapshotting snapshotting:\n prefix: z_ => missing snapshotting.type
snapshotting snapshotting:\n type: hourly\n prefix: 1 => bad value snapshotting.type
snapshotting snapshotting:\n type: hourly\n x: 1 => bad value snapshotting.type
snapshotting snapshotting:\n type: manual\n prefix: z_ => unknown field snapshotting.prefix
snapshotting snapshotting:\n type: periodic\n prefix: z_\n interval: 1h\n cron: 0 * * * * => unknown field snapshotting.cron
snapshotting snapshotting:\n type: cron\n prefix: z_\n interval: 1h\n cron: 0 * * * * => unknown field snapshotting.interval
snapshotting snapshotting:\n type: periodic\n interval: 1h => missing snapshotting.prefix
snapshotting snapshotting:\n type: periodic\n prefix: z_ => missing snapshotting.interval
snapshotting snapshotting:\n type: cron\n prefix: z_ => missing snapshotting.cron
snapshotting snapshotting:\n type: periodic\n prefix: z@\n interval: 0h => bad value snapshotting.prefix
snapshotting snapshotting:\n type: periodic\n prefix: z_\n interval: 0h => bad value snapshotting.interval
snapshotting snapshotting:\n type: periodic\n prefix: z_\n interval: 600 => bad value snapshotting.interval
snapshotting snapshotting:\n type: periodic\n prefix: z_\n interval: manual => bad value snapshotting.interval
snapshotting snapshotting:\n type: periodic\n prefix: z_\n interval: 3153600001s => bad value snapshotting.interval
snapshotting snapshotting:\n type: cron\n prefix: z_\n cron: 60 * * * * => bad value snapshotting.cron
snapshotting snapshotting:\n type: cron\n prefix: z_\n cron: hourly => bad value snapshotting.cron
# what is no map has no keys
connect - a => missing connect
connect 1 => missing connect
replication - a => resumability resumability 1 false";

pub(super) fn protection_name(protection: Protection) -> &'static str {
    match protection {
        Protection::Resumability => "resumability",
        Protection::Incremental => "incremental",
        Protection::Nothing => "nothing",
    }
}

pub(super) fn initial_name(initial: Initial) -> &'static str {
    match initial {
        Initial::MostRecent => "most recent",
        Initial::All => "all",
        Initial::Fail => "fail",
    }
}

fn client_text(alloc: Global, client: &Client) -> Result<String, Unread> {
    let listener = shown(client.listener.as_bytes());
    let identity = shown(client.identity.as_bytes());
    Ok(format!(in alloc; "{listener} {identity}")?)
}

fn replication_text(alloc: Global, replication: Replication) -> Result<String, Unread> {
    let first = protection_name(replication.guarantees.first);
    let later = protection_name(replication.guarantees.later);
    let (steps, migrate) = (replication.steps, replication.migrate);
    Ok(format!(in alloc; "{first} {later} {steps} {migrate}")?)
}

fn taking_text(alloc: Global, taking: &Taking) -> Result<String, Unread> {
    let prefix = match &taking.prefix {
        Some(prefix) => shown(prefix.as_bytes()),
        None => "by hand",
    };
    match taking.when {
        When::Never => text(alloc, prefix),
        When::Every(ms) => Ok(format!(in alloc; "{prefix} every {ms}")?),
        When::Cron(_) => Ok(format!(in alloc; "{prefix} cron")?),
    }
}

fn connected(alloc: Global, job: &Table<'_>) -> Result<String, Unread> {
    match client_of(job) {
        Ok(client) => client_text(alloc, &client),
        Err(fault) => fault_text(alloc, &fault),
    }
}

fn served(alloc: Global, job: &Table<'_>) -> Result<String, Unread> {
    match listener_of(job) {
        Ok(listener) => text(alloc, shown(listener.as_bytes())),
        Err(fault) => fault_text(alloc, &fault),
    }
}

fn replicated(alloc: Global, job: &Table<'_>) -> Result<String, Unread> {
    match replication_of(job) {
        Ok(replication) => replication_text(alloc, replication),
        Err(fault) => fault_text(alloc, &fault),
    }
}

fn resolved(alloc: Global, job: &Table<'_>) -> Result<String, Unread> {
    match initial_of(job) {
        Ok(first) => text(alloc, initial_name(first)),
        Err(fault) => fault_text(alloc, &fault),
    }
}

fn taken(alloc: Global, job: &Table<'_>) -> Result<String, Unread> {
    match taking_of(job) {
        Ok(taking) => taking_text(alloc, &taking),
        Err(fault) => fault_text(alloc, &fault),
    }
}

fn said(alloc: Global, ask: &str) -> Result<String, Unread> {
    let (word, yaml) = ask.split_once(' ').ok_or(Unread)?;
    let node = node(alloc, yaml)?;
    let job = Table::root(alloc, &node);
    match word {
        "connect" => connected(alloc, &job),
        "serve" => served(alloc, &job),
        "replication" => replicated(alloc, &job),
        "conflicts" => resolved(alloc, &job),
        "snapshotting" => taken(alloc, &job),
        _ => Err(Unread),
    }
}

#[test]
fn tables(rt: HostRuntime) {
    for line in CASES.lines() {
        if let Some(ask) = ask_of(line) {
            let said = said(rt.alloc(), ask);
            assert!(rt; is_wanted(line, &said), "{line}: {}", told(&said));
        }
    }
}
