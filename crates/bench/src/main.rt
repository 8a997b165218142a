//! What the scripts in bench/ time: one program with a word for each benchmark, which reads standard input.
#![tactic(auto)]

mod ends;
mod jobs;
mod ledger;
mod listing;
mod relay;
mod rules;
mod schedule;
mod yaml;

use std::process::ExitCode;
use std::{env, io};

const USAGE: &str = "usage: bench relay|pipe|listing|schedule|ledger|rules|yaml|jobs|toml";

/// Runs a benchmark of streams and tables, where the word names one, and tells whether it does.
fn run_stream(rt: &HostRuntime, word: &str) -> io::Result<bool> {
    match word {
        "relay" => relay::relay_memory(rt)?,
        "pipe" => relay::relay_pipe(rt)?,
        "listing" => listing::read_listing(rt)?,
        "schedule" => schedule::find_minutes(rt)?,
        _ => return Ok(false),
    }
    Ok(true)
}

/// Runs a benchmark of rules and texts, where the word names one, and tells whether it does.
fn run_text(rt: &HostRuntime, word: &str) -> io::Result<bool> {
    match word {
        "ledger" => ledger::turn_ledger(rt)?,
        "rules" => rules::keep_rows(rt)?,
        "yaml" => yaml::read_text(rt)?,
        "jobs" => jobs::read_file(rt)?,
        "toml" => jobs::read_document(rt)?,
        _ => return Ok(false),
    }
    Ok(true)
}

/// Runs the benchmark of the first word, and returns the program's status.
fn run(rt: &HostRuntime) -> io::Result<u8> {
    let word = env::args(rt)?.nth(1);
    let word = word.as_ref().map_or("", |word| word.as_str());
    if run_stream(rt, word)? || run_text(rt, word)? {
        return Ok(0);
    }
    println!(rt; "{USAGE}")?;
    Ok(2)
}

fn main(rt: HostRuntime) -> ExitCode {
    ExitCode::from(run(&rt).unwrap_or(1))
}
