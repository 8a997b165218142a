//! A job file, as bench/jobs.sh times the walk over its tree, beside the reader of its format alone.

use std::alloc::Global;
use std::io::{self, Read};
use toml::{Table, table_from_slice};
use zr_jobfile::node_of;
use zr_jobtree::walk;
use zr_rules::RegexPatterns;

fn jobs_in(alloc: Global, document: &Table) -> Option<usize> {
    let node = node_of(alloc, document).ok()?;
    let mut patterns = RegexPatterns::new(alloc);
    match walk(alloc, &mut patterns, &node) {
        Ok(set) => Some(set.jobs().len()),
        Err(_) => None,
    }
}

/// Reads a job file from standard input, and prints how many jobs it has.
pub fn read_file(rt: &HostRuntime) -> io::Result<()> {
    let alloc = rt.alloc();
    let mut bytes = Vec::new(alloc);
    rt.stdin().read_to_end(&mut bytes)?;
    let Ok(document) = table_from_slice(alloc, bytes.as_slice()) else {
        return println!(rt; "no document");
    };
    match jobs_in(alloc, &document) {
        Some(number) => println!(rt; "{number} jobs"),
        None => println!(rt; "no job file"),
    }
}

/// Reads a TOML document from standard input, and prints how many keys its root has.
pub fn read_document(rt: &HostRuntime) -> io::Result<()> {
    let alloc = rt.alloc();
    let mut bytes = Vec::new(alloc);
    rt.stdin().read_to_end(&mut bytes)?;
    match table_from_slice(alloc, bytes.as_slice()) {
        Ok(document) => println!(rt; "{} keys", document.len()),
        Err(_) => println!(rt; "no document"),
    }
}
