//! Cases stand in blocks, with an empty line between them, as `tests_pools` reads them. A test writes each block anew with what
//! came, and compares the two.

mod known;
mod permit;
mod plan;
mod replication;

use std::process::Abort;
use tests_pools::difference;

/// The block came out as it stands.
fn is<R: Abort>(rt: &R, block: &str, came: Option<String>) {
    let (line, said) = difference(block, &came);
    assert!(rt; said == line, "{line}\ncame out as\n{said}");
}
