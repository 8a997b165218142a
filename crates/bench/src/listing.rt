//! A listing of versions, as bench/listing.sh times its reader.

use std::io::{self, Read};
use zr_listing::{ListFault, read_versions};
use zr_names::read_path;

/// Reads a listing of the versions of the dataset `tank` from standard input, and prints how many rows it has.
pub fn read_listing(rt: &HostRuntime) -> io::Result<()> {
    let alloc = rt.alloc();
    let mut bytes = Vec::new(alloc);
    rt.stdin().read_to_end(&mut bytes)?;
    let Ok(path) = read_path(alloc, b"tank") else {
        return println!(rt; "no memory");
    };
    match read_versions(alloc, &path, bytes.as_slice()) {
        Ok(rows) => println!(rt; "{} rows", rows.len()),
        Err(ListFault::Garbled(line)) => println!(rt; "garbled at line {line}"),
        Err(ListFault::NoMemory) => println!(rt; "no memory"),
    }
}
