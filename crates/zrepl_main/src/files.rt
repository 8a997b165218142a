//! The system's files, opened so that nothing is waited for.

ghost use Rattle.std.specs.Prelude.{None};

use std::alloc::Global;
use std::fs::File;
use std::io::ErrorKind;
use std::{fs, io};
use zr_names::Bytes;
use zr_pipe::{Reading, read_up_to};
use zr_top::{Files, ReadFault};

/// Files of the system.
#[derive(Drop)]
pub struct RealFiles<F> {
    files: F,
    alloc: Global,
    faults: u64,
    failed: Option<Bytes>,
}

impl<F: fs::Files> RealFiles<F> {
    pub fn new(files: F, alloc: Global) -> RealFiles<F> {
        RealFiles {
            files,
            alloc,
            faults: 0,
            failed: None,
        }
    }
}

/// Whether a fault is want of memory.
fn reading_of(fault: &io::Error) -> Reading {
    if fault.kind() == ErrorKind::OutOfMemory {
        Reading::NoMemory
    } else {
        Reading::Failed
    }
}

/// Opens a file, or what a link leads to. All else is refused at once: a FIFO would be waited for, and a device has no end.
fn open<F: fs::Files>(files: &F, path: &str) -> Result<F::File, Reading> {
    match fs::metadata(files, path) {
        Ok(found) if found.is_file() => {}
        Ok(_) => return Err(Reading::Failed),
        Err(fault) => return Err(reading_of(&fault)),
    }
    match File::open(files, path) {
        Ok(file) => Ok(file),
        Err(fault) => Err(reading_of(&fault)),
    }
}

/// Reads a file to its end, or its first bytes.
fn read_file<F: fs::Files>(
    files: &F,
    alloc: Global,
    path: &str,
    most: usize,
) -> Result<Vec<u8>, Reading> {
    let mut file = open(files, path)?;
    let mut bytes = Vec::new(alloc);
    match read_up_to(alloc, &mut file, &mut bytes, most) {
        Reading::Whole | Reading::TooLong => Ok(bytes),
        fault => Err(fault),
    }
}

impl<F: fs::Files> Files for RealFiles<F> {
    ghost faults = { λ f. f.faults };

    ghost failed = { λ f. f.failed };

    ghost asked = { λ _. None };

    ghost content = { λ _ _. None };

    fn read(&mut self, path: &str, limit: usize) -> Result<Vec<u8>, ReadFault> {
        match read_file(&self.files, self.alloc, path, limit.saturating_add(1)) {
            Ok(bytes) => Ok(bytes),
            Err(Reading::NoMemory) => Err(ReadFault::NoMemory),
            Err(_) => match Bytes::from_slice(self.alloc, path.as_bytes()) {
                Ok(path) => {
                    self.failed = Some(path);
                    self.faults = self.faults.saturating_add(1);
                    Err(ReadFault::Failed)
                }
                Err(_) => Err(ReadFault::NoMemory),
            },
        }
    }
}
