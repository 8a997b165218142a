//! What job files are read from, and one job file read to its end.

ghost use Rattle.std.specs.Prelude.{◌≡◌, ◌≢◌, ◌≤◌, ◌+◌, ◌++◌, ◌∷◌, [], ℕ, List, Option, Some, IfOk, OnOk, OnErr, find, take};
ghost use Rattle.std.specs.Option.{option_copied};
ghost use Rattle.zr_base.specs.Count.{Rose};
ghost use Rattle.zr_top.specs.Stored.{Asked, AsksAtMost, is_stored_at};

use std::alloc::{AllocError, Global};
use std::marker::Model;
use zr_names::Bytes;

/// Why a file gave no bytes.
#[derive(Clone, Copy, PartialEq, Eq)]
pub enum ReadFault {
    Failed,
    NoMemory,
}

/// Reads whole files.
pub trait Files {
    /// How many reads failed; it stays at `u64::MAX` once there.
    ghost faults: { Self → ℕ };

    /// The path that could not be read last.
    ghost failed: { Self → Option (List ℕ) };

    /// The paths that were asked for, in order, where they are told.
    ghost asked: { Self → Asked };

    /// The bytes of the file at a path, where they are told and the file is there.
    ghost content: { Self → List ℕ → Option (List ℕ) };

    /// The whole file, or its first `limit + 1` bytes.
    fn read(&mut self, path: &str, limit: usize) -> Result<Vec<u8>, ReadFault>
        ensures bytes { IfOk result (λ bytes. (whole : List ℕ) →
            content self.old path.now ≡ Some whole → bytes.items ≡ take (limit + 1) whole) }
        ensures content { (other : List ℕ) → content self.new other ≡ content self.old other }
        ensures asked { AsksAtMost (asked self.old) (asked self.new) path.now }
        ensures failed_rose { result ≡ Err ReadFault.Failed
            → Rose (faults self.old) (faults self.new) }
        ensures failed_path { result ≡ Err ReadFault.Failed → failed self.new ≡ Some path.now }
        ensures later { faults self.old ≤ faults self.new }
        ensures kept_count { result ≢ Err ReadFault.Failed → faults self.new ≡ faults self.old }
        ensures kept_path { result ≢ Err ReadFault.Failed → failed self.new ≡ failed self.old };
}

/// A file of `MemFiles`.
#[derive(Drop)]
pub struct StoredFile {
    pub path: Bytes,
    pub bytes: Bytes,
}

impl StoredFile {
    pub fn new(alloc: Global, path: &str, bytes: &[u8]) -> Result<StoredFile, AllocError>
        ensures { IfOk result (λ file. (file.path ≡ path.now) × (file.bytes ≡ bytes.now)) }
    {
        Ok(StoredFile {
            path: Bytes::from_slice(alloc, path.as_bytes())?,
            bytes: Bytes::from_slice(alloc, bytes)?,
        })
    }
}

/// Files in memory.
#[derive(Drop)]
pub struct MemFiles {
    alloc: Global,
    files: Vec<StoredFile>,
    failing: Vec<u64>,
    asked: Vec<Bytes>,
    calls: u64,
    faults: u64,
    failed: Option<Bytes>,
}

impl Model for MemFiles {
    ghost use Rattle.zr_top.specs.Stored.{FilesInMemory};

    ghost Value = { FilesInMemory };

    ghost view = { λ m. record {
      files = m.files.items;
      failing = m.failing.items;
      asked = m.asked.items;
      calls = m.calls;
      faults = m.faults;
      failed = m.failed;
    } };
}

impl MemFiles {
    ghost use Rattle.std.specs.Prelude.{◌≡◌, [], None};
    ghost use Rattle.std.specs.Option.{option_copied};

    /// Files whose n-th read, counted from 1, fails where `failing` names n, and so does that of a file
    /// that is not there.
    pub fn new(alloc: Global, files: Vec<StoredFile>, failing: Vec<u64>) -> MemFiles
        ensures { result ≡ record {
          files = files.items;
          failing = failing.items;
          asked = [];
          calls = 0;
          faults = 0;
          failed = None;
        } }
    {
        MemFiles {
            alloc,
            files,
            failing,
            asked: Vec::new(alloc),
            calls: 0,
            faults: 0,
            failed: None,
        }
    }

    /// The path that could not be read last.
    pub fn failed(&self) -> Option<&Bytes>
        ensures { option_copied result ≡ self.now.failed }
    {
        self.failed.as_ref()
    }
}

/// The file at this path.
fn stored<'a>(files: &'a [StoredFile], path: &str) -> Option<&'a StoredFile>
    ensures { option_copied result ≡ find (is_stored_at path.now) files.now }
{
    files
        .iter()
        .find(|file| file.path.as_slice() == path.as_bytes())
}

/// The first bytes of a file.
fn front(alloc: Global, bytes: &[u8], limit: usize) -> Result<Vec<u8>, AllocError>
    ensures { IfOk result (λ front. front.items ≡ take (limit + 1) bytes.now) }
{
    if limit < bytes.len() {
        Vec::from_slice(alloc, &bytes[..limit + 1])
    } else {
        Vec::from_slice(alloc, bytes)
    }
}

/// Keeps the path of a file that is asked for.
fn note(alloc: Global, asked: &mut Vec<Bytes>, path: &str) -> Result<(), AllocError>
    ensures noted { OnOk result (asked.new.items ≡ asked.old.items ++ path.now ∷ []) }
    ensures kept { OnErr result (asked.new.items ≡ asked.old.items) }
{
    asked.push(Bytes::from_slice(alloc, path.as_bytes())?)?;
    Ok(())
}

impl Files for MemFiles {
    ghost use Rattle.std.specs.Prelude.{Some};
    ghost use Rattle.zr_top.specs.Stored.{content_of};

    ghost faults = { λ m. m.faults };

    ghost failed = { λ m. m.failed };

    ghost asked = { λ m. Some m.asked };

    ghost content = { λ m path. content_of m.files path };

    fn read(&mut self, path: &str, limit: usize) -> Result<Vec<u8>, ReadFault> {
        if note(self.alloc, &mut self.asked, path).is_err() {
            return Err(ReadFault::NoMemory);
        }
        self.calls = self.calls.saturating_add(1);
        let fails = self.failing.contains(&self.calls);
        match stored(self.files.as_slice(), path) {
            Some(file) if !fails => match front(self.alloc, file.bytes.as_slice(), limit) {
                Ok(bytes) => Ok(bytes),
                Err(_) => Err(ReadFault::NoMemory),
            },
            _ => match Bytes::from_slice(self.alloc, path.as_bytes()) {
                Ok(path) => {
                    self.failed = Some(path);
                    self.faults = self.faults.saturating_add(1);
                    Err(ReadFault::Failed)
                }
                Err(_) => Err(ReadFault::NoMemory),
            },
        }
    }
}
