//! Copies of names and units that are the same values to every contract.

use crate::names::{JobName, MarkName, Path, Prefix, SnapName, Tag, TokenText};
use crate::unit::{Unit, Work};
use std::alloc::AllocError;
use zr_base::Same;

impl Same for Path {
    fn same(&self) -> Result<Path, AllocError> {
        self.clone()
    }
}

impl Same for SnapName {
    fn same(&self) -> Result<SnapName, AllocError> {
        self.clone()
    }
}

impl Same for MarkName {
    fn same(&self) -> Result<MarkName, AllocError> {
        self.clone()
    }
}

impl Same for JobName {
    fn same(&self) -> Result<JobName, AllocError> {
        self.clone()
    }
}

impl Same for Prefix {
    fn same(&self) -> Result<Prefix, AllocError> {
        self.clone()
    }
}

impl Same for Tag {
    fn same(&self) -> Result<Tag, AllocError> {
        self.clone()
    }
}

impl Same for TokenText {
    fn same(&self) -> Result<TokenText, AllocError> {
        self.clone()
    }
}

impl Same for Unit {
    fn same(&self) -> Result<Unit, AllocError> {
        Ok(Unit {
            job: self.job,
            moment: self.moment,
            work: self.work.same()?,
        })
    }
}

impl Same for Work {
    fn same(&self) -> Result<Work, AllocError> {
        match self {
            Work::Scan => Ok(Work::Scan),
            Work::Parents => Ok(Work::Parents),
            Work::Snap(path, prefix) => Ok(Work::Snap(path.same()?, prefix.same()?)),
            Work::Replicate(path) => Ok(Work::Replicate(path.same()?)),
            Work::PruneSource(path) => Ok(Work::PruneSource(path.same()?)),
            Work::PruneTarget(path) => Ok(Work::PruneTarget(path.same()?)),
        }
    }
}
