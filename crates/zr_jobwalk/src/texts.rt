//! The texts that fields take, read each by the reader of its type. Apart from the tables, which only ask whether a text
//! is good.

ghost use Rattle.zr_jobwalk.specs.Texts.{IsEvery, IsInitial, IsInterval, IsJobName, IsLocal, IsMinutes, IsPath, IsPrefix, IsProtection, NamesClient, ReadsText};

use std::alloc::Global;
use zr_grid::{SpanFault, read_span};
use zr_jobs::{Identity, IdentityFault, read_identity};
use zr_names::{
    Initial, JobName, NameFault, Path, Prefix, Protection, read_job, read_path, read_prefix,
};
use zr_schedule::{When, read_cron};

/// Why a text was not read.
#[derive(Clone, Copy)]
pub enum Unread {
    /// It is outside the rule of its field.
    Bad,
    NoMemory,
}

#[tactic(auto, using(crate::proofs::NoTexts::no_name))]
pub(crate) fn job_name(alloc: Global, text: &[u8]) -> Result<JobName, Unread>
    ensures { ReadsText IsJobName text.now result }
{
    match read_job(alloc, text) {
        Ok(name) => Ok(name),
        Err(NameFault::NoMemory) => Err(Unread::NoMemory),
        Err(_) => Err(Unread::Bad),
    }
}

#[tactic(auto, using(crate::proofs::NoTexts::no_prefix))]
pub(crate) fn prefix(alloc: Global, text: &[u8]) -> Result<Option<Prefix>, Unread>
    ensures { ReadsText IsPrefix text.now result }
{
    match read_prefix(alloc, text) {
        Ok(prefix) => Ok(Some(prefix)),
        Err(NameFault::NoMemory) => Err(Unread::NoMemory),
        Err(_) => Err(Unread::Bad),
    }
}

#[tactic(auto, using(crate::proofs::NoTexts::no_name))]
pub(crate) fn path(alloc: Global, text: &[u8]) -> Result<Path, Unread>
    ensures { ReadsText IsPath text.now result }
{
    match read_path(alloc, text) {
        Ok(path) => Ok(path),
        Err(NameFault::NoMemory) => Err(Unread::NoMemory),
        Err(_) => Err(Unread::Bad),
    }
}

#[tactic(auto, using(crate::proofs::NoTexts::no_name))]
pub(crate) fn identity(alloc: Global, text: &[u8]) -> Result<Identity, Unread>
    ensures { ReadsText NamesClient text.now result }
{
    match read_identity(alloc, text) {
        Ok(identity) => Ok(identity),
        Err(IdentityFault::Name(NameFault::NoMemory)) => Err(Unread::NoMemory),
        Err(_) => Err(Unread::Bad),
    }
}

pub(crate) fn local(text: &[u8]) -> Result<(), Unread>
    ensures { ReadsText IsLocal text.now result }
{
    if text == b"local".as_slice() {
        Ok(())
    } else {
        Err(Unread::Bad)
    }
}

pub(crate) fn guarantee(text: &[u8]) -> Result<Protection, Unread>
    ensures { ReadsText IsProtection text.now result }
{
    if text == b"guarantee_resumability".as_slice() {
        Ok(Protection::Resumability)
    } else if text == b"guarantee_incremental".as_slice() {
        Ok(Protection::Incremental)
    } else if text == b"guarantee_nothing".as_slice() {
        Ok(Protection::Nothing)
    } else {
        Err(Unread::Bad)
    }
}

pub(crate) fn replicated_first(text: &[u8]) -> Result<Initial, Unread>
    ensures { ReadsText IsInitial text.now result }
{
    if text == b"most_recent".as_slice() {
        Ok(Initial::MostRecent)
    } else if text == b"all".as_slice() {
        Ok(Initial::All)
    } else if text == b"fail".as_slice() {
        Ok(Initial::Fail)
    } else {
        Err(Unread::Bad)
    }
}

#[tactic(auto, using(crate::proofs::NoTexts::every_is, crate::proofs::NoTexts::no_every))]
pub(crate) fn every(text: &[u8]) -> Result<When, Unread>
    ensures { ReadsText IsEvery text.now result }
{
    match read_span(text) {
        Ok(seconds) => Ok(When::Every(seconds * 1000)),
        Err(SpanFault::BadSpan(_) | SpanFault::SpanTooBig) => Err(Unread::Bad),
    }
}

pub(crate) fn interval(text: &[u8]) -> Result<When, Unread>
    ensures { ReadsText IsInterval text.now result }
{
    if text == b"manual".as_slice() {
        return Ok(When::Never);
    }
    every(text)
}

#[tactic(auto, using(crate::proofs::NoTexts::minutes_are))]
pub(crate) fn minutes(text: &[u8]) -> Result<When, Unread>
    ensures { ReadsText IsMinutes text.now result }
{
    match read_cron(text) {
        Ok(spec) => Ok(When::Cron(spec)),
        Err(_) => Err(Unread::Bad),
    }
}
