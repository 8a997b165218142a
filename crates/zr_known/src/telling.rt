//! What each turn tells, put into what is known. Apart from `updates`, which changes one side at a
//! time.

use crate::known::{Known, Receiving, Side};
use crate::updates::{
    arrived_by_sets, has_tag, insert_name, mark_row, own_marks, presence_after, presence_by,
    push_arrival, receiving_by, retain_others, set_among, set_at,
};
use crate::versions::is_own_mark;
use std::alloc::Global;
use std::mem;
use zr_command::{Answer, Cmd, Reply, SetRow, Transfer, VersionName, VersionRow};
use zr_jobs::Pair;
use zr_names::{JobName, MarkName, NoMemory, Path, Rows, SnapName, Tag, TagKind, same_items};

impl Side {
    ghost use Rattle.std.specs.Prelude.{◌≡◌, OnErr, OnOk};
    ghost use Rattle.zr_known.specs.Known.{with_holds};

    /// The holds of a snapshot were listed, and the job's is among them or not.
    fn told_holds(&mut self, alloc: Global, held: bool, name: &SnapName) -> Result<(), NoMemory>
        ensures ok { OnOk result (self.new ≡ with_holds held name.now self.old) }
        ensures err { OnErr result (self.new ≡ self.old) }
    {
        let held = set_among(alloc, held, name, self.held.as_slice())?;
        insert_name(alloc, &mut self.asked, name)?;
        self.held = held;
        Ok(())
    }
}

impl Known {
    ghost use Rattle.std.specs.Prelude.{◌≡◌, OnErr, OnOk, if◌then◌else◌};
    ghost use Rattle.zr_command.specs.Names.{same_text};
    ghost use Rattle.zr_command.specs.declared.command.Answer.TheVariants.{Done};
    ghost use Rattle.zr_known.specs.Known.{told_bookmark, told_by, told_hold, told_holds, told_mark_gone, told_sets, told_transfer, told_versions};

    /// The datasets were listed.
    fn told_sets(&mut self, alloc: Global, pair: &Pair, rows: &[SetRow]) -> Result<(), NoMemory>
        ensures ok { OnOk result (self.new ≡ told_sets pair.now rows.now self.old) }
        ensures err { OnErr result (self.new ≡ self.old) }
    {
        let copies = same_items(alloc, rows)?;
        let found = set_at(rows, &pair.target);
        if found.is_none() {
            self.target = Side::new(alloc);
        }
        let before = self.arrived.take();
        self.arrived = arrived_by_sets(alloc, self.presence, found, before);
        self.presence = presence_by(found);
        self.receiving = receiving_by(self.transferred, found);
        self.sets = Some(copies);
        Ok(())
    }

    /// The versions of a dataset were listed.
    fn told_versions(
        &mut self,
        alloc: Global,
        pair: &Pair,
        path: &Path,
        rows: &[VersionRow],
    ) -> Result<(), NoMemory>
        ensures ok { OnOk result (self.new ≡ told_versions pair.now path.now rows.now self.old) }
        ensures err { OnErr result (self.new ≡ self.old) }
    {
        if *path == pair.source {
            let copies = same_items(alloc, rows)?;
            self.marks = own_marks(alloc, rows, &pair.job)?;
            self.source.listing = Some(copies);
        } else if *path == pair.target {
            self.target.listing = Some(same_items(alloc, rows)?);
            self.arrived = Some(Rows::new(alloc));
        }
        Ok(())
    }

    /// The holds of a snapshot were listed.
    fn told_holds(
        &mut self,
        alloc: Global,
        pair: &Pair,
        path: &Path,
        name: &SnapName,
        tags: &[Tag],
    ) -> Result<(), NoMemory>
        ensures ok { OnOk result
            (self.new ≡ told_holds pair.now path.now name.now tags.now self.old) }
        ensures err { OnErr result (self.new ≡ self.old) }
    {
        if *path == pair.source {
            let held = has_tag(tags, TagKind::Step, &pair.job);
            self.source.told_holds(alloc, held, name)
        } else if *path == pair.target {
            let held = has_tag(tags, TagKind::Last, &pair.job);
            self.target.told_holds(alloc, held, name)
        } else {
            Ok(())
        }
    }

    /// A hold of the job was put on a snapshot, or taken off.
    fn told_hold(
        &mut self,
        alloc: Global,
        pair: &Pair,
        held: bool,
        kind: TagKind,
        path: &Path,
        name: &SnapName,
    ) -> Result<(), NoMemory>
        ensures ok { OnOk result
            (self.new ≡ told_hold pair.now held kind path.now name.now self.old) }
        ensures err { OnErr result (self.new ≡ self.old) }
    {
        match kind {
            TagKind::Step if *path == pair.source => {
                self.source.held = set_among(alloc, held, name, self.source.held.as_slice())?;
            }
            TagKind::Last if *path == pair.target => {
                self.target.held = set_among(alloc, held, name, self.target.held.as_slice())?;
            }
            TagKind::Step | TagKind::Last => {}
        }
        Ok(())
    }

    /// A hold of some job was put on a snapshot, or taken off.
    fn told_any_hold(
        &mut self,
        alloc: Global,
        pair: &Pair,
        held: bool,
        kind: TagKind,
        job: &JobName,
        path: &Path,
        name: &SnapName,
    ) -> Result<(), NoMemory>
        ensures ok { OnOk result (self.new ≡
            (if same_text job.now pair.now.job
            then told_hold pair.now held kind path.now name.now self.old else self.old)) }
        ensures err { OnErr result (self.new ≡ self.old) }
    {
        if *job == pair.job {
            self.told_hold(alloc, pair, held, kind, path, name)
        } else {
            Ok(())
        }
    }

    /// A bookmark was made.
    fn told_bookmark(
        &mut self,
        pair: &Pair,
        path: &Path,
        version: &VersionName,
        name: &MarkName,
    ) -> Result<(), NoMemory>
        ensures ok { OnOk result
            (self.new ≡ told_bookmark pair.now path.now version.now name.now self.old) }
        ensures err { OnErr result (self.new ≡ self.old) }
    {
        if *path != pair.source || !is_own_mark(name, &pair.job) {
            return Ok(());
        }
        let Some(row) = self.source_row(version) else {
            return Ok(());
        };
        let mark = mark_row(name, row)?;
        self.marks.push(mark)?;
        Ok(())
    }

    /// A bookmark was destroyed.
    fn told_mark_gone(&mut self, alloc: Global, pair: &Pair, path: &Path, name: &MarkName)
        ensures { self.new ≡ told_mark_gone pair.now path.now name.now self.old }
    {
        if *path == pair.source {
            let mut marks = mem::replace(&mut self.marks, Rows::new(alloc)).into_vec();
            retain_others(&mut marks, name);
            self.marks = Rows::from_vec(marks);
        }
    }

    /// A transfer was done.
    fn told_transfer(&mut self, pair: &Pair, transfer: &Transfer) -> Result<(), NoMemory>
        ensures ok { OnOk result (self.new ≡ told_transfer pair.now transfer.now self.old) }
        ensures err { OnErr result (self.new ≡ self.old) }
    {
        if transfer.target == pair.target {
            push_arrival(&mut self.arrived, transfer)?;
            self.presence = presence_after(self.presence);
            self.transferred = true;
            self.receiving = Receiving::Nothing;
        }
        Ok(())
    }

    /// What a command that was done and its reply tell.
    fn told_reply(
        &mut self,
        alloc: Global,
        pair: &Pair,
        cmd: &Cmd,
        reply: &Reply,
    ) -> Result<(), NoMemory>
        ensures ok { OnOk result (self.new ≡ told_by pair.now cmd.now (Done reply.now) self.old) }
        ensures err { OnErr result (self.new ≡ self.old) }
    {
        match (cmd, reply) {
            (Cmd::Sets, Reply::Sets(rows)) => self.told_sets(alloc, pair, rows.as_slice()),
            (Cmd::Versions(path), Reply::Versions(rows)) => {
                self.told_versions(alloc, pair, path, rows.as_slice())
            }
            (Cmd::Holds(path, name), Reply::Holds(tags)) => {
                self.told_holds(alloc, pair, path, name, tags.as_slice())
            }
            (Cmd::Hold(kind, job, path, name), Reply::Nothing) => {
                self.told_any_hold(alloc, pair, true, *kind, job, path, name)
            }
            (Cmd::Release(kind, job, path, name), Reply::Nothing) => {
                self.told_any_hold(alloc, pair, false, *kind, job, path, name)
            }
            (Cmd::Bookmark(path, version, name), Reply::Nothing) => {
                self.told_bookmark(pair, path, version, name)
            }
            (Cmd::DestroyMark(path, name), Reply::Nothing) => {
                self.told_mark_gone(alloc, pair, path, name);
                Ok(())
            }
            (Cmd::Transfer(transfer), Reply::Nothing) => self.told_transfer(pair, transfer),
            _ => Ok(()),
        }
    }

    /// Keeps what a command and its answer tell. A command that was not done tells nothing.
    pub fn tell(
        &mut self,
        alloc: Global,
        pair: &Pair,
        cmd: &Cmd,
        answer: &Answer,
    ) -> Result<(), NoMemory>
        ensures ok { OnOk result (self.new ≡ told_by pair.now cmd.now answer.now self.old) }
        ensures err { OnErr result (self.new ≡ self.old) }
    {
        match answer {
            Answer::Done(reply) => self.told_reply(alloc, pair, cmd, reply),
            Answer::Failed | Answer::Garbled(_) | Answer::NoMemory => Ok(()),
        }
    }
}
