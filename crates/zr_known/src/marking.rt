//! What the cursor of a snapshot is made from.

ghost use Rattle.std.specs.Prelude.{◌≡◌};

use crate::known::Known;
use crate::versions::{row_of, snap_row};
use zr_command::{VersionName, VersionRow, is_snap_of, is_tentative_of};
use zr_jobs::Pair;
use zr_names::Guid;

impl Known {
    ghost use Rattle.std.specs.Prelude.{◌≡◌, ◌&&◌, [], MatchOption, find};
    ghost use Rattle.std.specs.Option.{option_copied, option_map_or, option_or};
    ghost use Rattle.zr_command.specs.Kinds.{is_snap_of};
    ghost use Rattle.zr_command.specs.declared.version.VersionName.{VersionName};
    ghost use Rattle.zr_known.specs.Deciding.{cursor_source, makes_cursor, MakesCursor};
    ghost use Rattle.zr_known.specs.Known.{rows_of, source_row};

    /// What a bookmark is made from: a listed snapshot, or a known mark.
    #[tactic(auto, using(crate::proofs::Decisions::found_in))]
    pub(crate) fn source_row(&self, version: &VersionName) -> Option<&VersionRow>
        ensures { option_copied result ≡ source_row version.now self.now }
    {
        if let Some(row) = snap_row(self.source.rows(), version) {
            Some(row)
        } else {
            row_of(self.marks.as_slice(), version)
        }
    }

    /// Whether the cursor of a guid may be made from a version.
    pub fn makes_cursor(&self, pair: &Pair, guid: Guid, version: &VersionName) -> bool
        ensures { result ≡ makes_cursor pair.now self.now guid version.now }
    {
        match self.source_row(version) {
            Some(row) => is_snap_of(row, guid) || is_tentative_of(row, &pair.job, guid),
            None => false,
        }
    }

    fn making_snap<'a>(
        &self,
        pair: &Pair,
        guid: Guid,
        rows: &'a [VersionRow],
    ) -> Option<&'a VersionRow>
        ensures { option_copied result ≡
            find (λ row. is_snap_of guid row && makes_cursor pair.now self.now guid row.name)
            rows.now }
    {
        rows.iter().find(|row| is_snap_of(row, guid) && self.makes_cursor(pair, guid, &row.name))
    }

    fn making_mark<'a>(
        &self,
        pair: &Pair,
        guid: Guid,
        rows: &'a [VersionRow],
    ) -> Option<&'a VersionRow>
        ensures { option_copied result
            ≡ find (λ row. makes_cursor pair.now self.now guid row.name) rows.now }
    {
        rows.iter()
            .find(|row| self.makes_cursor(pair, guid, &row.name))
    }

    /// The row of a version that the cursor of a guid may be made from.
    fn cursor_row(&self, pair: &Pair, guid: Guid) -> Option<&VersionRow>
        ensures { option_copied result ≡ option_or
            (find (λ row. is_snap_of guid row && makes_cursor pair.now self.now guid row.name)
            (rows_of self.now.source.listing))
            (find (λ row. makes_cursor pair.now self.now guid row.name) self.now.marks) }
    {
        if let Some(row) = self.making_snap(pair, guid, self.source.rows()) {
            Some(row)
        } else {
            self.making_mark(pair, guid, self.marks.as_slice())
        }
    }

    /// A version that the cursor of a guid may be made from: the first listed snapshot that has the guid, else the job's
    /// tentative cursor of it.
    pub fn cursor_source(&self, pair: &Pair, guid: Guid) -> Option<&VersionName>
        ensures first { option_copied result ≡ cursor_source pair.now self.now guid }
        ensures makes { MatchOption result
            ((version : VersionName) → MakesCursor pair.now self.now guid version → ⊥)
            (λ version. MakesCursor pair.now self.now guid version.now) }
    {
        match self.cursor_row(pair, guid) {
            Some(row) => Some(&row.name),
            None => None,
        }
    }
}
