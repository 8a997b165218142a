//! Keep rules as a job file spells them, and the snapshots that they are asked about.

use std::alloc::{AllocError, Global};
use std::marker::Model;
use zr_grid::GridSpec;
use zr_names::SnapName;

/// The text of a regular expression, in the syntax of `regex`. Contracts see its bytes.
#[derive(Drop)]
pub struct PatternText {
    text: String,
}

impl Model for PatternText {
    ghost use Rattle.std.specs.Prelude.{List, ℕ, string_bytes};

    ghost Value = { List ℕ };

    ghost view = { λ pattern. string_bytes pattern.text };
}

impl PatternText {
    ghost use Rattle.std.specs.Prelude.{◌≡◌, IfOk, string_bytes};

    pub fn new(text: String) -> PatternText
        ensures { result ≡ string_bytes text }
    {
        PatternText { text }
    }

    pub fn from_text(alloc: Global, text: &str) -> Result<PatternText, AllocError>
        ensures { IfOk result (λ pattern. pattern ≡ text.now) }
    {
        Ok(PatternText {
            text: String::from_str(alloc, text)?,
        })
    }

    pub fn as_str(&self) -> &str
        ensures { result.now ≡ self.now }
    {
        self.text.as_str()
    }

    pub fn into_text(self) -> String
        ensures { string_bytes result ≡ self }
    {
        let PatternText { text } = self;
        text
    }
}

/// A rule that keeps snapshots of a dataset (zrepl's documentation, "Pruning Policies"). A rule without a pattern is
/// about every snapshot.
#[derive(Drop)]
pub enum RuleSpec {
    /// Of the snapshots whose names match, those that the grid keeps.
    Grid {
        spec: GridSpec,
        regex: Option<PatternText>,
    },
    /// Of the snapshots whose names match, the newest `count`.
    LastN {
        count: u32,
        regex: Option<PatternText>,
    },
    /// The snapshots that are newer than the replication cursor, and with `at_cursor` also the one at it.
    NotReplicated {
        at_cursor: bool,
    },
    /// The snapshots whose names match, or with `negate` the others.
    Regex {
        regex: PatternText,
        negate: bool,
    },
}

/// A snapshot, as keep rules see it.
#[derive(Drop)]
pub struct RuleRow {
    pub name: SnapName,
    /// The transaction group in which it was made (createtxg of zfsprops(7)).
    pub txg: u64,
    /// In seconds since 1970.
    pub creation: u64,
}
