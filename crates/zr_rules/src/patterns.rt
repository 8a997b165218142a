//! What builds patterns, with a count of those that it refused.

ghost use Rattle.std.specs.Prelude.{◌≡◌, ◌≢◌, ◌≤◌, ℕ, List, Option, Some, IfOk};
ghost use Rattle.zr_base.specs.Count.{Rose};
ghost use Rattle.regex.specs.Patterns.{default_config};
ghost use Rattle.regex.specs.Strings.{regex_source, regex_config, IsReadFromSource};

use crate::rule::PatternText;
use regex::{Error, Regex};
use std::alloc::{AllocError, Global};
use std::marker::Model;

/// Why a pattern was not built.
#[derive(Clone, Copy, PartialEq, Eq)]
pub enum BuildFault {
    /// It is no pattern, or one that is too big.
    Refused,
    NoMemory,
}

impl From<AllocError> for BuildFault {
    ghost use Rattle.std.specs.Prelude.{◌≡◌};
    ghost use Rattle.zr_rules.specs.declared.patterns.BuildFault.TheVariants.{NoMemory as Wanting};

    ghost from_gives = { λ _ fault. fault ≡ Wanting };

    fn from(_error: AllocError) -> BuildFault {
        BuildFault::NoMemory
    }
}

/// What builds patterns.
pub trait Patterns {
    // how many patterns were refused; at the end of its type the count stands still
    ghost refusals: { Self → ℕ };

    // the text that was refused last
    ghost refused_last: { Self → Option (List ℕ) };

    /// Builds the regular expression of this text.
    fn build(&mut self, pattern: &str) -> Result<Regex, BuildFault>
        // It is what the grammar of `regex` reads in the text.
        ensures source { IfOk result (λ regex. regex_source regex ≡ pattern.now) }
        ensures options { IfOk result (λ regex. regex_config regex ≡ default_config) }
        ensures read { IfOk result IsReadFromSource }

        // The count rises where a text is refused, and that text is told; other answers leave both.
        ensures refused_rose { result ≡ Err BuildFault.Refused
            → Rose (refusals self.old) (refusals self.new) }
        ensures refused_tells { result ≡ Err BuildFault.Refused
            → refused_last self.new ≡ Some pattern.now }
        ensures others_count { result ≢ Err BuildFault.Refused
            → refusals self.new ≡ refusals self.old }
        ensures others_tell { result ≢ Err BuildFault.Refused
            → refused_last self.new ≡ refused_last self.old }
        ensures never_falls { refusals self.old ≤ refusals self.new };
}

/// The patterns of the crate `regex`. It counts as refused what `regex` refuses for another cause than memory.
#[derive(Drop)]
pub struct RegexPatterns {
    alloc: Global,
    refusals: u64,
    refused_last: Option<PatternText>,
}

impl Model for RegexPatterns {
    ghost use Rattle.zr_rules.specs.Refusals.{Refusals};

    ghost Value = { Refusals };

    ghost view = { λ patterns. record { count = patterns.refusals; last = patterns.refused_last } };
}

impl RegexPatterns {
    ghost use Rattle.std.specs.Prelude.{◌≡◌, ◌≢◌, ◌+◌, ◌-◌, ◌^◌, ◌≤◌, Some, None, min, false, IsTrue};
    ghost use Rattle.std.specs.Option.{option_map};

    pub fn new(alloc: Global) -> RegexPatterns
        ensures { result ≡ record { count = 0; last = None } }
    {
        RegexPatterns {
            alloc,
            refusals: 0,
            refused_last: None,
        }
    }

    /// How many patterns were refused. The count stands still at `u64::MAX`.
    pub fn refusals(&self) -> u64
        ensures { result ≡ self.now.count }
    {
        self.refusals
    }

    /// The text that was refused last.
    pub fn refused_last(&self) -> Option<&str>
        ensures { option_map (λ text. text.now) result ≡ self.now.last }
    {
        match &self.refused_last {
            Some(text) => Some(text.as_str()),
            None => None,
        }
    }

    /// Counts a refused text, and says whether it did: where its text can't be kept, nothing changes.
    fn counts(&mut self, pattern: &str) -> bool
        ensures counted { IsTrue result
            → self.new ≡ record {
              count = min (self.old.count + 1) (2 ^ 64 - 1);
              last = Some
                  pattern.now;
            } }
        ensures unchanged { result ≡ false → self.new ≡ self.old }
        ensures never_falls { self.old.count ≤ self.new.count }
    {
        match PatternText::from_text(self.alloc, pattern) {
            Ok(text) => {
                self.refusals = self.refusals.saturating_add(1);
                self.refused_last = Some(text);
                true
            }
            Err(_) => false,
        }
    }
}

impl Patterns for RegexPatterns {
    ghost refusals = { λ patterns. patterns.count };

    ghost refused_last = { λ patterns. patterns.last };

    fn build(&mut self, pattern: &str) -> Result<Regex, BuildFault> {
        match Regex::new(self.alloc, pattern) {
            Ok(regex) => Ok(regex),
            Err(Error::OutOfMemory) => Err(BuildFault::NoMemory),
            Err(_) if self.counts(pattern) => Err(BuildFault::Refused),
            Err(_) => Err(BuildFault::NoMemory),
        }
    }
}
