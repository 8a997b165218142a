//! A built pattern.

ghost use Rattle.regex.specs.Patterns.{default_config};
ghost use Rattle.regex.specs.Strings.{regex_source, regex_config, IsReadFromSource, matcher_pattern};
ghost use Rattle.zr_rules.specs.Matching.{FindsAs, is_readable};

use regex::{Matcher, Regex};
use std::alloc::{AllocError, Global};
use std::marker::Model;

/// A built pattern. Contracts see its text.
#[derive(Drop)]
pub(crate) struct Pattern {
    regex: Regex,
}

impl Model for Pattern {
    ghost use Rattle.std.specs.Prelude.{◌≡◌, true, List, ℕ};
    ghost use Rattle.regex.specs.Strings.{regex_source, regex_pattern};
    ghost use Rattle.zr_rules.specs.Matching.{FindsAs, is_readable};

    ghost Value = { List ℕ };

    ghost view = { λ pattern. regex_source pattern.regex };

    ghost invariant = { λ pattern. FindsAs (regex_pattern pattern.regex) (regex_source pattern.regex) × (is_readable (regex_source pattern.regex) ≡ true) };
}

impl Pattern {
    ghost use Rattle.std.specs.Prelude.{◌≡◌, true, IfOk};

    /// The pattern that was read in its text with the default options.
    pub fn new(regex: Regex) -> Pattern
        requires options { regex_config regex ≡ default_config }
        requires read { IsReadFromSource regex }
        ensures text { result ≡ regex_source regex }
        ensures readable { is_readable result ≡ true }
    {
        Pattern { regex }
    }

    /// What searches for the pattern.
    pub fn matcher(&self, alloc: Global) -> Result<Matcher<'_>, AllocError>
        ensures { IfOk result (λ matcher. FindsAs (matcher_pattern matcher) self.now) }
    {
        self.regex.matcher(alloc)
    }
}
