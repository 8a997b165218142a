//! Rules with their patterns built.

ghost use Rattle.std.specs.Prelude.{◌≡◌, ◌↔◌, true, IfOk, IfErr, OnOk, IsTrue, All, Some, IfSome};
ghost use Rattle.zr_rules.specs.Specs.{HasGrid, IsReadable, pattern_in, BuildCause, RuleCause};
ghost use Rattle.zr_rules.specs.Matching.{is_readable};
ghost use Rattle.zr_rules.specs.Rules.{spec_of};

use crate::pattern::Pattern;
use crate::patterns::{BuildFault, Patterns};
use crate::rule::{PatternText, RuleSpec};
use std::alloc::{AllocError, AllocFailed, Global};
use std::marker::Model;
use zr_grid::{GridSpec, is_grid};

/// Why rules were not compiled.
#[derive(Clone, Copy, PartialEq, Eq)]
pub enum RuleFault {
    /// The pattern of the rule of this number, counted from 0, was refused.
    BadRegex(usize),
    NoMemory,
}

impl<T: Drop> From<AllocFailed<T>> for RuleFault {
    ghost use Rattle.std.specs.Prelude.{◌≡◌};
    ghost use Rattle.zr_rules.specs.declared.compiling.RuleFault.TheVariants.{NoMemory as Wanting};

    ghost from_gives = { λ _ fault. fault ≡ Wanting };

    fn from(_failed: AllocFailed<T>) -> RuleFault {
        RuleFault::NoMemory
    }
}

/// A rule whose pattern is built.
#[derive(Drop)]
pub(crate) enum Rule {
    Grid {
        spec: GridSpec,
        pattern: Option<Pattern>,
    },
    LastN {
        count: u32,
        pattern: Option<Pattern>,
    },
    NotReplicated {
        at_cursor: bool,
    },
    Regex {
        pattern: Pattern,
        negate: bool,
    },
}

/// Rules with their patterns built. Contracts see the rules that they were compiled from.
#[derive(Drop)]
pub struct Rules {
    pub(crate) rules: Vec<Rule>,
}

impl Model for Rules {
    ghost use Rattle.std.specs.Prelude.{List, map, All};
    ghost use Rattle.zr_rules.specs.declared.rule.RuleSpec.{RuleSpec as SpecValue};
    ghost use Rattle.zr_rules.specs.Rules.{spec_of};
    ghost use Rattle.zr_rules.specs.Specs.{HasGrid};

    ghost Value = { List SpecValue };

    ghost view = { λ rules. map spec_of rules.rules.items };

    ghost invariant = { λ rules. All HasGrid (map spec_of rules.rules.items) };
}

impl Rules {
    ghost use Rattle.std.specs.Prelude.{◌≡◌, [], Decides};

    /// Whether there is no rule.
    pub fn is_empty(&self) -> bool
        ensures { Decides result (self.now ≡ []) }
    {
        self.rules.is_empty()
    }
}

fn has_grid(spec: &RuleSpec) -> bool
    ensures { IsTrue result ↔ HasGrid spec.now }
{
    match spec {
        RuleSpec::Grid { spec, .. } => is_grid(spec),
        RuleSpec::LastN { .. } | RuleSpec::NotReplicated { .. } | RuleSpec::Regex { .. } => true,
    }
}

/// Whether `read_grid` can give each grid of these rules.
pub fn have_grids(specs: &[RuleSpec]) -> bool
    ensures { IsTrue result ↔ All HasGrid specs.now }
{
    for spec in specs {
        if !has_grid(spec) {
            return false;
        }
    }
    true
}

fn build<P: Patterns>(patterns: &mut P, text: &PatternText) -> Result<Pattern, BuildFault>
    ensures text { IfOk result (λ pattern. pattern ≡ text.now) }
    ensures readable { OnOk result (is_readable text.now ≡ true) }
    ensures cause { IfErr result
        (BuildCause (Some text.now) (P.refusals patterns.old) (P.refused_last patterns.old)
        (P.refusals patterns.new) (P.refused_last patterns.new)) }
    ensures count { OnOk result (P.refusals patterns.new ≡ P.refusals patterns.old) }
    ensures last { OnOk result (P.refused_last patterns.new ≡ P.refused_last patterns.old) }
{
    match patterns.build(text.as_str()) {
        Ok(regex) => Ok(Pattern::new(regex)),
        Err(BuildFault::Refused) => Err(BuildFault::Refused),
        Err(BuildFault::NoMemory) => Err(BuildFault::NoMemory),
    }
}

/// The pattern of a rule that may have none.
fn build_some<P: Patterns>(
    patterns: &mut P,
    text: &Option<PatternText>,
) -> Result<Option<Pattern>, BuildFault>
    ensures text { IfOk result (λ pattern. pattern ≡ text.now) }
    ensures readable { OnOk result (IfSome text.now (λ text. is_readable text ≡ true)) }
    ensures cause { IfErr result
        (BuildCause text.now (P.refusals patterns.old) (P.refused_last patterns.old)
        (P.refusals patterns.new) (P.refused_last patterns.new)) }
    ensures count { OnOk result (P.refusals patterns.new ≡ P.refusals patterns.old) }
    ensures last { OnOk result (P.refused_last patterns.new ≡ P.refused_last patterns.old) }
{
    match text {
        None => Ok(None),
        Some(text) => match build(patterns, text) {
            Ok(pattern) => Ok(Some(pattern)),
            Err(fault) => Err(fault),
        },
    }
}

/// The rule with its pattern built.
fn compile_rule<P: Patterns>(patterns: &mut P, spec: &RuleSpec) -> Result<Rule, BuildFault>
    ensures rule { IfOk result (λ rule. spec_of rule ≡ spec.now) }
    ensures readable { OnOk result (IsReadable spec.now) }
    ensures cause { IfErr result
        (BuildCause (pattern_in spec.now) (P.refusals patterns.old) (P.refused_last patterns.old)
        (P.refusals patterns.new) (P.refused_last patterns.new)) }
    ensures count { OnOk result (P.refusals patterns.new ≡ P.refusals patterns.old) }
    ensures last { OnOk result (P.refused_last patterns.new ≡ P.refused_last patterns.old) }
{
    match spec {
        RuleSpec::Grid { spec, regex } => Ok(Rule::Grid {
            pattern: build_some(patterns, regex)?,
            spec: grid_copy(spec)?,
        }),
        RuleSpec::LastN { count, regex } => Ok(Rule::LastN {
            count: *count,
            pattern: build_some(patterns, regex)?,
        }),
        RuleSpec::NotReplicated { at_cursor } => Ok(Rule::NotReplicated {
            at_cursor: *at_cursor,
        }),
        RuleSpec::Regex { regex, negate } => Ok(Rule::Regex {
            pattern: build(patterns, regex)?,
            negate: *negate,
        }),
    }
}

fn grid_copy(spec: &GridSpec) -> Result<GridSpec, AllocError>
    ensures { IfOk result (λ copy. copy ≡ spec.now) }
{
    Ok(GridSpec {
        intervals: spec.intervals.clone()?,
    })
}

/// Builds the patterns of rules, in their order.
pub fn compile<P: Patterns>(
    alloc: Global,
    patterns: &mut P,
    specs: &[RuleSpec],
) -> Result<Rules, RuleFault>
    requires { All HasGrid specs.now }
    ensures rules { IfOk result (λ rules. rules ≡ specs.now) }
    ensures readable { OnOk result (All IsReadable specs.now) }
    ensures cause { IfErr result
        (RuleCause specs.now (P.refusals patterns.old) (P.refused_last patterns.old)
        (P.refusals patterns.new) (P.refused_last patterns.new)) }
    ensures count { OnOk result (P.refusals patterns.new ≡ P.refusals patterns.old) }
    ensures last { OnOk result (P.refused_last patterns.new ≡ P.refused_last patterns.old) }
{
    let mut rules = Vec::new(alloc);
    for (place, spec) in specs.iter().enumerate() {
        match compile_rule(patterns, spec) {
            Ok(rule) => rules.push(rule)?,
            Err(BuildFault::Refused) => return Err(RuleFault::BadRegex(place)),
            Err(BuildFault::NoMemory) => return Err(RuleFault::NoMemory),
        }
    }
    Ok(Rules { rules })
}
