//! The trees of cases, and what is read from them in words.

use std::alloc::Global;
use tests_lines::{Unread, bytes_of, count, shown, text};
use zr_filter::{Filter, FilterEntry};
use zr_grid::print_grid;
use zr_jobwalk::{DottedName, JobFault, Many};
use zr_names::Node;
use zr_rules::{PatternText, RuleSpec};
use zr_yaml::read_yaml;

fn many_name(many: Many) -> &'static str {
    match many {
        Many::Bytes => "bytes",
        Many::Jobs => "jobs",
        Many::Filters => "filters",
        Many::Rules => "rules",
    }
}

fn named(alloc: Global, word: &str, name: &DottedName) -> Result<String, Unread> {
    let name = name.as_str();
    Ok(format!(in alloc; "{word} {name}")?)
}

pub(super) fn fault_text(alloc: Global, fault: &JobFault) -> Result<String, Unread> {
    match fault {
        JobFault::Missing(name) => named(alloc, "missing", name),
        JobFault::BadValue(name) => named(alloc, "bad value", name),
        JobFault::UnknownField(name) => named(alloc, "unknown field", name),
        JobFault::BadRegex(name) => named(alloc, "bad regex", name),
        JobFault::Check(fault) => Ok(format!(in alloc; "{fault}")?),
        JobFault::TooMany(many) => {
            let many = many_name(*many);
            Ok(format!(in alloc; "too many {many}")?)
        }
        JobFault::NotToml | JobFault::NoMemory => Err(Unread),
    }
}

/// A text with a line in it so many times, each with its number for `#`, as `filesystems:%2% k#: true`.
fn spelled(alloc: Global, yaml: &str) -> Result<String, Unread> {
    let Some((front, rest)) = yaml.split_once('%') else {
        return text(alloc, yaml);
    };
    let (times, line) = rest.split_once('%').ok_or(Unread)?;
    let mut out = text(alloc, front)?;
    for number in 0..count(times)? {
        let digits = format!(in alloc; "{number}")?;
        let line = line.replace(alloc, "#", digits.as_str())?;
        out.push_str("\\n")?;
        out.push_str(line.as_str())?;
    }
    Ok(out)
}

pub(super) fn node(alloc: Global, yaml: &str) -> Result<Node, Unread> {
    let yaml = spelled(alloc, yaml)?;
    match read_yaml(alloc, bytes_of(alloc, yaml.as_str())?.as_slice()) {
        Ok(node) => Ok(node),
        Err(_) => Err(Unread),
    }
}

fn entry_text(alloc: Global, entry: &FilterEntry) -> Result<String, Unread> {
    let path = match &entry.path {
        Some(path) => shown(path.as_bytes()),
        None => "",
    };
    let mark = if entry.subtree { "<" } else { "" };
    let allow = entry.allow;
    Ok(format!(in alloc; "{path}{mark} {allow}")?)
}

/// The entries of a filter, or how many there are where they are many.
pub(super) fn filter_text(alloc: Global, filter: &Filter) -> Result<String, Unread> {
    let entries = filter.entries.as_slice();
    let number = entries.len();
    if number > 8 {
        return Ok(format!(in alloc; "{number} patterns")?);
    }
    if entries.is_empty() {
        return text(alloc, "nothing");
    }
    let mut out = String::new(alloc);
    for entry in entries {
        out.push_str("(")?;
        out.push_str(entry_text(alloc, entry)?.as_str())?;
        out.push_str(")")?;
    }
    Ok(out)
}

fn pattern_text(alloc: Global, pattern: &PatternText) -> Result<String, Unread> {
    let length = pattern.as_str().len();
    if length > 64 {
        return Ok(format!(in alloc; "{length} bytes")?);
    }
    text(alloc, pattern.as_str())
}

fn some_pattern(alloc: Global, pattern: &Option<PatternText>) -> Result<String, Unread> {
    match pattern {
        Some(pattern) => pattern_text(alloc, pattern),
        None => text(alloc, "all"),
    }
}

fn rule_text(alloc: Global, rule: &RuleSpec) -> Result<String, Unread> {
    match rule {
        RuleSpec::Grid { spec, regex } => {
            let pattern = some_pattern(alloc, regex)?;
            let grid = print_grid(alloc, spec)?;
            let grid = shown(grid.as_slice());
            Ok(format!(in alloc; "grid {grid} of {pattern}")?)
        }
        RuleSpec::LastN { count, regex } => {
            let pattern = some_pattern(alloc, regex)?;
            Ok(format!(in alloc; "last {count} of {pattern}")?)
        }
        RuleSpec::NotReplicated { at_cursor } => {
            Ok(format!(in alloc; "not replicated {at_cursor}")?)
        }
        RuleSpec::Regex { regex, negate } => {
            let pattern = pattern_text(alloc, regex)?;
            Ok(format!(in alloc; "regex {pattern} {negate}")?)
        }
    }
}

/// Rules, or how many there are where they are many.
pub(super) fn rules_text(alloc: Global, rules: &[RuleSpec]) -> Result<String, Unread> {
    let number = rules.len();
    if number > 8 {
        return Ok(format!(in alloc; "{number} rules")?);
    }
    if rules.is_empty() {
        return text(alloc, "nothing");
    }
    let mut out = String::new(alloc);
    for rule in rules {
        out.push_str("(")?;
        out.push_str(rule_text(alloc, rule)?.as_str())?;
        out.push_str(")")?;
    }
    Ok(out)
}
