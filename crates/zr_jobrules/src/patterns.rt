//! The pattern of a rule. It is built when it is read, so that a bad one is told with the name of its field.

ghost use Rattle.std.specs.Prelude.{◌≡◌, ◌≢◌, ℕ, List, None, IfErr, IfNone, IfOk, IfSome, OnOk, Err};
ghost use Rattle.zr_jobwalk.specs.Faults.{HasFault, MayFault, dotted, field_of};
ghost use Rattle.zr_jobwalk.specs.Tables.{section};
ghost use Rattle.zr_jobwalk.specs.Values.{Has, HasOr, IsText};
ghost use Rattle.zr_jobrules.specs.Patterns.{IsPattern, IsSomePattern, PatternFault, WasRefused, asked};

use zr_jobwalk::{Field, JobFault, Table};
use zr_rules::{BuildFault, PatternText, Patterns};

/// The most bytes of a pattern.
pub const MAX_PATTERN: usize = 1024;

/// A text that can be a pattern: UTF-8, and not too long.
fn pattern_in(text: &[u8]) -> Option<&str>
    ensures some { IfSome result (λ pattern. IsPattern text.now pattern.now) }
    ensures none { IfNone result ((pattern : List ℕ) → ¬ IsPattern text.now pattern) }
{
    if text.len() > MAX_PATTERN {
        return None;
    }
    match str::from_utf8(text) {
        Ok(pattern) => Some(pattern),
        Err(_) => None,
    }
}

/// Builds a pattern, to see whether it can be.
fn build<P: Patterns>(patterns: &mut P, pattern: &str) -> Result<(), BuildFault>
    ensures refused { result ≡ Err BuildFault.Refused → WasRefused
        (asked (P.refusals patterns.old) (P.refusals patterns.new) (P.refused_last patterns.new))
        pattern.now }
    ensures count { OnOk result (P.refusals patterns.new ≡ P.refusals patterns.old) }
{
    match patterns.build(pattern) {
        Ok(_) => Ok(()),
        Err(fault) => Err(fault),
    }
}

/// That the pattern of this field was refused.
fn bad_regex(table: &Table<'_>, field: Field) -> JobFault
    ensures { result ≢ JobFault.NoMemory
        → result ≡ JobFault.BadRegex (dotted (section table.now) field) }
{
    match table.dotted(field) {
        Ok(name) => JobFault::BadRegex(name),
        Err(_) => JobFault::NoMemory,
    }
}

/// The pattern of a field that has to be there.
pub(crate) fn pattern<P: Patterns>(
    patterns: &mut P,
    table: &Table<'_>,
    field: Field,
) -> Result<PatternText, JobFault>
    ensures pattern { IfOk result
        (λ pattern. Has (IsText IsPattern) (field_of (section table.now) field) pattern) }
    ensures fault { IfErr result (λ fault. fault ≢ JobFault.NoMemory → HasFault (PatternFault
        (asked (P.refusals patterns.old) (P.refusals patterns.new) (P.refused_last patterns.new)))
        (section table.now) field fault) }
    ensures count { OnOk result (P.refusals patterns.new ≡ P.refusals patterns.old) }
{
    let text = table.text(field)?;
    let Some(pattern) = pattern_in(text) else {
        return Err(table.bad_value(field));
    };
    match build(patterns, pattern) {
        Ok(()) => Ok(PatternText::from_text(table.alloc(), pattern)?),
        Err(BuildFault::Refused) => Err(bad_regex(table, field)),
        Err(BuildFault::NoMemory) => Err(JobFault::NoMemory),
    }
}

/// The pattern of a field that may be left out.
pub(crate) fn some_pattern<P: Patterns>(
    patterns: &mut P,
    table: &Table<'_>,
    field: Field,
) -> Result<Option<PatternText>, JobFault>
    ensures pattern { IfOk result (λ pattern. HasOr None (IsText IsSomePattern)
        (field_of (section table.now) field) pattern) }
    ensures fault { IfErr result (λ fault. fault ≢ JobFault.NoMemory → MayFault (PatternFault
        (asked (P.refusals patterns.old) (P.refusals patterns.new) (P.refused_last patterns.new)))
        (section table.now) field fault) }
    ensures count { OnOk result (P.refusals patterns.new ≡ P.refusals patterns.old) }
{
    if table.lacks(field) {
        return Ok(None);
    }
    Ok(Some(pattern(patterns, table, field)?))
}
