//! A rule by which snapshots are kept.

ghost use Rattle.std.specs.Prelude.{◌≡◌, ◌≢◌, Bool, IfErr, IfOk, OnOk};
ghost use Rattle.zr_jobwalk.specs.Faults.{HasFault, IsBad, MayFault, field_of};
ghost use Rattle.zr_jobwalk.specs.Tables.{section};
ghost use Rattle.zr_jobwalk.specs.Texts.{ReadsText};
ghost use Rattle.zr_jobwalk.specs.Values.{Has, HasOr, IsFlag, IsText};
ghost use Rattle.zr_jobrules.specs.Patterns.{asked};
ghost use Rattle.zr_jobrules.specs.Rules.{GridFault, IsGridRule, IsLastRule, IsNotReplicated, IsRegexRule};
ghost use Rattle.zr_jobrules.specs.Rules.{IsRule, IsRuleOf, IsRuleType, LastFault, NotReplicatedFault};
ghost use Rattle.zr_jobrules.specs.Rules.{RegexFault, RuleFault, RuleFaultOf, SpellsGrid};

use crate::patterns::{pattern, some_pattern};
use std::alloc::Global;
use zr_grid::{GridSpec, read_grid};
use zr_jobwalk::{Field, JobFault, Table, Unread};
use zr_rules::{Patterns, RuleSpec};

/// The most snapshots that `last_n` may keep.
pub const MAX_COUNT: u32 = 4_294_967_295;

/// The types of rules.
#[derive(Clone, Copy)]
pub enum RuleType {
    Grid,
    LastN,
    NotReplicated,
    Regex,
}

impl RuleType {
    ghost use Rattle.std.specs.Prelude.{◌≡◌};
    ghost use Rattle.zr_jobrules.specs.Rules.{fields_of};

    /// The fields that the table has.
    fn fields(self) -> &'static [Field]
        ensures { result.now ≡ fields_of self }
    {
        match self {
            RuleType::Grid => &[Field::Type, Field::Grid, Field::Regex],
            RuleType::LastN => &[Field::Type, Field::Count, Field::Regex],
            RuleType::NotReplicated => &[Field::Type, Field::KeepSnapshotAtCursor],
            RuleType::Regex => &[Field::Type, Field::Regex, Field::Negate],
        }
    }
}

fn rule_type_in(text: &[u8]) -> Result<RuleType, Unread>
    ensures { ReadsText IsRuleType text.now result }
{
    if text == b"grid".as_slice() {
        Ok(RuleType::Grid)
    } else if text == b"last_n".as_slice() {
        Ok(RuleType::LastN)
    } else if text == b"not_replicated".as_slice() {
        Ok(RuleType::NotReplicated)
    } else if text == b"regex".as_slice() {
        Ok(RuleType::Regex)
    } else {
        Err(Unread::Bad)
    }
}

fn type_of(table: &Table<'_>) -> Result<RuleType, JobFault>
    ensures typed { IfOk result (λ kind. Has (IsText IsRuleType)
        (field_of (section table.now) Field.Type) kind) }
    ensures fault { IfErr result (λ fault. fault ≢ JobFault.NoMemory
        → HasFault (IsBad (IsText IsRuleType)) (section table.now) Field.Type fault) }
{
    let text = table.text(Field::Type)?;
    match rule_type_in(text) {
        Ok(kind) => Ok(kind),
        Err(unread) => Err(table.unread(Field::Type, unread)),
    }
}

#[tactic(auto, using(crate::proofs::Grids::grid_is, crate::proofs::Grids::no_grid))]
fn grid_in(alloc: Global, text: &[u8]) -> Result<GridSpec, Unread>
    ensures { ReadsText SpellsGrid text.now result }
{
    match read_grid(alloc, text) {
        Ok(spec) => Ok(spec),
        Err(zr_grid::GridFault::NoMemory) => Err(Unread::NoMemory),
        Err(_) => Err(Unread::Bad),
    }
}

fn grid(table: &Table<'_>, field: Field) -> Result<GridSpec, JobFault>
    ensures grid { IfOk result
        (λ spec. Has (IsText SpellsGrid) (field_of (section table.now) field) spec) }
    ensures fault { IfErr result (λ fault. fault ≢ JobFault.NoMemory
        → HasFault (IsBad (IsText SpellsGrid)) (section table.now) field fault) }
{
    let text = table.text(field)?;
    match grid_in(table.alloc(), text) {
        Ok(spec) => Ok(spec),
        Err(unread) => Err(table.unread(field, unread)),
    }
}

/// A field that is true or false, or left out.
fn flag_or(table: &Table<'_>, field: Field, default: bool) -> Result<bool, JobFault>
    ensures flag { IfOk result
        (λ flag. HasOr default IsFlag (field_of (section table.now) field) flag) }
    ensures fault { IfErr result (λ fault. fault ≢ JobFault.NoMemory
        → MayFault (IsBad IsFlag) (section table.now) field fault) }
{
    if table.lacks(field) {
        return Ok(default);
    }
    table.flag(field)
}

fn grid_rule<P: Patterns>(patterns: &mut P, table: &Table<'_>) -> Result<RuleSpec, JobFault>
    ensures rule { IfOk result (λ rule. IsGridRule (section table.now).members rule) }
    ensures fault { IfErr result (λ fault. fault ≢ JobFault.NoMemory → GridFault
        (asked (P.refusals patterns.old) (P.refusals patterns.new) (P.refused_last patterns.new))
        (section table.now) fault) }
    ensures count { OnOk result (P.refusals patterns.new ≡ P.refusals patterns.old) }
{
    let spec = grid(table, Field::Grid)?;
    let regex = some_pattern(patterns, table, Field::Regex)?;
    Ok(RuleSpec::Grid { spec, regex })
}

fn last_rule<P: Patterns>(patterns: &mut P, table: &Table<'_>) -> Result<RuleSpec, JobFault>
    ensures rule { IfOk result (λ rule. IsLastRule (section table.now).members rule) }
    ensures fault { IfErr result (λ fault. fault ≢ JobFault.NoMemory → LastFault
        (asked (P.refusals patterns.old) (P.refusals patterns.new) (P.refused_last patterns.new))
        (section table.now) fault) }
    ensures count { OnOk result (P.refusals patterns.new ≡ P.refusals patterns.old) }
{
    let count = table.number(Field::Count, 1, MAX_COUNT)?;
    let regex = some_pattern(patterns, table, Field::Regex)?;
    Ok(RuleSpec::LastN { count, regex })
}

fn not_replicated(table: &Table<'_>) -> Result<RuleSpec, JobFault>
    ensures rule { IfOk result (λ rule. IsNotReplicated (section table.now).members rule) }
    ensures fault { IfErr result
        (λ fault. fault ≢ JobFault.NoMemory → NotReplicatedFault (section table.now) fault) }
{
    let at_cursor = flag_or(table, Field::KeepSnapshotAtCursor, true)?;
    Ok(RuleSpec::NotReplicated { at_cursor })
}

fn regex_rule<P: Patterns>(patterns: &mut P, table: &Table<'_>) -> Result<RuleSpec, JobFault>
    ensures rule { IfOk result (λ rule. IsRegexRule (section table.now).members rule) }
    ensures fault { IfErr result (λ fault. fault ≢ JobFault.NoMemory → RegexFault
        (asked (P.refusals patterns.old) (P.refusals patterns.new) (P.refused_last patterns.new))
        (section table.now) fault) }
    ensures count { OnOk result (P.refusals patterns.new ≡ P.refusals patterns.old) }
{
    let regex = pattern(patterns, table, Field::Regex)?;
    let negate = flag_or(table, Field::Negate, false)?;
    Ok(RuleSpec::Regex { regex, negate })
}

/// Reads the fields that a type of rule has.
fn rule_of<P: Patterns>(
    patterns: &mut P,
    table: &Table<'_>,
    kind: RuleType,
) -> Result<RuleSpec, JobFault>
    ensures rule { IfOk result (λ rule. IsRuleOf kind (section table.now).members rule) }
    ensures fault { IfErr result (λ fault. fault ≢ JobFault.NoMemory → RuleFaultOf
        (asked (P.refusals patterns.old) (P.refusals patterns.new) (P.refused_last patterns.new))
        kind (section table.now) fault) }
    ensures count { OnOk result (P.refusals patterns.new ≡ P.refusals patterns.old) }
{
    match kind {
        RuleType::Grid => grid_rule(patterns, table),
        RuleType::LastN => last_rule(patterns, table),
        RuleType::NotReplicated => not_replicated(table),
        RuleType::Regex => regex_rule(patterns, table),
    }
}

/// Reads the table of a rule. Its type says which fields it has.
pub(crate) fn read_rule<P: Patterns>(
    patterns: &mut P,
    table: &Table<'_>,
) -> Result<RuleSpec, JobFault>
    ensures rule { IfOk result (λ rule. IsRule (section table.now).members rule) }
    ensures fault { IfErr result (λ fault. fault ≢ JobFault.NoMemory → RuleFault
        (asked (P.refusals patterns.old) (P.refusals patterns.new) (P.refused_last patterns.new))
        (section table.now) fault) }
    ensures count { OnOk result (P.refusals patterns.new ≡ P.refusals patterns.old) }
{
    let kind = type_of(table)?;
    table.has_only(kind.fields())?;
    rule_of(patterns, table, kind)
}
