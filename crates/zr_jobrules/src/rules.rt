//! The rules of a side, an array.

ghost use Rattle.std.specs.Prelude.{◌≡◌, ◌≢◌, IfErr, IfOk, OnOk};
ghost use Rattle.zr_names.specs.Tree.{tree};
ghost use Rattle.zr_jobwalk.specs.Arrays.{AreAtMost, AreParts, FirstPart, PartsFault, part_name, series};
ghost use Rattle.zr_jobwalk.specs.Faults.{HasFault, InTable, field_of};
ghost use Rattle.zr_jobwalk.specs.Tables.{section};
ghost use Rattle.zr_jobwalk.specs.Values.{Has, IsTable};
ghost use Rattle.zr_jobwalk.specs.declared.fault.Many.TheVariants as many;
ghost use Rattle.zr_jobrules.specs.Patterns.{asked};
ghost use Rattle.zr_jobrules.specs.Rules.{AreRules, IsRule, RuleFault, RulesFault};
ghost use Rattle.zr_jobrules.specs.declared.rules.TheConstants.{MAX_RULES as MOST_RULES};

use crate::rule::read_rule;
use zr_jobwalk::{Array, Field, JobFault, Many, Table};
use zr_names::{Node, Rows};
use zr_rules::{Patterns, RuleSpec};

/// How many rules a side may have.
pub const MAX_RULES: usize = 64;

#[tactic(auto, using(zr_jobwalk::proofs::Parts::part_takes, zr_jobwalk::proofs::Parts::part_fault))]
fn rule_at<'a, P: Patterns>(
    patterns: &mut P,
    array: &Array<'a>,
    index: usize,
    node: &'a Node,
) -> Result<RuleSpec, JobFault>
    ensures rule { IfOk result (λ rule. IsTable IsRule (tree node.now) rule) }
    ensures fault { IfErr result (λ fault. fault ≢ JobFault.NoMemory → InTable (RuleFault
        (asked (P.refusals patterns.old) (P.refusals patterns.new) (P.refused_last patterns.new)))
        (part_name (series array.now).name index) (tree node.now) fault) }
    ensures count { OnOk result (P.refusals patterns.new ≡ P.refusals patterns.old) }
{
    let table = array.table(index, node)?;
    read_rule(patterns, &table)
}

/// The rules of the parts, in their order.
fn parts<P: Patterns>(patterns: &mut P, array: &Array<'_>) -> Result<Rows<RuleSpec>, JobFault>
    ensures rules { IfOk result
        (λ rules. AreParts (IsTable IsRule) (series array.now).items rules) }
    ensures fault { IfErr result (λ fault. fault ≢ JobFault.NoMemory
        → FirstPart (IsTable IsRule) (InTable (RuleFault
        (asked (P.refusals patterns.old) (P.refusals patterns.new) (P.refused_last patterns.new))))
        (series array.now).name 0 (series array.now).items fault) }
    ensures count { OnOk result (P.refusals patterns.new ≡ P.refusals patterns.old) }
{
    let mut rules = Rows::new(array.alloc());
    for (index, node) in array.nodes().iter().enumerate() {
        match rule_at(patterns, array, index, node) {
            Ok(rule) => rules.push(rule)?,
            Err(fault) => return Err(fault),
        }
    }
    Ok(rules)
}

fn read_rules<P: Patterns>(patterns: &mut P, array: &Array<'_>) -> Result<Rows<RuleSpec>, JobFault>
    ensures rules { IfOk result
        (λ rules. AreAtMost MOST_RULES (IsTable IsRule) (series array.now).items rules) }
    ensures fault { IfErr result (λ fault. fault ≢ JobFault.NoMemory
        → PartsFault many.Rules MOST_RULES (IsTable IsRule) (InTable (RuleFault
        (asked (P.refusals patterns.old) (P.refusals patterns.new) (P.refused_last patterns.new))))
        (series array.now).name (series array.now).items fault) }
    ensures count { OnOk result (P.refusals patterns.new ≡ P.refusals patterns.old) }
{
    if array.len() > MAX_RULES {
        return Err(JobFault::TooMany(Many::Rules));
    }
    parts(patterns, array)
}

/// The rules of a field that has to be there.
#[tactic(auto, using(zr_jobwalk::proofs::Parts::array_takes, zr_jobwalk::proofs::Parts::array_fault))]
pub fn rules_of<P: Patterns>(
    patterns: &mut P,
    table: &Table<'_>,
    field: Field,
) -> Result<Rows<RuleSpec>, JobFault>
    ensures rules { IfOk result
        (λ rules. Has AreRules (field_of (section table.now) field) rules) }
    ensures fault { IfErr result (λ fault. fault ≢ JobFault.NoMemory → HasFault (RulesFault
        (asked (P.refusals patterns.old) (P.refusals patterns.new) (P.refused_last patterns.new)))
        (section table.now) field fault) }
    ensures count { OnOk result (P.refusals patterns.new ≡ P.refusals patterns.old) }
{
    let array = table.array(field)?;
    read_rules(patterns, &array)
}
