//! The rules of each job, compiled before anything is run.

ghost use Rattle.std.specs.Prelude.{◌≡◌, All, IfOk};
ghost use Rattle.zr_jobset.specs.Units.{ArePlain, IsPlain, all_rules};

use std::alloc::Global;
use zr_jobset::JobSet;
use zr_names::NoMemory;
use zr_rules::{RegexPatterns, RuleFault, RuleSpec, Rules, compile};

/// The rules of one job. They have no patterns, so only memory can be wanting.
fn compile_job(
    alloc: Global,
    patterns: &mut RegexPatterns,
    specs: &[RuleSpec],
) -> Result<Rules, NoMemory>
    requires { All IsPlain specs.now }
    ensures { IfOk result (λ rules. rules ≡ specs.now) }
{
    match compile(alloc, patterns, specs) {
        Ok(rules) => Ok(rules),
        Err(RuleFault::BadRegex(_)) => unreachable!(),
        Err(RuleFault::NoMemory) => Err(NoMemory),
    }
}

/// The rules of each job, in the order of the file.
pub fn compile_all(alloc: Global, jobs: &JobSet) -> Result<Vec<Rules>, NoMemory>
    requires { ArePlain jobs.now }
    ensures { IfOk result (λ rules. rules.items ≡ all_rules jobs.now) }
{
    let mut patterns = RegexPatterns::new(alloc);
    let mut rules = Vec::new(alloc);
    for job in jobs.jobs() {
        rules.push(compile_job(alloc, &mut patterns, job.keep_source.as_slice())?)?;
    }
    Ok(rules)
}
