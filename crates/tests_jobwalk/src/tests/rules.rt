//! The filesystems and the rules of a job: what each table gives, or its first fault. A line has the field of a job and
//! what stands in the job, as YAML; a part `%N%line` stands for N lines with their number for `#`. Answers were worked
//! out by hand from the documentation of a job file.

use super::shown::{fault_text, filter_text, node, rules_text};
use std::alloc::Global;
use tests_lines::{Unread, ask_of, is_wanted, told};
use zr_jobrules::{filter_of, keep_of, pruning_of};
use zr_jobwalk::Table;
use zr_rules::RegexPatterns;

const CASES: &str = r#"
# filesystems, in the byte order of their patterns
filesystems filesystems:\n tank: true => (tank true)
filesystems filesystems:\n "tank<": true\n tank/tmp: false\n "<": false => (< false)(tank/tmp false)(tank< true)
filesystems filesystems:\n b: true\n a: false\n B: true => (B true)(a false)(b true)
filesystems filesystems: {} => nothing
filesystems filesystems:\n a: ~\n b: true => (b true)
filesystems filesystems:%256%\sk#: true => 256 patterns
filesystems filesystems:%257%\sk#: true => too many filters
filesystems filesystems:\n a@: 1\n x: ~%256%\sk#: true => too many filters
filesystems filesystems:\n x: ~%256%\sk#: true => 256 patterns
filesystems \e => missing filesystems
filesystems filesystems: ~ => missing filesystems
filesystems filesystems: tank => bad value filesystems
filesystems filesystems: [tank] => bad value filesystems
filesystems filesystems:\n a@b: true => bad value filesystems.a@b
filesystems filesystems:\n a: 1 => bad value filesystems.a
filesystems filesystems:\n a: 'true' => bad value filesystems.a
filesystems filesystems:\n a: [true] => bad value filesystems.a
filesystems filesystems:\n "<<": true => bad value filesystems.<<
filesystems filesystems:\n a//b: true => bad value filesystems.a//b
filesystems filesystems:\n "a<b": true => bad value filesystems.a<b
filesystems filesystems:\n a\xc3\xa4: true => bad value filesystems.a??
# of two faults that of the least pattern in byte order
filesystems filesystems:\n b: 1\n a@: true => bad value filesystems.a@
filesystems filesystems:\n b@: true\n a: 1 => bad value filesystems.a
filesystems filesystems:\n a@: true\n B@: true => bad value filesystems.B@
# the rules of a snap job
keep pruning:\n keep: [] => nothing
keep pruning:\n keep:\n - type: last_n\n   count: 3 => (last 3 of all)
keep pruning:\n keep:\n - type: last_n\n   count: 4294967295\n   regex: ^z_ => (last 4294967295 of ^z_)
keep pruning:\n keep:\n - type: grid\n   grid: 1x1h(keep=all) | 24x1h => (grid 1x3600s(keep=all) | 24x3600s of all)
keep pruning:\n keep:\n - regex: z\n   grid: 2 x 1 d\n   type: grid => (grid 2x86400s of z)
keep pruning:\n keep:\n - type: not_replicated => (not replicated true)
keep pruning:\n keep:\n - type: not_replicated\n   keep_snapshot_at_cursor: true => (not replicated true)
keep pruning:\n keep:\n - type: not_replicated\n   keep_snapshot_at_cursor: false => (not replicated false)
keep pruning:\n keep:\n - type: regex\n   regex: ^z_ => (regex ^z_ false)
keep pruning:\n keep:\n - type: regex\n   regex: ^z_\n   negate: false => (regex ^z_ false)
keep pruning:\n keep:\n - type: regex\n   regex: ^z_\n   negate: true => (regex ^z_ true)
keep pruning:\n keep:\n - type: regex\n   regex: ''\n - type: last_n\n   count: 1 => (regex  false)(last 1 of all)
keep pruning:\n keep:\n - type: regex\n   regex: \*a1024; => (regex 1024 bytes false)
keep pruning:\n keep:%64%\s- type: not_replicated => 64 rules
keep pruning:\n keep:%65%\s- type: not_replicated => too many rules
keep pruning:\n keep:\n - 1%64%\s- type: not_replicated => too many rules
keep \e => missing pruning
keep pruning: [] => bad value pruning
keep pruning: {} => missing pruning.keep
keep pruning:\n keep: ~ => missing pruning.keep
keep pruning:\n keep: {} => bad value pruning.keep
keep pruning:\n keep: last_n => bad value pruning.keep
keep pruning:\n keep: 1\n keep_sender: [] => unknown field pruning.keep_sender
keep pruning:\n keep:\n - 1 => bad value pruning.keep[0]
keep pruning:\n keep:\n - ~ => bad value pruning.keep[0]
keep pruning:\n keep:\n - type: not_replicated\n - [] => bad value pruning.keep[1]
keep pruning:\n keep:\n - {} => missing pruning.keep[0].type
keep pruning:\n keep:\n - count: 1 => missing pruning.keep[0].type
keep pruning:\n keep:\n - type: first_n\n   x: 1 => bad value pruning.keep[0].type
keep pruning:\n keep:\n - type: 1 => bad value pruning.keep[0].type
keep pruning:\n keep:\n - type: last_n\n   grid: 1x1h => unknown field pruning.keep[0].grid
keep pruning:\n keep:\n - type: not_replicated\n   regex: z => unknown field pruning.keep[0].regex
keep pruning:\n keep:\n - type: regex\n   count: 1 => unknown field pruning.keep[0].count
keep pruning:\n keep:\n - type: grid\n   negate: true => unknown field pruning.keep[0].negate
keep pruning:\n keep:\n - type: last_n => missing pruning.keep[0].count
keep pruning:\n keep:\n - type: last_n\n   count: 0 => bad value pruning.keep[0].count
keep pruning:\n keep:\n - type: last_n\n   count: 4294967296 => bad value pruning.keep[0].count
keep pruning:\n keep:\n - type: last_n\n   count: '3' => bad value pruning.keep[0].count
keep pruning:\n keep:\n - type: last_n\n   count: 3\n   regex: 1 => bad value pruning.keep[0].regex
keep pruning:\n keep:\n - type: grid => missing pruning.keep[0].grid
keep pruning:\n keep:\n - type: grid\n   grid: 1h => bad value pruning.keep[0].grid
keep pruning:\n keep:\n - type: grid\n   grid: 100001x1h => bad value pruning.keep[0].grid
keep pruning:\n keep:\n - type: not_replicated\n   keep_snapshot_at_cursor: 1 => bad value pruning.keep[0].keep_snapshot_at_cursor
keep pruning:\n keep:\n - type: regex => missing pruning.keep[0].regex
keep pruning:\n keep:\n - type: regex\n   regex: true => bad value pruning.keep[0].regex
keep pruning:\n keep:\n - type: regex\n   regex: \*a1025; => bad value pruning.keep[0].regex
keep pruning:\n keep:\n - type: regex\n   regex: z\n   negate: 1 => bad value pruning.keep[0].negate
keep pruning:\n keep:\n - type: regex\n   regex: "(" => bad regex pruning.keep[0].regex
keep pruning:\n keep:\n - type: grid\n   grid: 1x1h\n   regex: "z{2,1}" => bad regex pruning.keep[0].regex
keep pruning:\n keep:\n - type: regex\n   regex: z\n - type: last_n\n   count: 1\n   regex: "[z" => bad regex pruning.keep[1].regex
# of two faults in a rule, and in two
keep pruning:\n keep:\n - type: grid\n   grid: 1h\n   regex: "(" => bad value pruning.keep[0].grid
keep pruning:\n keep:\n - type: last_n\n   regex: "(" => missing pruning.keep[0].count
keep pruning:\n keep:\n - type: regex\n   negate: 1\n   regex: "(" => bad regex pruning.keep[0].regex
keep pruning:\n keep:\n - type: regex\n   negate: 1\n   x: 1 => unknown field pruning.keep[0].x
keep pruning:\n keep:\n - type: regex\n   regex: "("\n - 1 => bad regex pruning.keep[0].regex
keep pruning:\n keep:\n - type: last_n\n - type: regex\n   regex: "(" => missing pruning.keep[0].count
# the rules of both sides
pruning pruning:\n keep_sender: []\n keep_receiver: [] => nothing to nothing
pruning pruning:\n keep_receiver:\n - type: last_n\n   count: 2\n keep_sender:\n - type: not_replicated => (not replicated true) to (last 2 of all)
pruning pruning:\n keep_sender: [] => missing pruning.keep_receiver
pruning pruning:\n keep_receiver: 1 => missing pruning.keep_sender
pruning pruning:\n keep_receiver: 1\n keep_sender: [1] => bad value pruning.keep_sender[0]
pruning pruning:\n keep_sender: []\n keep_receiver:\n - type: regex\n   regex: "(" => bad regex pruning.keep_receiver[0].regex
pruning pruning:\n keep_sender: []\n keep_receiver: []\n keep: [] => unknown field pruning.keep
pruning pruning: true => bad value pruning
pruning pruning:\n keep_sender: []\n keep_receiver:%65%\s- type: not_replicated => too many rules"#;

fn filtered(alloc: Global, job: &Table<'_>) -> Result<String, Unread> {
    match filter_of(job) {
        Ok(filter) => filter_text(alloc, &filter),
        Err(fault) => fault_text(alloc, &fault),
    }
}

fn kept(alloc: Global, job: &Table<'_>) -> Result<String, Unread> {
    let mut patterns = RegexPatterns::new(alloc);
    match keep_of(&mut patterns, job) {
        Ok(rules) => rules_text(alloc, rules.as_slice()),
        Err(fault) => fault_text(alloc, &fault),
    }
}

fn pruned(alloc: Global, job: &Table<'_>) -> Result<String, Unread> {
    let mut patterns = RegexPatterns::new(alloc);
    match pruning_of(&mut patterns, job) {
        Ok(pruning) => {
            let sender = rules_text(alloc, pruning.sender.as_slice())?;
            let receiver = rules_text(alloc, pruning.receiver.as_slice())?;
            Ok(format!(in alloc; "{sender} to {receiver}")?)
        }
        Err(fault) => fault_text(alloc, &fault),
    }
}

fn said(alloc: Global, ask: &str) -> Result<String, Unread> {
    let (word, yaml) = ask.split_once(' ').ok_or(Unread)?;
    let node = node(alloc, yaml)?;
    let job = Table::root(alloc, &node);
    match word {
        "filesystems" => filtered(alloc, &job),
        "keep" => kept(alloc, &job),
        "pruning" => pruned(alloc, &job),
        _ => Err(Unread),
    }
}

#[test]
fn rules(rt: HostRuntime) {
    for line in CASES.lines() {
        if let Some(ask) = ask_of(line) {
            let said = said(rt.alloc(), ask);
            assert!(rt; is_wanted(line, &said), "{line}: {}", told(&said));
        }
    }
}
