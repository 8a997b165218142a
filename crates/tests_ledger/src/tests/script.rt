//! Calls on a ledger as words, and their answers as words.
//!
//! `2,1 / 3: take; ..` is a ledger whose jobs 0 and 1 have the limits 2 and 1 under a limit of 3 for all, and
//! `once` in front has it list once. A unit is its job, its work, its path and its prefix, as `0 snap p a_`.

ghost use Rattle.std.specs.Prelude.{◌≤◌, All, IfOk};
ghost use Rattle.zr_ledger.specs.Kept.{AllowsSome};

use super::lines::Unread;
use std::alloc::Global;
use std::str::Split;
use zr_ledger::{Ledger, Limits, Stranger, Ticket, Turn};
use zr_names::{Moment, Outcome, Rows, Unit, Work, read_path, read_prefix};

fn count(text: &str) -> Result<u32, Unread> {
    text.parse::<u32>().ok().ok_or(Unread)
}

/// A limit, which is at least 1.
fn limit(text: &str) -> Result<u32, Unread>
    ensures { IfOk result (λ n. 1 ≤ n) }
{
    match count(text)? {
        0 => Err(Unread),
        n => Ok(n),
    }
}

fn steps(alloc: Global, text: &str) -> Result<Vec<u32>, Unread>
    ensures { IfOk result (λ steps. All (λ n. 1 ≤ n) steps.items) }
{
    let mut steps = Vec::new(alloc);
    for job in text.split(',') {
        steps.push(limit(job)?)?;
    }
    Ok(steps)
}

fn limits(alloc: Global, text: &str) -> Result<Limits, Unread>
    ensures { IfOk result (λ limits. AllowsSome limits) }
{
    let once = text.starts_with("once ");
    let (jobs, all) = text
        .strip_prefix("once ")
        .unwrap_or(text)
        .split_once(" / ")
        .ok_or(Unread)?;
    Ok(Limits {
        steps: Rows::from_vec(steps(alloc, jobs)?),
        replicators: limit(all)?,
        once,
    })
}

fn work(alloc: Global, words: &mut Split<'_, char>) -> Result<Work, Unread> {
    let kind = words.next().ok_or(Unread)?;
    match kind {
        "scan" => Ok(Work::Scan),
        "parents" => Ok(Work::Parents),
        _ => work_on(alloc, kind, words),
    }
}

fn work_on(alloc: Global, kind: &str, words: &mut Split<'_, char>) -> Result<Work, Unread> {
    let path = read_path(alloc, words.next().ok_or(Unread)?.as_bytes())?;
    match kind {
        "snap" => {
            let prefix = words.next().ok_or(Unread)?;
            Ok(Work::Snap(path, read_prefix(alloc, prefix.as_bytes())?))
        }
        "replicate" => Ok(Work::Replicate(path)),
        "prune-source" => Ok(Work::PruneSource(path)),
        _ => Ok(Work::PruneTarget(path)),
    }
}

fn unit(alloc: Global, text: &str) -> Result<Unit, Unread> {
    let mut words = text.split(' ');
    Ok(Unit {
        job: count(words.next().ok_or(Unread)?)?,
        moment: Moment::new(0).ok_or(Unread)?,
        work: work(alloc, &mut words)?,
    })
}

fn units(alloc: Global, text: &str) -> Result<Vec<Unit>, Unread> {
    let mut units = Vec::new(alloc);
    for one in text.split(", ") {
        units.push(unit(alloc, one)?)?;
    }
    Ok(units)
}

fn shown(name: &[u8]) -> &str {
    str::from_utf8(name).unwrap_or("?")
}

fn push_unit(out: &mut String, unit: &Unit) -> Result<(), Unread> {
    write!(out, "{} ", unit.job)?;
    match &unit.work {
        Work::Scan => write!(out, "scan")?,
        Work::Parents => write!(out, "parents")?,
        Work::Snap(path, prefix) => {
            write!(
                out,
                "snap {} {}",
                shown(path.as_bytes()),
                shown(prefix.as_bytes())
            )?;
        }
        Work::Replicate(path) => write!(out, "replicate {}", shown(path.as_bytes()))?,
        Work::PruneSource(path) => write!(out, "prune-source {}", shown(path.as_bytes()))?,
        Work::PruneTarget(path) => write!(out, "prune-target {}", shown(path.as_bytes()))?,
    }
    Ok(())
}

fn push_run(out: &mut String, ticket: &Ticket) -> Result<(), Unread> {
    write!(out, "run {}: ", ticket.run())?;
    push_unit(out, ticket.unit())
}

/// A ledger at work: what it handed out, and what it answered.
#[derive(Drop)]
struct Desk {
    alloc: Global,
    ledger: Ledger<()>,
    tickets: Vec<Ticket>,
    out: String,
}

impl Desk {
    fn new(alloc: Global, text: &str) -> Result<Desk, Unread> {
        Ok(Desk {
            alloc,
            ledger: Ledger::new(alloc, (), limits(alloc, text)?)?,
            tickets: Vec::new(alloc),
            out: String::new(alloc),
        })
    }

    fn take(&mut self) -> Result<(), Unread> {
        match self.ledger.take() {
            Turn::Work(ticket) => {
                let pushed = push_run(&mut self.out, &ticket);
                self.tickets.push(ticket)?;
                pushed?;
            }
            Turn::TickYourself => self.out.push_str("tick")?,
            Turn::Wait => self.out.push_str("wait")?,
            Turn::Ended => self.out.push_str("ended")?,
        }
        Ok(())
    }

    fn give(&mut self, ticket: Ticket) -> Result<(), Unread> {
        match self.ledger.give(ticket, &Outcome::Taken) {
            Ok(()) => self.out.push_str("done")?,
            Err(Stranger(_)) => self.out.push_str("stranger")?,
        }
        Ok(())
    }

    fn give_run(&mut self, run: u64) -> Result<(), Unread> {
        let place = self
            .tickets
            .iter()
            .position(|ticket| ticket.run() == run)
            .ok_or(Unread)?;
        if place >= self.tickets.len() {
            return Err(Unread);
        }
        let ticket = self.tickets.remove(place);
        self.give(ticket)
    }

    /// Gives the ticket of another ledger, with the run number 1.
    fn give_foreign(&mut self) -> Result<(), Unread> {
        let ticket = foreign_ticket(self.alloc)?;
        self.give(ticket)
    }

    fn clock(&mut self) -> Result<(), Unread> {
        let word = match self.ledger.take_clock() {
            Some(()) => "here",
            None => "none",
        };
        self.out.push_str(word)?;
        Ok(())
    }

    fn push_totals(&mut self) -> Result<(), Unread> {
        let totals = self.ledger.totals();
        write!(
            self.out,
            "due {} done {} coalesced {}",
            totals.due, totals.done, totals.coalesced
        )?;
        Ok(())
    }

    fn push_number(&mut self, number: u64) -> Result<(), Unread> {
        write!(self.out, "{number}")?;
        Ok(())
    }

    fn add(&mut self, text: &str) -> Result<(), Unread> {
        let coalesced = add(&mut self.ledger, units(self.alloc, text)?)?;
        self.push_number(coalesced)
    }

    fn end(&mut self, ended: bool, word: &str) -> Result<(), Unread> {
        self.ledger.give_clock((), ended);
        self.out.push_str(word)?;
        Ok(())
    }

    fn recall(&mut self) -> Result<(), Unread> {
        let count = self.ledger.recall();
        self.push_number(count)
    }

    fn add_one(&mut self) -> Result<(), Unread> {
        let _coalesced = add(&mut self.ledger, units(self.alloc, "0 scan")?)?;
        Ok(())
    }

    /// Adds, takes and gives one scan.
    fn cycle(&mut self) -> Result<(), Unread> {
        self.add_one()?;
        if let Turn::Work(ticket) = self.ledger.take() {
            let _given = self.ledger.give(ticket, &Outcome::UpToDate);
        }
        Ok(())
    }

    /// One call more, behind those before it.
    fn answer(&mut self, call: &str) -> Result<(), Unread> {
        if !self.out.is_empty() {
            self.out.push_str("; ")?;
        }
        self.call(call)
    }

    fn into_text(self) -> String {
        let Desk {
            alloc: _,
            ledger,
            tickets,
            out,
        } = self;
        drop(ledger);
        drop(tickets);
        out
    }

    fn call(&mut self, call: &str) -> Result<(), Unread> {
        match call.split_once(' ') {
            Some(("add", text)) => self.add(text),
            Some(("give", run)) => self.give_run(u64::from(count(run)?)),
            Some(_) => Err(Unread),
            None => self.call_word(call),
        }
    }

    fn call_word(&mut self, word: &str) -> Result<(), Unread> {
        match word {
            "take" => self.take(),
            "clock" => self.clock(),
            "back" => self.end(false, "back"),
            "end" => self.end(true, "ended"),
            "foreign" => self.give_foreign(),
            "recall" => self.recall(),
            "totals" => self.push_totals(),
            _ => Err(Unread),
        }
    }
}

/// Adds units, each of which has its limit.
fn add(ledger: &mut Ledger<()>, units: Vec<Unit>) -> Result<u64, Unread> {
    if !ledger.has_limits(units.as_slice()) {
        drop(units);
        return Err(Unread);
    }
    Ok(ledger.add(units)?)
}

/// The ticket of a unit of another ledger.
fn foreign_ticket(alloc: Global) -> Result<Ticket, Unread> {
    let mut desk = Desk::new(alloc, "1 / 1")?;
    desk.add("0 parents")?;
    desk.take()?;
    desk.tickets.pop().ok_or(Unread)
}

/// The answers of a line's calls.
pub fn said(alloc: Global, ask: &str) -> Result<String, Unread> {
    let (text, calls) = ask.split_once(": ").ok_or(Unread)?;
    let mut desk = Desk::new(alloc, text)?;
    for call in calls.split("; ") {
        desk.answer(call)?;
    }
    Ok(desk.into_text())
}

/// Adds, takes and gives one scan so many times, and tells of the next.
pub fn cycles(alloc: Global, times: u32) -> Result<String, Unread> {
    let mut desk = Desk::new(alloc, "1 / 1")?;
    for _ in 0..times {
        desk.cycle()?;
    }
    desk.add_one()?;
    desk.answer("take")?;
    desk.answer("totals")?;
    Ok(desk.into_text())
}
