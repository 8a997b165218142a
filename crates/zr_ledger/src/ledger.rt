//! The ledger: whose turn it is.

use crate::adding::{begin_anew, join_all, next_base, reserve_all, spares_of};
use crate::counts::Counts;
use crate::limits::Limits;
use crate::outs::{end_out, place_of};
use crate::queue::Queue;
use crate::ready::first_ready;
use crate::state::{Entry, State};
use crate::steps::{give_up, idle, send_out};
use crate::ticket::{Stranger, Ticket, Turn};
use std::alloc::Global;
use std::marker::Model;
use zr_names::{NoMemory, Outcome, Rows, Totals, Unit};

/// Units that wait, units that are out, and the clock `C`, which is here until a worker takes it.
#[derive(Drop)]
pub struct Ledger<C> {
    limits: Limits,
    waiting: Queue,
    outs: Vec<Ticket>,
    counts: Counts,
    base: State,
    history: Vec<Entry>,
    clock: Option<C>,
    /// Whether the clock has ended.
    over: bool,
}

impl<C> Model for Ledger<C> {
    ghost use Rattle.std.specs.Prelude.{is_some};
    ghost use Rattle.std.specs.Vec.{vec_capacity};
    ghost use Rattle.zr_ledger.specs.Kept.{Holds, Seen};
    ghost use Rattle.zr_ledger.specs.Steps.{standing};
    ghost use Rattle.zr_ledger.specs.Turns.{place_of};

    ghost Value = { Seen };

    ghost view = { λ l. record {
      state = standing l.limits l.waiting.units l.outs.items l.counts;
      base = l.base;
      history = l.history.items;
      clock = place_of l.over (is_some l.clock);
    } };

    ghost invariant = { λ l.
        Holds l.base l.history.items (standing l.limits l.waiting.units l.outs.items l.counts)
        (vec_capacity l.outs) (vec_capacity l.history) };
}

impl<C: Drop> Ledger<C> {
    ghost use Rattle.std.specs.Prelude.{◌≡◌, ◌<◌, ◌↔◌, [], ◌++◌, All, IfOk, IfErr, OnErr, OnOk, IsNone, IsTrue, false, true, is_ok, if◌then◌else◌, length, map, position};
    ghost use Rattle.std.specs.List.{list_any};
    ghost use Rattle.zr_names.specs.Totals.{plus};
    ghost use Rattle.zr_ledger.specs.Kept.{AllowsSome, HasLimit, IsReplayed, IsKept};
    ghost use Rattle.zr_ledger.specs.Ready.{is_ticket};
    ghost use Rattle.zr_ledger.specs.Steps.{coalesced_from, given_back, is_long, joined_all, nothing};
    ghost use Rattle.zr_ledger.specs.Turns.{away, finished, here, IsIdle, IsOver, IsWaiting, is_here, is_spent, is_work, turn, turned};

    /// A ledger with the clock, in which nothing waits and nothing is out. Each job of the job file has its
    /// limit, sinks too.
    pub fn new(alloc: Global, clock: C, limits: Limits) -> Result<Ledger<C>, NoMemory>
        requires { AllowsSome limits }
        ensures state { IfOk result (λ ledger. ledger.state ≡ nothing limits) }
        ensures clock { IfOk result (λ ledger. ledger.clock ≡ here) }
    {
        let base = State {
            limits: limits.copy(alloc)?,
            waiting: Rows::new(alloc),
            outs: Rows::new(alloc),
            counts: Counts::none(),
        };
        Ok(Ledger {
            limits,
            waiting: Queue::new(alloc)?,
            outs: Vec::new(alloc),
            counts: Counts::none(),
            base,
            history: Vec::new(alloc),
            clock: Some(clock),
            over: false,
        })
    }

    /// What a worker does next: it runs the first unit that is ready, with the next run number, takes the
    /// clock, waits, or ends.
    pub fn take(&mut self) -> Turn
        ensures answer { result ≡ turn self.old.state self.old.clock }

        // Where something waits and nothing is out, a unit starts, unless all run numbers were given.
        ensures starts { 0 < length self.old.state.waiting → self.old.state.outs ≡ []
            → is_spent self.old.state ≡ false → is_work result ≡ true }
        ensures ticks { (result ≡ Turn.TickYourself)
            ↔ (IsIdle self.old.state × (self.old.clock ≡ here)) }
        ensures waits { (result ≡ Turn.Wait) ↔ IsWaiting self.old.state self.old.clock }
        ensures ended { (result ≡ Turn.Ended) ↔ IsOver self.old.state self.old.clock }

        ensures state { self.new.state ≡ turned self.old.state }
        ensures clock { self.new.clock ≡ self.old.clock }
        ensures limits { self.new.state.limits ≡ self.old.state.limits }

        // The run number and those taken may rise; no other number moves.
        ensures counts { self.new.state.counts ≡ record self.old.state.counts {
          given = self.new.state.counts.given;
          taken = self.new.state.counts.taken;
        } }
    {
        if self.counts.given == u64::MAX {
            return Turn::Ended;
        }
        match first_ready(&self.limits, &self.waiting, self.outs.as_slice()) {
            Some(place) => {
                let ticket = send_out(&mut self.waiting, &mut self.outs, &mut self.counts, place);
                self.history.push_reserved(Entry::Take);
                Turn::Work(ticket)
            }
            None => idle(self.over, self.clock.is_some(), self.outs.as_slice()),
        }
    }

    /// Ends the unit of a ticket: counts how it ended and frees its seat. A ticket whose run number and unit
    /// are not out together comes back.
    pub fn give(&mut self, ticket: Ticket, outcome: &Outcome) -> Result<(), Stranger>
        ensures found { is_ok result ≡ list_any (is_ticket ticket) self.old.state.outs }
        ensures stranger { IfErr result (λ stranger. stranger.0 ≡ ticket) }
        ensures state { self.new.state
            ≡ given_back (position (is_ticket ticket) self.old.state.outs) outcome.now
            self.old.state }
        ensures clock { self.new.clock ≡ self.old.clock }
        ensures limits { self.new.state.limits ≡ self.old.state.limits }

        // Only the totals may rise, and of these neither what is due nor what was coalesced.
        ensures counts { self.new.state.counts
            ≡ record self.old.state.counts { totals = self.new.state.counts.totals } }
        ensures due { self.new.state.counts.totals.due ≡ self.old.state.counts.totals.due }
        ensures coalesced { self.new.state.counts.totals.coalesced
            ≡ self.old.state.counts.totals.coalesced }
    {
        match place_of(self.outs.as_slice(), &ticket) {
            Some(place) => {
                end_out(&mut self.outs, place, ticket);
                self.counts.end(outcome);
                self.history.push_reserved(Entry::Give(place, *outcome));
                Ok(())
            }
            None => Err(Stranger(ticket)),
        }
    }

    /// Whether each of these units is of a job that has a limit, as `add` wants it.
    pub fn has_limits(&self, units: &[Unit]) -> bool
        ensures { IsTrue result ↔ All (HasLimit self.now.state.limits) units.now }
    {
        let jobs = self.limits.steps.len();
        units.iter().all(|unit| (unit.job as usize) < jobs)
    }

    /// Adds units: each waits behind all others, or is coalesced where its like waits or is out. Answers how
    /// many were coalesced. Makes all room that later calls need.
    pub fn add(&mut self, units: Vec<Unit>) -> Result<u64, NoMemory>
        requires { All (HasLimit self.old.state.limits) units.items }
        ensures answer { IfOk result (λ n. n ≡ coalesced_from 0 self.old.state units.items) }
        ensures state { OnOk result (self.new.state ≡ joined_all self.old.state units.items) }
        ensures base { OnOk result (self.new.base
            ≡ (if is_long self.old.history then self.old.state else self.old.base)) }
        ensures history { OnOk result (self.new.history
            ≡ (if is_long self.old.history then [] else self.old.history)
            ++ map Entry.Add units.items) }
        ensures clock { self.new.clock ≡ self.old.clock }
        ensures limits { self.new.state.limits ≡ self.old.state.limits }

        // What is due rises by the number of units, and what was coalesced by the answer; no other total moves.
        ensures totals { IfOk result
            (λ n. self.new.state.counts.totals ≡ record self.old.state.counts.totals {
              due = plus self.old.state.counts.totals.due (length units.items);
              coalesced = plus self.old.state.counts.totals.coalesced n;
            }) }
        ensures counts { self.new.state.counts ≡ record self.old.state.counts {
          totals = self.new.state.counts.totals;
          accepted = self.new.state.counts.accepted;
          coalesced = self.new.state.counts.coalesced;
        } }
        ensures err { OnErr result (self.new ≡ self.old) }
    {
        let alloc = *self.history.allocator();
        let spares = spares_of(alloc, units)?;
        let next = next_base(
            alloc,
            &self.limits,
            &self.waiting,
            self.outs.as_slice(),
            &self.counts,
            self.history.as_slice(),
        )?;
        reserve_all(
            &mut self.waiting,
            &mut self.outs,
            &mut self.history,
            self.limits.steps.len(),
            spares.as_slice(),
        )?;
        begin_anew(&mut self.base, &mut self.history, next);
        Ok(join_all(
            &self.limits,
            &mut self.waiting,
            self.outs.as_slice(),
            &mut self.counts,
            &mut self.history,
            spares,
        ))
    }

    /// The clock, where it is here.
    pub fn take_clock(&mut self) -> Option<C>
        ensures found { IsNone result ↔ (is_here self.old.clock ≡ false) }
        ensures state { self.new.state ≡ self.old.state }
        ensures clock { self.new.clock ≡ (if is_here self.old.clock then away else self.old.clock) }
    {
        if self.over { None } else { self.clock.take() }
    }

    /// Puts the clock back, for good where it has ended.
    pub fn give_clock(&mut self, clock: C, ended: bool)
        ensures state { self.new.state ≡ self.old.state }
        ensures clock { self.new.clock ≡ (if ended then finished else here) }
    {
        self.clock = Some(clock);
        self.over = ended;
    }

    /// What was counted. The call tells what each ledger keeps.
    pub fn totals(&self) -> Totals
        ensures totals { result ≡ self.now.state.counts.totals }
        ensures kept { IsKept self.now.state }
        ensures replayed { IsReplayed self.now }
    {
        self.counts.totals
    }
}

impl Ledger<()> {
    ghost use Rattle.std.specs.Prelude.{◌≡◌, length};
    ghost use Rattle.zr_ledger.specs.Steps.{recalled};
    ghost use Rattle.zr_ledger.specs.Turns.{here};

    /// Gives up each unit that is out, without counting it, and makes the clock here again. Answers how many
    /// units these were. It is called where no ticket is held any more.
    pub fn recall(&mut self) -> u64
        ensures answer { result ≡ length self.old.state.outs }
        ensures state { self.new.state ≡ recalled self.old.state }
        ensures counts { self.new.state.counts ≡ self.old.state.counts }
        ensures clock { self.new.clock ≡ here }
    {
        self.clock = Some(());
        self.over = false;
        give_up(&mut self.outs, &mut self.history)
    }
}
