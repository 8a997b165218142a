//! What a unit gave and what was answered. Its type keeps that all of it was allowed.

use std::alloc::{AllocError, Global};
use std::marker::Model;
use zr_command::{Answer, Cmd};
use zr_jobset::JobSet;
use zr_names::Unit;

/// What a unit asked and was told so far. Each command was allowed when it was given.
#[derive(Drop)]
pub struct Log<'a> {
    jobs: &'a JobSet,
    unit: Unit,
    turns: Vec<(Cmd, Answer)>,
}

impl<'a> Model for Log<'a> {
    ghost use Rattle.std.specs.Prelude.{◌-◌, vec_capacity, vec_len};
    ghost use Rattle.zr_permit.specs.Seen.{Seen};
    ghost use Rattle.zr_permit.specs.Transcript.{Legal};

    ghost Value = { Seen };

    ghost view = { λ l. record {
      jobs = l.jobs.now;
      unit = l.unit;
      turns = l.turns.items;
      room = vec_capacity l.turns - vec_len l.turns;
    } };

    ghost invariant = { λ l. Legal l.jobs.now l.unit l.turns.items };
}

impl<'a> Log<'a> {
    ghost use Rattle.std.specs.Prelude.{◌≡◌, ◌<◌, ◌++◌, ◌∷◌, [], slice_get, length, OnOk, OnErr};
    ghost use Rattle.std.specs.Option.{option_copied};
    ghost use Rattle.zr_permit.specs.Transcript.{Allowed, Legal};

    pub(crate) fn new(alloc: Global, jobs: &'a JobSet, unit: Unit) -> Log<'a>
        ensures jobs { result.jobs ≡ jobs.now }
        ensures unit { result.unit ≡ unit }
        ensures turns { result.turns ≡ [] }
    {
        Log {
            jobs,
            unit,
            turns: Vec::new(alloc),
        }
    }

    pub fn unit(&self) -> &Unit
        ensures { result.now ≡ self.now.unit }
    {
        &self.unit
    }

    pub fn jobs(&self) -> &'a JobSet
        ensures { result.now ≡ self.now.jobs }
    {
        self.jobs
    }

    pub fn turns(&self) -> &[(Cmd, Answer)]
        ensures turns { result.now ≡ self.now.turns }
        ensures legal { Legal self.now.jobs self.now.unit self.now.turns }
    {
        let _ = &self.unit;
        self.turns.as_slice()
    }

    /// Makes room for one more turn.
    pub(crate) fn make_room(&mut self) -> Result<(), AllocError>
        ensures jobs { self.new.jobs ≡ self.old.jobs }
        ensures unit { self.new.unit ≡ self.old.unit }
        ensures turns { self.new.turns ≡ self.old.turns }
        ensures room { OnOk result (0 < self.new.room) }
    {
        self.turns.reserve(1)
    }

    pub(crate) fn note(&mut self, cmd: Cmd, answer: Answer)
        requires room { 0 < self.old.room }
        requires allowed { Allowed self.old.jobs self.old.unit self.old.turns cmd }
        ensures jobs { self.new.jobs ≡ self.old.jobs }
        ensures unit { self.new.unit ≡ self.old.unit }
        ensures turns { self.new.turns ≡ self.old.turns ++ (cmd, answer) ∷ [] }
    {
        self.turns.push_reserved((cmd, answer));
    }
}
