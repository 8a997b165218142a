//! The units of one job that wait, in the order of adding.

ghost use Rattle.std.specs.Prelude.{◌≡◌, ◌+◌, ◌-◌, ◌<◌, ◌≤◌, [], ◌∷◌, ◌++◌, length, OnOk, Some, remove, slice_get};

use std::alloc::{AllocError, Global};
use std::marker::Model;
use zr_names::Unit;

#[derive(Drop)]
pub(crate) struct Line {
    units: Vec<Unit>,
}

impl Model for Line {
    ghost use Rattle.std.specs.Prelude.{◌-◌, length};
    ghost use Rattle.std.specs.Vec.{vec_capacity};
    ghost use Rattle.zr_ledger.specs.Queue.{Lined};

    ghost Value = { Lined };

    ghost view = { λ l. record {
      units = l.units.items;
      room = vec_capacity l.units - length l.units.items;
    } };
}

impl Line {
    pub(crate) fn new(alloc: Global) -> Line
        ensures { result.units ≡ [] }
    {
        Line {
            units: Vec::new(alloc),
        }
    }

    pub(crate) fn as_slice(&self) -> &[Unit]
        ensures { result.now ≡ self.now.units }
    {
        self.units.as_slice()
    }

    /// Makes room for so many more units.
    pub(crate) fn reserve(&mut self, more: usize) -> Result<(), AllocError>
        ensures units { self.new.units ≡ self.old.units }
        ensures wider { self.old.room ≤ self.new.room }
        ensures ok { OnOk result (more ≤ self.new.room) }
    {
        self.units.reserve(more)
    }

    pub(crate) fn push(&mut self, unit: Unit)
        requires { 1 ≤ self.old.room }
        ensures units { self.new.units ≡ self.old.units ++ unit ∷ [] }
        ensures room { self.new.room + 1 ≡ self.old.room }
    {
        self.units.push_reserved(unit);
    }

    pub(crate) fn take_out(&mut self, place: usize) -> Unit
        requires { place < length self.old.units }
        ensures unit { slice_get self.old.units place ≡ Some result }
        ensures units { self.new.units ≡ remove self.old.units place }
        ensures room { self.old.room ≤ self.new.room }
    {
        self.units.remove(place)
    }
}
