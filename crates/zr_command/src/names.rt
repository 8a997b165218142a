//! Some snapshots of one dataset, which one command names together.

ghost use Rattle.std.specs.Prelude.{◌≡◌, ◌≢◌, AllPairs};
ghost use Rattle.std.specs.List.{list_any};
ghost use Rattle.std.specs.Option.{MatchOption};
ghost use Rattle.zr_command.specs.Group.{IsFirstRepeated, ReadsNames};
ghost use Rattle.zr_command.specs.Names.{same_text};

use std::alloc::{AllocError, Global};
use std::marker::Model;
use zr_names::{Rows, Same, SnapName};

/// How many snapshots one command names at most.
pub const NAMES_LIMIT: usize = 64;

/// 1 to 64 names of snapshots of one dataset, no two of them the same.
#[derive(Drop)]
pub struct Names {
    list: Rows<SnapName>,
}

impl Model for Names {
    ghost use Rattle.std.specs.Prelude.{List, ℕ};
    ghost use Rattle.zr_command.specs.Group.{AreNames};

    ghost Value = { List (List ℕ) };

    ghost view = { λ names. names.list };

    ghost inverse = { λ list. record { list = list } };

    ghost invariant = { λ names. AreNames names.list };
}

/// Why names are no group.
#[derive(Clone, Copy)]
pub enum NamesFault {
    /// They are this many, which is none or more than 64.
    Count(usize),
    /// The name at this place, counted from 0, is the first that stands before.
    Repeated(usize),
}

/// Whether a name is among these.
fn is_among(names: &[SnapName], name: &SnapName) -> bool
    ensures { result ≡ list_any (λ other. same_text other name.now) names.now }
{
    names.iter().any(|other| *other == *name)
}

/// The first place of a name that stands before.
fn first_repeated(names: &[SnapName]) -> Option<usize>
    ensures { MatchOption result (AllPairs (λ a b. a ≢ b) names.now) (IsFirstRepeated names.now) }
{
    for place in 0..names.len() {
        if is_among(&names[..place], &names[place]) {
            return Some(place);
        }
    }
    None
}

/// Puts names together in their order.
pub fn read_names(list: Vec<SnapName>) -> Result<Names, NamesFault>
    ensures { ReadsNames list.items result }
{
    if list.is_empty() || list.len() > NAMES_LIMIT {
        return Err(NamesFault::Count(list.len()));
    }
    match first_repeated(list.as_slice()) {
        Some(place) => Err(NamesFault::Repeated(place)),
        None => Ok(Names {
            list: Rows::from_vec(list),
        }),
    }
}

impl Names {
    ghost use Rattle.std.specs.Prelude.{◌≡◌, [], ◌∷◌, IfOk};
    ghost use Rattle.zr_command.specs.Group.{AreNames};

    /// A single name.
    pub fn one(alloc: Global, name: SnapName) -> Result<Names, AllocError>
        ensures { IfOk result (λ names. names ≡ name ∷ []) }
    {
        let mut list = Vec::new(alloc);
        list.push(name)?;
        Ok(Names {
            list: Rows::from_vec(list),
        })
    }

    /// The names in their order.
    pub fn as_slice(&self) -> &[SnapName]
        ensures value { result.now ≡ self.now }
        ensures names { AreNames self.now }
    {
        self.list.as_slice()
    }
}

impl Same for Names {
    fn same(&self) -> Result<Names, AllocError> {
        Ok(Names {
            list: self.list.same()?,
        })
    }
}
