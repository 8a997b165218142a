//! The names that a listing had so far, so that none comes twice. Those that rise cost one
//! comparison each.

ghost use Rattle.std.specs.Prelude.{◌≡◌, ℕ, List};
ghost use Rattle.zr_listing.specs.Names.{AreBelow, is_less, Rises};

use std::alloc::{AllocError, Global};
use std::collections::BTreeSet;

/// The names that were met so far. A name that is greater than all before it was not met, so of names that rise each costs
/// one comparison; only a name that does not rise is looked for, and kept apart.
#[derive(Drop)]
pub(crate) struct Names<'a> {
    /// Each was greater than all before it.
    rising: Vec<&'a [u8]>,
    /// Each was less than the last of those.
    others: BTreeSet<&'a [u8]>,
    ghost ordered: { Rises rising.items },
    ghost below: { AreBelow rising.items others.keys },
}

fn is_less(one: &[u8], other: &[u8]) -> bool
    ensures { result ≡ is_less one.now other.now }
{
    one.cmp(other).is_lt()
}

impl<'a> Names<'a> {
    ghost use Rattle.std.specs.Prelude.{cond, false, not, true, IfOk, OnOk};
    ghost use Rattle.zr_listing.specs.Met.{was_met};
    ghost use Rattle.zr_listing.specs.Names.{is_after, is_among, ties};

    /// No name.
    pub(crate) fn new(alloc: Global) -> Names<'a>
        ensures { (q : List ℕ) → was_met result q ≡ false }
    {
        Names {
            rising: Vec::new(alloc),
            others: BTreeSet::new(alloc),
        }
    }

    /// Whether a name is greater than all that rose.
    fn is_after(&self, name: &[u8]) -> bool
        ensures { result ≡ is_after self.now.rising.items name.now }
    {
        match self.rising.last() {
            Some(last) => is_less(last, name),
            None => true,
        }
    }

    /// Whether a name is among those that rose.
    fn has_risen(&self, name: &[u8]) -> bool
        ensures { result ≡ is_among self.now.rising.items name.now }
    {
        self.rising.binary_search(&name).is_ok()
    }

    /// Takes a name in, and tells whether it was not met before.
    pub(crate) fn insert(&mut self, name: &'a [u8]) -> Result<bool, AllocError>
        ensures added { IfOk result (λ added. added ≡ not (was_met self.old name.now)) }
        ensures met { OnOk result
            ((q : List ℕ) → was_met self.new q ≡ cond (ties name.now q) true (was_met self.old q)) }
    {
        if self.is_after(name) {
            self.rising.push(name)?;
            Ok(true)
        } else if self.has_risen(name) {
            Ok(false)
        } else {
            Ok(self.others.insert(name)?)
        }
    }
}
