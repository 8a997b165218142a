//! A moment: a count of milliseconds since 1970, before the year 3000.

ghost use Rattle.std.specs.Prelude.{◌≡◌, ◌<◌, ◌↔◌, IsSome, IfSome};

use std::marker::Model;

/// The first millisecond that is no moment: the beginning of the year 3000 in UTC.
pub const END_OF_TIME: u64 = 32_503_680_000_000;

/// A count of milliseconds since 1970-01-01T00:00:00Z, before the year 3000.
#[derive(Clone, Copy, PartialEq, Eq, PartialOrd, Ord)]
pub struct Moment {
    ms: u64,
}

impl Model for Moment {
    ghost use Rattle.std.specs.Prelude.{ℕ, ◌<◌};
    ghost use Rattle.zr_names.specs.declared.moment.TheConstants.{END_OF_TIME};

    ghost Value = { ℕ };

    ghost view = { λ m. m.ms };

    ghost inverse = { λ ms. record { ms = ms } };

    ghost invariant = { λ m. m.ms < END_OF_TIME };
}

impl Moment {
    pub fn new(ms: u64) -> Option<Moment>
        ensures exists { IsSome result ↔ (ms < END_OF_TIME) }
        ensures value { IfSome result (λ moment. moment ≡ ms) }
    {
        if ms < END_OF_TIME {
            Some(Moment { ms })
        } else {
            None
        }
    }

    /// Milliseconds since 1970-01-01T00:00:00Z.
    pub fn ms(&self) -> u64
        ensures value { result ≡ self.now }
        ensures before_the_end { result < END_OF_TIME }
    {
        self.ms
    }
}
