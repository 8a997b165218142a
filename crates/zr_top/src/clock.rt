//! What tells the moment at which units are due.

ghost use Rattle.std.specs.Prelude.{ℕ, List, Option};
ghost use Rattle.zr_top.specs.Clock.{Ticks};

use std::marker::Model;
use zr_names::Moment;

/// Gives one moment after the other.
pub trait Clock {
    /// The moments that are still to come, where they are told.
    ghost moments: { Self → Option (List ℕ) };

    /// The next moment, or `None` where the clock has ended.
    fn tick(&mut self) -> Option<Moment>
        ensures { Ticks (moments self.old) result (moments self.new) };
}

/// A clock that gives the moments of a list.
#[derive(Drop)]
pub struct MemClock {
    moments: Vec<Moment>,
}

impl Model for MemClock {
    ghost use Rattle.std.specs.Prelude.{List, ℕ, reverse};

    ghost Value = { List ℕ };

    ghost view = { λ c. reverse c.moments.items };
}

impl MemClock {
    ghost use Rattle.std.specs.Prelude.{◌≡◌, reverse};

    pub fn new(moments: Vec<Moment>) -> MemClock
        ensures { result ≡ moments.items }
    {
        let mut moments = moments;
        moments.reverse();
        MemClock { moments }
    }
}

impl Clock for MemClock {
    ghost use Rattle.std.specs.Prelude.{Some};

    ghost moments = { λ c. Some c };

    fn tick(&mut self) -> Option<Moment> {
        self.moments.pop()
    }
}
