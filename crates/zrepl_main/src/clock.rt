//! The system's clock.

ghost use Rattle.std.specs.Prelude.{◌≡◌, ◌+◌, ◌*◌, ◌/◌, ◌%◌, ◌<◌, ◌≤◌, ◌↔◌, None, IsSome, IfSome};
ghost use Rattle.std.specs.Duration.{as_nanos};
ghost use Rattle.zr_names.specs.declared.moment.TheConstants.{END_OF_TIME};

use std::time::{Duration, SystemTime};
use std::{thread, time};
use zr_names::Moment;
use zr_top::Clock;

/// The system's clock, at whole seconds. It ends where it can't be read, and at the year 3000.
#[derive(Drop)]
pub struct RealClock<C> {
    clock: C,
}

impl<C: time::Clock> RealClock<C> {
    pub fn new(clock: C) -> RealClock<C> {
        RealClock { clock }
    }

    fn now(&self) -> Option<Duration> {
        let now = SystemTime::now(&self.clock).ok()?;
        now.duration_since(SystemTime::UNIX_EPOCH).ok()
    }
}

/// The whole second that comes after a time since 1970, and how long it is until then.
fn next_second(now: Duration) -> Option<(Moment, Duration)>
    ensures whole { IfSome result (λ next. next.0 % 1_000 ≡ 0) }
    ensures reached { IfSome result (λ next. as_nanos now + as_nanos next.1 ≡ next.0 * 1_000_000) }
    ensures later { IfSome result (λ next. 0 < as_nanos next.1) }
    ensures soon { IfSome result (λ next. as_nanos next.1 ≤ 1_000_000_000) }
    ensures exists { IsSome result ↔ ((as_nanos now / 1_000_000_000 + 1) * 1_000 < END_OF_TIME) }
{
    let second = now.as_secs().checked_add(1)?;
    let moment = Moment::new(second.checked_mul(1_000)?)?;
    let wait = Duration::from_secs(second).checked_sub(now)?;
    Some((moment, wait))
}

impl<C: time::Clock> Clock for RealClock<C> {
    ghost moments = { λ _. None };

    /// Sleeps until the next whole second, and gives that moment.
    fn tick(&mut self) -> Option<Moment> {
        let (moment, wait) = next_second(self.now()?)?;
        thread::sleep(&self.clock, wait);
        Some(moment)
    }
}
