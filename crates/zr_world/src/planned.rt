//! Which call is to fail, and how much of it comes before.

use crate::effects::Extent;

/// A call that is to fail, counted from 1, and how much of its effect comes before.
#[derive(Clone, Copy, PartialEq, Eq)]
pub struct PlannedFailure {
    pub call: u64,
    pub extent: Extent,
}

impl PlannedFailure {
    ghost use Rattle.std.specs.Prelude.{◌≡◌};
    ghost use Rattle.zr_world.specs.Planned.{planned_at};

    /// The extent at which this call is to fail, if it is.
    pub fn find(failing: &[PlannedFailure], call: u64) -> Option<Extent>
        ensures { result ≡ planned_at failing.now call }
    {
        let planned = failing.iter().find(|planned| planned.call == call)?;
        Some(planned.extent)
    }
}
