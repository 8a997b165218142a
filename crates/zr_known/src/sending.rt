//! The one transfer that a replication may give next, by its plan.

ghost use Rattle.std.specs.Prelude.{◌≡◌};
ghost use Rattle.zr_known.specs.Replication.{is_there};

use crate::known::{Known, Presence, Receiving};
use std::alloc::Global;
use zr_command::{Base, Transfer};
use zr_jobs::Pair;
use zr_names::{Guid, Initial, NoMemory, Same, cursor_name};
use zr_plan::{Planned, Source, Step, Target, plan};

pub(crate) fn is_there(presence: Presence) -> bool
    ensures { result ≡ is_there presence }
{
    matches!(presence, Presence::There(_))
}

impl Known {
    ghost use Rattle.std.specs.Prelude.{◌≡◌, IfOk, option_map};
    ghost use Rattle.zr_known.specs.Known.{target_rows};
    ghost use Rattle.zr_known.specs.Replication.{next_transfer, plan_known, planned_onto, transfer_of_step};
    ghost use Rattle.zr_plan.specs.Sides.{onto};

    /// What a plan knows of the target.
    fn planned_onto(&self) -> Option<Target<'_>>
        ensures { option_map onto result ≡ planned_onto self.now.presence (target_rows self.now) }
    {
        match (self.presence, &self.arrived) {
            (Presence::Absent, _) => Some(Target {
                there: false,
                placeholder: false,
                listing: &[],
                arrived: &[],
                partial: None,
            }),
            (Presence::There(flag), Some(arrived)) => Some(Target {
                there: true,
                placeholder: flag,
                listing: self.target.rows(),
                arrived: arrived.as_slice(),
                partial: None,
            }),
            (Presence::Unlisted, _) | (Presence::There(_), None) => None,
        }
    }

    /// The plan over what is known, where that is enough for one.
    pub fn plan_known(&self, alloc: Global, pair: &Pair) -> Result<Option<Planned>, NoMemory>
        ensures { IfOk result (λ planned. planned ≡ plan_known pair.now self.now) }
    {
        let (Some(rows), Some(target)) = (&self.source.listing, self.planned_onto()) else {
            return Ok(None);
        };
        match self.receiving {
            Receiving::Unknown => Ok(None),
            Receiving::Nothing => {
                let source = Source {
                    listing: rows.as_slice(),
                    marks: self.marks.as_slice(),
                };
                let planned = plan(alloc, &pair.job, &source, &target, Initial::MostRecent)?;
                Ok(Some(planned))
            }
        }
    }

    /// The transfer of a step: in full, or from the cursor of the target's newest snapshot.
    fn transfer_of_step(
        &self,
        alloc: Global,
        pair: &Pair,
        step: &Step,
    ) -> Result<Option<Transfer>, NoMemory>
        ensures { IfOk result (λ transfer. transfer
            ≡ transfer_of_step pair.now self.now step.now step.now.full) }
    {
        let (base, force) = if step.full {
            (Base::Full, is_there(self.presence))
        } else {
            let Some(last) = self.newest() else {
                return Ok(None);
            };
            (
                Base::From(cursor_name(alloc, last.guid, &pair.job)?, last.guid),
                false,
            )
        };
        Ok(Some(Transfer {
            source: pair.source.same()?,
            to: step.to.same()?,
            guid: step.guid,
            base,
            target: pair.target.same()?,
            force,
        }))
    }

    /// The one transfer that may come next: that of the plan's first step.
    pub fn next_transfer(&self, alloc: Global, pair: &Pair) -> Result<Option<Transfer>, NoMemory>
        ensures { IfOk result (λ transfer. transfer ≡ next_transfer pair.now self.now) }
    {
        let Some(Planned::Steps(steps)) = self.plan_known(alloc, pair)? else {
            return Ok(None);
        };
        match steps.as_slice().first() {
            Some(step) => self.transfer_of_step(alloc, pair, step),
            None => Ok(None),
        }
    }
}
