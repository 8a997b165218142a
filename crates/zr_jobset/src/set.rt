//! A set of jobs that no check refuses.

ghost use Rattle.std.specs.Prelude.{◌≡◌};

use crate::job::Job;
use std::marker::Model;
use zr_names::{JobName, Rows};

/// How many jobs a file may have.
pub const MAX_JOBS: usize = 64;

/// The jobs of a file with their names, in its order. The type keeps that each has the fields of its kind and that no
/// check refuses them.
#[derive(Drop)]
pub struct JobSet {
    names: Rows<JobName>,
    jobs: Rows<Job>,
}

impl Model for JobSet {
    ghost use Rattle.zr_jobset.specs.Sets.{IsChecked, Jobs, set_of};

    ghost Value = { Jobs };

    ghost view = { λ set. set_of set.names set.jobs };

    ghost invariant = { λ set. IsChecked (set_of set.names set.jobs) };
}

impl JobSet {
    ghost use Rattle.std.specs.Prelude.{◌≡◌};
    ghost use Rattle.std.specs.Option.{option_copied};
    ghost use Rattle.zr_jobset.specs.Places.{replicates};
    ghost use Rattle.zr_jobset.specs.Sets.{IsChecked, job_at, set_of};

    /// `check` has the tests.
    pub(crate) fn new(names: Rows<JobName>, jobs: Rows<Job>) -> JobSet
        requires { IsChecked (set_of names jobs) }
        ensures { result ≡ set_of names jobs }
    {
        JobSet { names, jobs }
    }

    pub fn names(&self) -> &[JobName]
        ensures names { result.now ≡ self.now.names }
        ensures checked { IsChecked self.now }
    {
        self.names.as_slice()
    }

    pub fn jobs(&self) -> &[Job]
        ensures jobs { result.now ≡ self.now.jobs }
        ensures checked { IsChecked self.now }
    {
        self.jobs.as_slice()
    }

    /// The job of this number.
    pub fn job(&self, number: u32) -> Option<&Job>
        ensures job { option_copied result ≡ job_at self.now number }
        ensures checked { IsChecked self.now }
    {
        self.jobs.as_slice().get(number as usize)
    }

    /// Whether the job of this number is a push or a pull.
    pub fn replicates(&self, number: u32) -> bool
        ensures { result ≡ replicates self.now number }
    {
        match self.job(number) {
            Some(job) => job.kind.is_client(),
            None => false,
        }
    }
}
