//! The limit of a job file, as a law.

ghost use Rattle.std.specs.Prelude.{◌≡◌};
ghost use Rattle.zr_jobfile.specs.declared.TheConstants.{FILE_LIMIT};

/// The most bytes of a job file: 1 MiB.
pub fn file_limit()
    ensures { FILE_LIMIT ≡ 1048576 }
{}
