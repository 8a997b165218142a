//! What holds of targets and limits, for those who keep jobs apart.

ghost use Rattle.zr_jobs.specs.declared.target.TheConstants.{LONGEST_PATH};
ghost use Rattle.std.specs.Prelude.{◌≡◌, ◌≢◌, List, ℕ};
ghost use Rattle.zr_jobs.specs.Targets.{AreApart, HasIdentity, IsBelow, root_of, target_text};
ghost use Rattle.zr_jobs.specs.declared.target.Destination.{Destination};

/// Destinations that are apart never share a target, and in one destination each source has its own.
pub fn targets_differ()
    ensures apart { (a b : Destination) (x y : List ℕ) → HasIdentity a → HasIdentity b →
        AreApart a b → target_text a x ≢ target_text b y }
    ensures sources { (a : Destination) (x y : List ℕ) → target_text a x ≡ target_text a y → x ≡ y }
{}

/// A target is below its root.
pub fn targets_are_below_their_root()
    ensures { (place : Destination) (source : List ℕ)
        → IsBelow (root_of place) (target_text place source) }
{}

/// The most bytes of a path on which a job's units work.
pub fn longest_path()
    ensures { LONGEST_PATH ≡ 147 }
{}
