//! Where a source is replicated to: the path of its target. Apart from `job`, since it knows no
//! job.

ghost use Rattle.std.specs.Prelude.{◌≡◌, IfOk, length};
ghost use Rattle.zr_jobs.specs.Targets.{HasIdentity, IsTarget, joined, root_of, target_text};
ghost use Rattle.zr_names.specs.Names.{IsName, path_is_bad};
ghost use Rattle.zr_names.specs.declared.names.TheConstants.{PATH_LIMIT};

use crate::identity::Identity;
use std::alloc::{AllocError, Global};
use zr_names::{Bytes, Path};

/// The longest target, in bytes. A bookmark's name of the longest kind, as of a tentative cursor, has
/// 24 bytes `zrepl_CURSORTENTATIVE_G_`, 16 digits, 3 bytes `_J_` and at most 64 of a job, which is 107.
/// With a `#` between it still fits behind the path into the 255 bytes of a name: 147 + 1 + 107 = 255.
pub const LONGEST_PATH: usize = 147;

/// Where a job puts what it replicates (zrepl's documentation, jobs `push`, `sink` and `pull`).
#[derive(Drop)]
pub enum Destination {
    /// Below a sink's root, and there below the client that pushes.
    Push { root: Path, identity: Identity },
    /// Below the root of the job that pulls.
    Pull { root: Path },
}

impl Destination {
    ghost use Rattle.std.specs.Prelude.{◌≡◌};
    ghost use Rattle.zr_jobs.specs.Targets.{root_of};

    /// The root below which all of its targets lie.
    pub fn root(&self) -> &Path
        ensures { result.now ≡ root_of self.now }
    {
        match self {
            Destination::Push { root, .. } | Destination::Pull { root } => root,
        }
    }
}

/// Why a source has no target.
#[derive(Clone, Copy, PartialEq, Eq)]
pub enum TargetFault {
    /// The target would have so many bytes; 147 are the most.
    NameTooLong(usize),
    /// Memory was refused.
    NoMemory,
}

impl From<AllocError> for TargetFault {
    ghost use Rattle.std.specs.Prelude.{◌≡◌};
    ghost use Rattle.zr_jobs.specs.declared.target.TargetFault.TheVariants.{NoMemory};

    ghost from_gives = { λ _ fault. fault ≡ NoMemory };

    fn from(_error: AllocError) -> TargetFault {
        TargetFault::NoMemory
    }
}

/// The length of the path at which a destination keeps a source, in bytes.
pub fn target_length(place: &Destination, source: &Path) -> usize
    ensures length { result ≡ length (target_text place.now source.now) }
    ensures identity { HasIdentity place.now }
    ensures root { IsName path_is_bad PATH_LIMIT (root_of place.now) }
    ensures source { IsName path_is_bad PATH_LIMIT source.now }
{
    let source = source.as_bytes().len();
    match place {
        Destination::Push { root, identity } => {
            root.as_bytes().len() + 1 + identity.as_bytes().len() + 1 + source
        }
        Destination::Pull { root } => root.as_bytes().len() + 1 + source,
    }
}

fn joined(alloc: Global, path: &[u8], rest: &[u8]) -> Result<Vec<u8>, AllocError>
    ensures { IfOk result (λ text. text.items ≡ joined path.now rest.now) }
{
    let mut text = Vec::from_slice(alloc, path)?;
    text.extend_from_slice(b"/")?;
    text.extend_from_slice(rest)?;
    Ok(text)
}

fn target_bytes(alloc: Global, place: &Destination, source: &Path) -> Result<Vec<u8>, AllocError>
    ensures { IfOk result (λ text. text.items ≡ target_text place.now source.now) }
{
    match place {
        Destination::Push { root, identity } => {
            let own = joined(alloc, identity.as_bytes(), source.as_bytes())?;
            joined(alloc, root.as_bytes(), own.as_slice())
        }
        Destination::Pull { root } => joined(alloc, root.as_bytes(), source.as_bytes()),
    }
}

/// The path at which a destination keeps a source.
pub fn target_of(alloc: Global, place: &Destination, source: &Path) -> Result<Path, TargetFault>
    ensures target { IsTarget place.now source.now result }
    ensures identity { HasIdentity place.now }
{
    let length = target_length(place, source);
    if length > LONGEST_PATH {
        return Err(TargetFault::NameTooLong(length));
    }
    let text = target_bytes(alloc, place, source)?;
    Ok(Path::new(Bytes::from_vec(text)))
}
