//! The name by which a sink knows a client.

ghost use Rattle.std.specs.Prelude.{◌≡◌};
ghost use Rattle.zr_jobs.specs.Identities.{ReadsIdentity, is_dot_name};

use std::alloc::Global;
use std::marker::Model;
use zr_names::{JobName, NameFault, read_job};

/// The identity of a client, below which a sink puts what that client pushes: a job's name that can
/// be a component of a path.
#[derive(Drop)]
pub struct Identity {
    name: JobName,
}

impl Model for Identity {
    ghost use Rattle.std.specs.Prelude.{List, ℕ};
    ghost use Rattle.zr_jobs.specs.Identities.{IsIdentity};

    ghost Value = { List ℕ };

    ghost view = { λ i. i.name };

    ghost inverse = { λ text. record { name = text } };

    ghost invariant = { λ i. IsIdentity i.name };
}

/// Why a text is no identity.
#[derive(Clone, Copy, PartialEq, Eq)]
pub enum IdentityFault {
    /// The text is `.` or `..`.
    Dots,
    /// The text is no job's name, or memory was refused.
    Name(NameFault),
}

impl From<NameFault> for IdentityFault {
    ghost use Rattle.std.specs.Prelude.{◌≡◌};
    ghost use Rattle.zr_jobs.specs.declared.identity.IdentityFault.TheVariants.{Name};

    ghost from_gives = { λ name fault. fault ≡ Name name };

    fn from(fault: NameFault) -> IdentityFault {
        IdentityFault::Name(fault)
    }
}

impl Identity {
    ghost use Rattle.std.specs.Prelude.{◌≡◌};
    ghost use Rattle.zr_jobs.specs.Identities.{IsIdentity};

    pub fn as_bytes(&self) -> &[u8]
        ensures value { result.now ≡ self.now }
        ensures identity { IsIdentity self.now }
    {
        self.name.as_bytes()
    }
}

fn is_dot_name(text: &[u8]) -> bool
    ensures { result ≡ is_dot_name text.now }
{
    text == b".".as_slice() || text == b"..".as_slice()
}

/// Reads the identity of a client.
pub fn read_identity(alloc: Global, text: &[u8]) -> Result<Identity, IdentityFault>
    ensures { ReadsIdentity text.now result }
{
    if is_dot_name(text) {
        return Err(IdentityFault::Dots);
    }
    Ok(Identity {
        name: read_job(alloc, text)?,
    })
}
