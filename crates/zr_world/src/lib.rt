//! The pools of ZFS as a model, what each command does to them, and runners of commands.
#![tactic(auto)]

pub use acting::act;
pub use effects::{ApplyFault, Extent, Refusal, apply};
pub use mem::MemZfs;
pub use planned::PlannedFailure;
pub use pools::{Dataset, Partial, Pools, Version};
pub use token::partial_of_token;
pub use zfs::Zfs;
pub use zr_command::{
    Answer, Base, Cmd, Entry, Names, NamesFault, Reply, SetRow, TokenInfo, Transfer, VersionName,
    VersionRow, read_names,
};

pub mod acting;
mod changes;
pub mod effects;
pub mod laws;
pub mod mem;
pub mod planned;
pub mod pools;
mod reasons;
pub mod token;
pub mod zfs;
