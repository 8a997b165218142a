//! The names of ZFS objects, units of work, their outcomes and the totals.
#![tactic(auto)]

pub use marks::{MarkKind, TagKind, cursor_name, is_tag, mark_of, tag_of, tentative_name};
pub use moment::Moment;
pub use names::{JobName, MarkName, Path, Prefix, SnapName, Tag, TokenText};
pub use node::{Node, NodePair, NodeText};
pub use outcome::Outcome;
pub use policy::{Initial, Protection};
pub use reading::{
    NameFault, read_job, read_mark, read_path, read_prefix, read_snap, read_tag, read_token_text,
};
pub use totals::Totals;
pub use unit::{Guid, Unit, Work};
pub use zr_base::{Bytes, NoMemory, Rows, Same, same_items};

mod copies;
pub mod hex;
pub mod laws;
pub mod marks;
pub mod moment;
pub mod names;
pub mod node;
pub mod outcome;
pub mod policy;
pub mod reading;
pub mod totals;
pub mod unit;
