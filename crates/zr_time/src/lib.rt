//! Stamps: moments in the names of snapshots.
#![tactic(auto)]

mod civil;
mod digits;
mod text;

pub use text::{
    BadStamp, StampText, read_stamp, read_stamp_is_written_again, stamp, stamp_is_read_again,
    stamps_stand_as_moments,
};
