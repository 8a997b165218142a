//! Spans of time and retention grids: their texts, and the snapshots that a grid keeps.
#![tactic(auto)]

mod form;
mod grid;
mod kept;
mod print;
mod scan;
mod span;
mod sweep;

pub use grid::{
    GridFault, GridSpec, Interval, Intervals, Keep, MAX_INTERVALS, MAX_KEEP, is_grid, read_grid,
};
pub use kept::{GridRow, grid_keeps, is_ascending};
pub use print::{print_grid, printed_grid_is_read_again};
pub use span::{MAX_SPAN, SpanFault, read_span};
