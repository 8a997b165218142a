//! The canonical text of a grid.

ghost use Rattle.std.specs.Prelude.{◌≡◌, ◌++◌, List, Result, OnOk, IfOk, MatchResult};
ghost use Rattle.std.specs.List.{flat_map};
ghost use Rattle.std.specs.String.{string_bytes};
ghost use Rattle.zr_grid.specs.declared.grid.Interval.{Interval as IntervalValue};
ghost use Rattle.zr_grid.specs.declared.grid.GridSpec.{GridSpec as GridSpecValue};
ghost use Rattle.zr_grid.specs.declared.grid.GridFault.{GridFault as GridFaultValue};
ghost use Rattle.zr_grid.specs.Grid.{IsGrid, ReadsGrid};
ghost use Rattle.zr_grid.specs.Grammar.{Grid};
ghost use Rattle.zr_grid.specs.Canonical.{interval_text, next_text, grid_text};

use crate::grid::{GridFault, GridSpec, Interval, Keep};
use std::alloc::{AllocError, Global};

fn print_interval(text: &mut String, interval: &Interval) -> Result<(), AllocError>
    ensures { OnOk result (string_bytes text.new
        ≡ string_bytes text.old ++ interval_text interval.now) }
{
    write!(text, "{}x{}s", interval.count, interval.width)?;
    match interval.keep {
        Keep::All => text.push_str("(keep=all)")?,
        Keep::Most(1) => {}
        Keep::Most(most) => write!(text, "(keep={most})")?,
    }
    Ok(())
}

fn print_others(text: &mut String, others: &[Interval]) -> Result<(), AllocError>
    ensures { OnOk result (string_bytes text.new
        ≡ string_bytes text.old ++ flat_map next_text others.now) }
{
    for interval in others {
        text.push_str(" | ")?;
        print_interval(text, interval)?;
    }
    Ok(())
}

fn print_intervals(alloc: Global, intervals: &[Interval]) -> Result<Vec<u8>, AllocError>
    ensures { IfOk result (λ text. text.items ≡ grid_text intervals.now) }
{
    let mut text = String::new(alloc);
    if let [first, others @ ..] = intervals {
        print_interval(&mut text, first)?;
        print_others(&mut text, others)?;
    }
    Ok(text.into_bytes())
}

/// The canonical text of a grid: widths in seconds, and no brackets where one is kept.
pub fn print_grid(alloc: Global, spec: &GridSpec) -> Result<Vec<u8>, AllocError>
    ensures canonical { IfOk result (λ text. text.items ≡ grid_text spec.now.intervals) }
    ensures read_again { IsGrid spec.now.intervals
        → IfOk result (λ text. Grid spec.now.intervals text.items) }
{
    print_intervals(alloc, spec.intervals.as_slice())
}

/// What `print_grid` writes of a grid, `read_grid` reads as that grid, unless memory runs out.
pub fn printed_grid_is_read_again()
    ensures { (intervals : List IntervalValue) (answer : Result GridSpecValue GridFaultValue)
        → IsGrid intervals → ReadsGrid (grid_text intervals) answer
        → MatchResult answer (λ spec. spec.intervals ≡ intervals)
        (λ fault. fault ≡ GridFault.NoMemory) }
{}
