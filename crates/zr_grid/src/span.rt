//! Spans of time, as `10m` or `2 d`.

ghost use Rattle.std.specs.Prelude.{◌≡◌};
ghost use Rattle.zr_grid.specs.Scan.{Gives, span_at};
ghost use Rattle.zr_grid.specs.Span.{ReadsSpan};

use crate::scan::{Stop, counted, skip_blanks, unit};

/// The longest span, in seconds: a hundred years of 365 days.
pub const MAX_SPAN: u64 = 3_153_600_000;

/// Why a text is no span.
#[derive(Clone, Copy, PartialEq, Eq)]
pub enum SpanFault {
    /// The text leaves the grammar. The number is the length of its longest front that begins a span.
    BadSpan(usize),
    /// It is a span, but longer than the limit of 3,153,600,000 seconds.
    SpanTooBig,
}

#[tactic(auto, unfolding(crate::specs::Scan::span_at))]
pub(crate) fn span(text: &[u8]) -> Result<(u64, &[u8]), Stop>
    ensures { Gives (λ x. (x.0, x.1.now)) result (span_at text.now) }
{
    let (number, rest) = counted(skip_blanks(text))?;
    let (seconds, rest) = unit(skip_blanks(rest))?;
    Ok((number.saturating_mul(seconds), skip_blanks(rest)))
}

/// The seconds of a span.
pub fn read_span(text: &[u8]) -> Result<u64, SpanFault>
    ensures { ReadsSpan text.now result }
{
    match span(text) {
        Ok((seconds, [])) if seconds <= MAX_SPAN => Ok(seconds),
        Ok((_, [])) => Err(SpanFault::SpanTooBig),
        Ok((_, rest)) => Err(SpanFault::BadSpan(text.len() - rest.len())),
        Err(stop) => Err(SpanFault::BadSpan(text.len() - stop.left)),
    }
}
