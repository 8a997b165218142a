//! The lines that are printed: the totals and the usage.

ghost use Rattle.std.specs.Prelude.{◌≡◌, [], ◌∷◌, ◌++◌, IfOk, OnOk};
ghost use Rattle.std.specs.String.{string_bytes};
ghost use Rattle.std.specs.Fmt.{decimal};
ghost use Rattle.zr_top.specs.Totals.{ends_text, field, places_text, steps_text, totals_text, units_text};

use std::alloc::{AllocError, Global};
use zr_names::Totals;

/// What is printed where the words are no command, with its newline.
pub const USAGE: &str =
    "usage: zrepl once|daemon|configcheck|status|plan FILE, or drill NUMBER; options --workers N --ticks N --zfs PROGRAM\n";

#[tactic(auto, unfolding(crate::specs::Totals::field))]
fn put_field(line: &mut String, name: &str, value: u64) -> Result<(), AllocError>
    ensures { OnOk result (string_bytes line.new ≡ string_bytes line.old ++ field name.now value) }
{
    line.push_str(name)?;
    write!(line, "={value}")
}

fn put_next(line: &mut String, name: &str, value: u64) -> Result<(), AllocError>
    ensures { OnOk result (string_bytes line.new
        ≡ string_bytes line.old ++ 32 ∷ field name.now value) }
{
    line.push(' ')?;
    put_field(line, name, value)
}

#[tactic(auto, unfolding(crate::specs::Totals::units_text))]
fn put_units(line: &mut String, totals: &Totals) -> Result<(), AllocError>
    ensures { OnOk result (string_bytes line.new ≡ string_bytes line.old ++ units_text totals.now) }
{
    put_field(line, "due", totals.due)?;
    put_next(line, "done", totals.done)?;
    put_next(line, "coalesced", totals.coalesced)?;
    put_next(line, "taken", totals.taken)?;
    put_next(line, "fresh", totals.fresh)
}

#[tactic(auto, unfolding(crate::specs::Totals::steps_text))]
fn put_steps(line: &mut String, totals: &Totals) -> Result<(), AllocError>
    ensures { OnOk result (string_bytes line.new ≡ string_bytes line.old ++ steps_text totals.now) }
{
    put_field(line, "steps", totals.steps)?;
    put_next(line, "uptodate", totals.uptodate)?;
    put_next(line, "conflicts", totals.conflicts)?;
    put_next(line, "destroyed", totals.destroyed)?;
    put_next(line, "busy", totals.busy)
}

#[tactic(auto, unfolding(crate::specs::Totals::places_text))]
fn put_places(line: &mut String, totals: &Totals) -> Result<(), AllocError>
    ensures { OnOk result (string_bytes line.new
        ≡ string_bytes line.old ++ places_text totals.now) }
{
    put_field(line, "placeholders", totals.placeholders)?;
    put_next(line, "toolong", totals.toolong)
}

#[tactic(auto, unfolding(crate::specs::Totals::ends_text))]
fn put_ends(line: &mut String, totals: &Totals) -> Result<(), AllocError>
    ensures { OnOk result (string_bytes line.new ≡ string_bytes line.old ++ ends_text totals.now) }
{
    put_field(line, "faults", totals.faults)?;
    put_next(line, "garbled", totals.garbled)?;
    put_next(line, "nomemory", totals.nomemory)
}

/// The totals as one line, with its newline.
pub fn totals_line(alloc: Global, totals: &Totals) -> Result<String, AllocError>
    ensures { IfOk result (λ line. string_bytes line ≡ totals_text totals.now ++ 10 ∷ []) }
{
    let mut line = String::new(alloc);
    put_units(&mut line, totals)?;
    line.push(' ')?;
    put_steps(&mut line, totals)?;
    line.push(' ')?;
    put_places(&mut line, totals)?;
    line.push(' ')?;
    put_ends(&mut line, totals)?;
    line.push('\n')?;
    Ok(line)
}
