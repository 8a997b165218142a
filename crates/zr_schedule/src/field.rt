//! A field of a cron text: items parted by commas.

ghost use Rattle.std.specs.Prelude.{◌≡◌, ◌+◌, ◌<◌, ◌∷◌, length};
ghost use Rattle.std.specs.List.{position};
ghost use Rattle.std.specs.Option.{option_map};
ghost use Rattle.zr_schedule.specs.Words.{parted, is_comma, parts_after, length_after};
ghost use Rattle.zr_schedule.specs.Fault.{ReadsField};

use crate::item::{Limits, read_item, values};
use crate::spec::union;

fn first_comma(text: &[u8]) -> Option<usize>
    ensures { result ≡ position is_comma text.now }
{
    text.iter().position(|b| *b == b',')
}

/// What comes before the first comma, and what comes after it.
#[tactic(auto, using(crate::proofs::Parts::cut_some, crate::proofs::Parts::cut_none, crate::proofs::Parts::place_within))]
fn cut_at_comma(text: &[u8]) -> (&[u8], Option<&[u8]>)
    ensures parts { parted is_comma text.now
        ≡ result.0.now ∷ parts_after (option_map (λ more. more.now) result.1) }
    ensures lengths { length result.0.now + length_after (option_map (λ more. more.now) result.1)
        ≡ length text.now }
{
    match first_comma(text) {
        Some(end) => (&text[..end], Some(&text[end + 1..])),
        None => (text, None),
    }
}

/// The values of a field, as a set, or the byte of it at which it goes wrong.
pub fn read_field(text: &[u8], limits: Limits) -> Result<u64, usize>
    requires { limits.high < 64 }
    ensures { ReadsField limits text.now result }
{
    let mut set = 0;
    let mut rest = text;
    'items: loop {
        let (part, more) = cut_at_comma(rest);
        match read_item(part, limits) {
            Ok(item) => set = union(set, values(item)),
            Err(place) => return Err(text.len() - rest.len() + place),
        }
        match more {
            Some(more) => rest = more,
            None => return Ok(set),
        }
    }
}
