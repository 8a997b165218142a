//! The text of one interval of a grid.

ghost use Rattle.std.specs.Prelude.{◌≡◌};
ghost use Rattle.zr_grid.specs.Scan.{Gives, word_at, lexeme_at, number_at, kept_at, brackets_at, keep_at, form_at};

use crate::scan::{Stop, counted, leading_digits, skip_blanks};
use crate::span::span;

/// What is kept, with any number: one above 64 bits is as good as the greatest.
#[derive(Clone, Copy)]
pub enum KeepForm {
    All,
    Most(u64),
}

/// What an interval's text says, before any limit but that of 64 bits.
#[derive(Clone, Copy)]
pub struct Form {
    pub count: u64,
    pub width: u64,
    pub keep: KeepForm,
}

fn word<'a>(text: &'a [u8], word: &[u8]) -> Result<&'a [u8], Stop>
    ensures { Gives (λ rest. rest.now) result (word_at word.now text.now) }
{
    let mut rest = text;
    for letter in word {
        let [first, more @ ..] = rest else {
            return Err(Stop { left: 0 });
        };
        if first != letter {
            return Err(Stop { left: rest.len() });
        }
        rest = more;
    }
    Ok(rest)
}

fn lexeme<'a>(text: &'a [u8], letters: &[u8]) -> Result<&'a [u8], Stop>
    ensures { Gives (λ rest. rest.now) result (lexeme_at letters.now text.now) }
{
    Ok(skip_blanks(word(text, letters)?))
}

fn number(text: &[u8]) -> Result<(u64, &[u8]), Stop>
    ensures { Gives (λ x. (x.0, x.1.now)) result (number_at text.now) }
{
    match text {
        [b'0'..=b'9', ..] => Ok(leading_digits(text)),
        _ => Err(Stop { left: text.len() }),
    }
}

fn kept(text: &[u8]) -> Result<(KeepForm, &[u8]), Stop>
    ensures { Gives (λ x. (x.0, x.1.now)) result (kept_at text.now) }
{
    match text {
        [b'a', ..] => Ok((KeepForm::All, word(text, b"all")?)),
        _ => {
            let (most, rest) = number(text)?;
            Ok((KeepForm::Most(most), rest))
        }
    }
}

#[tactic(auto, unfolding(crate::specs::Scan::brackets_at))]
fn brackets(text: &[u8]) -> Result<(KeepForm, &[u8]), Stop>
    ensures { Gives (λ x. (x.0, x.1.now)) result (brackets_at text.now) }
{
    let rest = lexeme(skip_blanks(text), b"keep")?;
    let rest = lexeme(rest, b"=")?;
    let (keep, rest) = kept(rest)?;
    let rest = lexeme(skip_blanks(rest), b")")?;
    Ok((keep, rest))
}

fn keep(text: &[u8]) -> Result<(KeepForm, &[u8]), Stop>
    ensures { Gives (λ x. (x.0, x.1.now)) result (keep_at text.now) }
{
    match text {
        [b'(', inner @ ..] => brackets(inner),
        _ => Ok((KeepForm::Most(1), text)),
    }
}

/// The interval at the front of a text.
#[tactic(auto, unfolding(crate::specs::Scan::form_at))]
pub fn interval_form(text: &[u8]) -> Result<(Form, &[u8]), Stop>
    ensures { Gives (λ x. (x.0, x.1.now)) result (form_at text.now) }
{
    let (count, rest) = counted(skip_blanks(text))?;
    let rest = word(skip_blanks(rest), b"x")?;
    let (width, rest) = span(rest)?;
    let (keep, rest) = keep(rest)?;
    Ok((Form { count, width, keep }, rest))
}
