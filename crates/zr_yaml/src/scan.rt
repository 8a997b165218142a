//! Blanks and comments.

ghost use Rattle.std.specs.Prelude.{◌≡◌, ◌<◌, drop, length};
ghost use Rattle.zr_yaml.specs.Scan.{after_gap, ends_part};

/// Whether a part ends before this text: at the line's end or at a blank.
pub(crate) fn ends_part(text: &[u8]) -> bool
    ensures { result ≡ ends_part text.now }
{
    matches!(text, [] | [b' ', ..])
}

/// What comes after blanks and a comment. Spaced: a blank or nothing stands before the text.
pub(crate) fn skip_gap(text: &[u8], spaced: bool) -> &[u8]
    ensures { result.now ≡ after_gap spaced text.now }
{
    let mut rest = text;
    let mut spaced = spaced;
    while let [b' ', more @ ..] = rest {
        rest = more;
        spaced = true;
    }
    match rest {
        [b'#', ..] if spaced => &[],
        _ => rest,
    }
}

/// A text without its first byte.
pub(crate) fn tail(text: &[u8]) -> &[u8]
    requires { 0 < length text.now }
    ensures { result.now ≡ drop 1 text.now }
{
    &text[1..]
}
