//! The parts that spans and grids are made of, read from the front of a text.

ghost use Rattle.std.specs.Prelude.{◌≡◌, Option};
ghost use Rattle.zr_grid.specs.Grammar.{unit_of};
ghost use Rattle.zr_grid.specs.Scan.{Gives, skip, digits_from, counted_at, unit_at};

/// How many bytes were left at the place where the text cannot go on.
#[derive(Clone, Copy)]
pub struct Stop {
    pub left: usize,
}

/// What comes after spaces and tabs.
pub fn skip_blanks(text: &[u8]) -> &[u8]
    ensures { result.now ≡ skip text.now }
{
    let mut rest = text;
    while let [b' ' | b'\t', more @ ..] = rest {
        rest = more;
    }
    rest
}

/// The number that digits at the front stand for, 0 where there are none. One above 64 bits is as good as the greatest.
pub fn leading_digits(text: &[u8]) -> (u64, &[u8])
    ensures { (result.0, result.1.now) ≡ digits_from 0 text.now }
{
    let mut number: u64 = 0;
    let mut rest = text;
    while let [digit @ b'0'..=b'9', more @ ..] = rest {
        number = number
            .saturating_mul(10)
            .saturating_add(u64::from(*digit - b'0'));
        rest = more;
    }
    (number, rest)
}

/// A number that is at least 1.
pub fn counted(text: &[u8]) -> Result<(u64, &[u8]), Stop>
    ensures { Gives (λ x. (x.0, x.1.now)) result (counted_at text.now) }
{
    let (number, rest) = leading_digits(text);
    if number == 0 {
        return Err(Stop { left: rest.len() });
    }
    Ok((number, rest))
}

fn seconds_of(letter: u8) -> Option<u64>
    ensures { result ≡ unit_of letter }
{
    match letter {
        b's' => Some(1),
        b'm' => Some(60),
        b'h' => Some(3_600),
        b'd' => Some(86_400),
        b'w' => Some(604_800),
        _ => None,
    }
}

/// The letter of a unit, as its seconds.
pub fn unit(text: &[u8]) -> Result<(u64, &[u8]), Stop>
    ensures { Gives (λ x. (x.0, x.1.now)) result (unit_at text.now) }
{
    let [letter, rest @ ..] = text else {
        return Err(Stop { left: 0 });
    };
    match seconds_of(*letter) {
        Some(seconds) => Ok((seconds, rest)),
        None => Err(Stop { left: text.len() }),
    }
}
