//! Numbers of sixteen hexadecimal digits, both ways, as guids stand in names.

ghost use Rattle.std.specs.Prelude.{◌≡◌, ◌≢◌, ◌<◌, ◌≤◌, ◌++◌, ℕ, length, OnOk, MatchOption};
ghost use Rattle.zr_names.specs.Hex.{hex_digit, hex_text};

use crate::unit::Guid;
use std::alloc::AllocError;

fn hex_digit(n: u8) -> u8
    requires { n < 16 }
    ensures { result ≡ hex_digit n }
{
    if n < 10 { b'0' + n } else { b'a' - 10 + n }
}

/// Writes so many hexadecimal digits of a number, the highest first.
fn push_hex(out: &mut Vec<u8>, digits: u8, n: u64) -> Result<(), AllocError>
    ensures { OnOk result (out.new.items ≡ out.old.items ++ hex_text digits n) }
{
    if digits == 0 {
        return Ok(());
    }
    push_hex(out, digits - 1, n / 16)?;
    out.push(hex_digit((n % 16) as u8))?;
    Ok(())
}

/// The value of a lower-case hexadecimal digit.
fn hex_value(byte: u8) -> Option<u8>
    ensures { MatchOption result ((n : ℕ) → n < 16 → byte ≢ hex_digit n)
        (λ n. (n < 16) × (byte ≡ hex_digit n)) }
{
    match byte {
        b'0'..=b'9' => Some(byte - b'0'),
        b'a'..=b'f' => Some(byte - b'a' + 10),
        _ => None,
    }
}

/// Reads the number of at most 16 lower-case hexadecimal digits.
pub(crate) fn read_hex(digits: &[u8]) -> Option<u64>
    requires { length digits.now ≤ 16 }
    ensures { MatchOption result
        ((n : ℕ) → digits.now ≢ hex_text (length digits.now) n)
        (λ n. digits.now ≡ hex_text (length digits.now) n) }
{
    let mut n: u64 = 0;
    for digit in digits {
        let Some(value) = hex_value(*digit) else {
            return None;
        };
        n = n * 16 + u64::from(value);
    }
    Some(n)
}

impl Guid {
    ghost use Rattle.std.specs.Prelude.{◌≡◌, ◌++◌, OnOk};
    ghost use Rattle.zr_names.specs.Hex.{hex_text};

    /// Writes the guid as 16 lower-case hexadecimal digits.
    pub fn push_hex(&self, out: &mut Vec<u8>) -> Result<(), AllocError>
        ensures { OnOk result (out.new.items ≡ out.old.items ++ hex_text 16 self.now.0) }
    {
        push_hex(out, 16, self.0)
    }
}
