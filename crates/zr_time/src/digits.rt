//! Numbers of a fixed count of digits, both ways.

ghost use Rattle.std.specs.Prelude.{◌≡◌, ◌+◌, ◌/◌, ◌%◌, ◌<◌, ◌≤◌, length};
ghost use Rattle.zr_time.specs.Digits.{ReadsNumber};

/// The digit of a number at a power of ten.
pub(crate) fn digit(number: u16, unit: u16) -> u8
    requires { 0 < unit }
    ensures { result ≡ 48 + number / unit % 10 }
{
    b'0' + (number / unit % 10) as u8
}

/// The number of at most four decimal digits.
pub(crate) fn number(text: &[u8]) -> Option<u16>
    requires { length text.now ≤ 4 }
    ensures { ReadsNumber text.now result }
{
    let mut number = 0;
    for byte in text {
        if !byte.is_ascii_digit() {
            return None;
        }
        number = number * 10 + u16::from(byte - b'0');
    }
    Some(number)
}
