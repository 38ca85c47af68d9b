//! Numbers written in digits.
ghost use Rattle.std.specs.Prelude.{◌≡◌, ◌≤◌, IfSome, IsTrue};
ghost use Rattle.std.specs.List.{list_all};
ghost use Rattle.gb_base.specs.Numerals.{is_digit, is_numeral, value_from, number_in};

/// The number that 1 to 10 digits write, where it is in the range. Leading zeros are digits like
/// the others.
pub fn number_in(text: &[u8], low: u64, high: u64) -> Option<u64>
    ensures value { result ≡ number_in low high text.now }
    ensures range { IfSome result (λ value. (low ≤ value) × (value ≤ high)) }
{
    if !is_numeral(text) {
        return None;
    }
    let value = value_of(text);
    if low <= value && value <= high {
        Some(value)
    } else {
        None
    }
}

fn is_numeral(text: &[u8]) -> bool
    ensures { result ≡ is_numeral text.now }
{
    1 <= text.len() && text.len() <= 10 && is_digits(text)
}

fn is_digits(text: &[u8]) -> bool
    ensures { result ≡ list_all is_digit text.now }
{
    text.iter().all(|byte| b'0' <= *byte && *byte <= b'9')
}

/// The number that the digits write.
fn value_of(digits: &[u8]) -> u64
    requires { IsTrue (is_numeral digits.now) }
    ensures { result ≡ value_from 0 digits.now }
{
    let mut value = 0;
    for digit in digits {
        value = value * 10 + u64::from(*digit - b'0');
    }
    value
}
