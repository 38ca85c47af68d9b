//! Numbers as a JSON text writes them.
ghost use Rattle.std.specs.Prelude.{◌≡◌, ◌==◌, ◌<◌, IsTrue, true, false, length, negsuc, is_some, slice_index, unwrap_or};
ghost use Rattle.serde_json.specs.Data.{negative as below_zero};
ghost use Rattle.serde_json.specs.Find.{as_u64};
ghost use Rattle.serde_json.specs.Read.{number_from, number_of};

use fast_float::Numeral;

/// The number that a text writes without sign, fraction and exponent, of at most 64 bits.
pub(crate) fn whole(text: &[u8]) -> Option<u64>
    ensures { result ≡ as_u64 (unwrap_or (number_of text.now) (below_zero (negsuc 0))) }
{
    if has_minus(text) {
        None
    } else {
        positive(&Numeral::scan(text))
    }
}

fn positive(numeral: &Numeral<'_>) -> Option<u64>
    ensures { result ≡ as_u64 (unwrap_or (number_from false numeral.now) (below_zero (negsuc 0))) }
{
    numeral.to_u64()
}

/// Whether the number that a text writes is in range: whole and of at most 64 bits, or near enough
/// to a finite float.
pub(crate) fn is_in_range(text: &[u8]) -> bool
    ensures { result ≡ is_some (number_of text.now) }
{
    if has_minus(text) {
        is_in_range_below_zero(&Numeral::scan(&text[1..]))
    } else {
        is_in_range_from_zero(&Numeral::scan(text))
    }
}

fn is_in_range_from_zero(numeral: &Numeral<'_>) -> bool
    ensures { result ≡ is_some (number_from false numeral.now) }
{
    match numeral.to_u64() {
        Some(_) => true,
        None => numeral.to_float::<f64>(false).is_finite(),
    }
}

fn is_in_range_below_zero(numeral: &Numeral<'_>) -> bool
    ensures { result ≡ is_some (number_from true numeral.now) }
{
    match numeral.to_i64(true) {
        Some(n) if n < 0 => true,
        _ => numeral.to_float::<f64>(true).is_finite(),
    }
}

fn has_minus(text: &[u8]) -> bool
    ensures value { result ≡ (slice_index text.now 0 == 45) }
    ensures some { IsTrue result → 0 < length text.now }
{
    !text.is_empty() && text[0] == b'-'
}
