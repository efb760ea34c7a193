//! Decimal numbers.

ghost use Rattle.std.specs.Prelude.{◌≡◌, ◌≤◌, ◌↔◌, IsTrue, IfSome};
ghost use Rattle.std.specs.Char.{is_ascii_digit};
ghost use Rattle.std.specs.List.{AllPass};
ghost use Rattle.trace_format.specs.Lines.{is_decimal as spelled, number_of};

use std::str::from_utf8;

// Whether each byte is a digit.
fn all_digits(text: &[u8]) -> bool
    ensures { IsTrue result ↔ AllPass is_ascii_digit text.now }
{
    text.iter().all(|b| b.is_ascii_digit())
}

// Whether a text is digits, with no zero before another.
fn is_decimal(text: &[u8]) -> bool
    ensures { result ≡ spelled text.now }
{
    if text.is_empty() {
        return false;
    }
    if text.len() > 1 && text[0] == b'0' {
        return false;
    }
    all_digits(text)
}

/// The number that a text writes in decimal, without sign or leading zero, where it is at most `most`.
#[tactic(auto, unfolding(crate::specs::Lines::number_of))]
pub fn number(text: &[u8], most: u64) -> Option<u64>
    ensures value { result ≡ number_of most text.now }
    ensures within { IfSome result (λ n. n ≤ most) }
{
    if !is_decimal(text) {
        return None;
    }
    let Ok(digits) = from_utf8(text) else {
        return None;
    };
    match digits.parse::<u64>() {
        Ok(value) if value <= most => Some(value),
        _ => None,
    }
}
