//! The length of a body, by its head: RFC 9112 section 6.3.

ghost use Rattle.std.specs.Prelude.{◌≡◌, ◌<◌, ◌^◌, codes};
ghost use Rattle.std.specs.List.{list_all};
ghost use Rattle.http_model.specs.Bytes.{values_of};
ghost use Rattle.http_model.specs.Heads.{unstated_length, length_by as length_among, length_by_coding as coding_length, stated_length as length_stated, is_bodiless as without_body};
ghost use Rattle.h1_read.specs.Lengths.{length_value as value_of_length, is_that_length as that_length};

use crate::text::is_lower;
use crate::values::{is_named, next_named};
use ext_msgs::Field;
use http_model::{Direction, Length};

/// More than any length: 2^63.
const TOO_LONG: u128 = 0x8000_0000_0000_0000;

// The number of decimal digits, where it is at most 2^63 - 1.
#[tactic(auto, using(crate::proofs::LengthDigits::capped_more, crate::proofs::LengthDigits::digits_more, crate::proofs::LengthDigits::value_read, crate::proofs::LengthDigits::value_long, crate::proofs::LengthDigits::value_other, crate::proofs::LengthDigits::value_empty))]
fn length_value(value: &[u8]) -> Option<u64>
    ensures { result ≡ value_of_length value.now }
{
    if value.len() == 0 {
        return None;
    }
    let mut number: u128 = 0;
    for digit in value {
        if !digit.is_ascii_digit() {
            return None;
        }
        number = (number * 10 + u128::from(digit.saturating_sub(b'0'))).min(TOO_LONG);
    }
    if number < TOO_LONG {
        return Some(number as u64);
    }
    None
}

#[tactic(auto, using(crate::proofs::LengthDigits::test_some, crate::proofs::LengthDigits::test_none))]
fn is_that_length(number: u64, value: &[u8]) -> bool
    ensures { result ≡ that_length number value.now }
{
    match length_value(value) {
        Some(n) => n == number,
        None => false,
    }
}

// Whether each `content-length` has this number.
#[tactic(auto, using(crate::proofs::NamedFields::all_next, crate::proofs::NamedFields::all_fails, crate::proofs::NamedFields::all_other, crate::proofs::NamedFields::all_none))]
fn is_each_length(number: u64, fields: &[Field]) -> bool
    ensures { result ≡ list_all (that_length number) (values_of (codes "content-length") fields.now) }
{
    for field in fields {
        if is_named(field, b"content-length") {
            if !is_that_length(number, field.value.bytes()) {
                return false;
            }
        }
    }
    true
}

// By a `content-length` and those behind it, which have to be equal as numbers.
#[tactic(auto, using(crate::proofs::LengthDigits::by_none, crate::proofs::LengthDigits::by_other, crate::proofs::LengthDigits::by_each))]
fn length_by(value: &[u8], others: &[Field]) -> Option<Length>
    ensures { result ≡ length_among value.now (values_of (codes "content-length") others.now) }
{
    let Some(number) = length_value(value) else {
        return None;
    };
    if !is_each_length(number, others) {
        return None;
    }
    Some(Length::Known(number))
}

// By the one transfer coding, which has to be `chunked`; HTTP/1.0 has none.
fn length_by_coding(minor: u8, coding: &[u8]) -> Option<Length>
    ensures { result ≡ coding_length minor coding.now }
{
    if is_lower(coding, b"chunked") && minor == 1 {
        return Some(Length::Chunked);
    }
    None
}

fn unstated(direction: Direction) -> Length
    ensures { result ≡ unstated_length direction }
{
    match direction {
        Direction::Request => Length::NoBody,
        Direction::Response => Length::Close,
    }
}

/// The length that a head states; `None` where its framing fields can't be taken.
pub fn stated_length(direction: Direction, minor: u8, fields: &[Field]) -> Option<Length>
    ensures { result ≡ length_stated direction minor fields.now }
{
    match next_named(fields, b"transfer-encoding") {
        None => match next_named(fields, b"content-length") {
            None => Some(unstated(direction)),
            Some((value, others)) => length_by(value, others),
        },
        Some((coding, others)) => {
            if next_named(others, b"transfer-encoding").is_some() {
                return None;
            }
            if next_named(fields, b"content-length").is_some() {
                return None;
            }
            length_by_coding(minor, coding)
        }
    }
}

/// Whether the head alone says that there is no body.
pub fn is_bodiless(length: Length) -> bool
    ensures { result ≡ without_body length }
{
    match length {
        Length::NoBody => true,
        Length::Known(n) => n == 0,
        Length::Chunked => false,
        Length::Close => false,
    }
}
