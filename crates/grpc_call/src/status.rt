//! The status behind the last message.

ghost use Rattle.std.specs.Prelude.{◌≡◌, Some, None, MatchOption};
ghost use Rattle.std.specs.Char.{is_ascii_digit};
ghost use Rattle.std.specs.List.{list_all};
ghost use Rattle.grpc_call.specs.Blocks.{first_value, number_in, status_of};

use ext_msgs::FieldList;
use std::str;

/// The value of the first field of a name.
pub(crate) fn first_value<'a>(fields: &'a FieldList, name: &[u8]) -> Option<&'a [u8]>
    ensures { MatchOption result (first_value name.now fields.now ≡ None)
        (λ v. first_value name.now fields.now ≡ Some v.now) }
{
    for field in fields.as_slice() {
        if field.name.bytes() == name {
            return Some(field.value.bytes());
        }
    }
    None
}

fn is_decimal(text: &[u8]) -> bool
    ensures { result ≡ list_all is_ascii_digit text.now }
{
    text.iter().all(|c| c.is_ascii_digit())
}

// The number that decimal digits spell, leading zeros or not, where it is below 2^32.
#[tactic(auto, unfolding(crate::specs::Blocks::number_in))]
fn number_in(value: &[u8]) -> Option<u32>
    ensures { result ≡ number_in value.now }
{
    if !is_decimal(value) {
        return None;
    }
    let Ok(digits) = str::from_utf8(value) else {
        return None;
    };
    match digits.parse::<u32>() {
        Ok(number) => Some(number),
        Err(_) => None,
    }
}

/// The `grpc-status` of the block that ends a call, by the first such field; none where that is no decimal number
/// below 2^32.
pub fn status_of(fields: &FieldList) -> Option<u32>
    ensures { result ≡ status_of fields.now }
{
    match first_value(fields, b"grpc-status") {
        Some(value) => number_in(value),
        None => None,
    }
}
