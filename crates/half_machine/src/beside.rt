//! How much a half keeps beside the bytes of the body.

ghost use Rattle.std.specs.Prelude.{◌≡◌, min, sum_by};
ghost use Rattle.filter_model.specs.Held.{field_bytes};
ghost use Rattle.half_machine.specs.Beside.{ask_size, head_size, held_beside};

use crate::half::Half;
use ext_msgs::{Ask, FieldList};
use std::collections::VecDeque;

// The bytes of all names and values.
#[tactic(auto, using(crate::proofs::FieldSums::size_at))]
fn field_bytes(fields: &FieldList) -> u64
    ensures { result ≡ min (field_bytes fields.now) 18_446_744_073_709_551_615 }
{
    let mut total: u64 = 0;
    for field in fields.as_slice() {
        total = total
            .saturating_add(field.name.len() as u64)
            .saturating_add(field.value.len() as u64);
    }
    total
}

/// The bytes of an ask's fields, or of its piece of a body, or 2^64 - 1 where there are more.
pub fn ask_size(ask: &Ask) -> u64
    ensures { result ≡ min (ask_size ask.now) 18_446_744_073_709_551_615 }
{
    match ask {
        Ask::RequestHeaders(fields, _) | Ask::ResponseHeaders(fields, _) => field_bytes(fields),
        Ask::RequestBody(bytes, _) | Ask::ResponseBody(bytes, _) => bytes.len() as u64,
        Ask::RequestTrailers(fields) | Ask::ResponseTrailers(fields) => field_bytes(fields),
    }
}

/// That of several.
pub(crate) fn asks_size(asks: &VecDeque<Ask>) -> u64
    ensures { result ≡ min (sum_by ask_size asks.now.items) 18_446_744_073_709_551_615 }
{
    let mut total = 0u64;
    for i in 0..asks.len() {
        total = total.saturating_add(ask_size(&asks[i]));
    }
    total
}

fn head_size(head: &Option<FieldList>) -> u64
    ensures { result ≡ min (head_size head.now) 18_446_744_073_709_551_615 }
{
    match head {
        Some(fields) => field_bytes(fields),
        None => 0,
    }
}

impl Half {
    /// How many bytes are kept beside those of the body, or 2^64 - 1 where there are more: of the head and of trailers,
    /// and of asks that were answered before they were handed out.
    pub fn held_beside(&self) -> u64
        ensures { result ≡ min (held_beside self.now) 18_446_744_073_709_551_615 }
    {
        head_size(&self.head)
            .saturating_add(field_bytes(&self.trailers))
            .saturating_add(self.ready.size())
    }
}
