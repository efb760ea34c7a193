//! How much a part takes that isn't written yet.

ghost use Rattle.std.specs.Prelude.{◌≡◌, min};
ghost use Rattle.filter_model.specs.Held.{field_bytes};
ghost use Rattle.h1_outlet.specs.Parts.{part_size};

use ext_msgs::FieldList;
use http_model::Out;

// The bytes of all names and values.
#[tactic(auto, using(crate::proofs::FieldSizes::size_at))]
fn field_bytes(fields: &FieldList) -> u64
    ensures { result ≡ min (field_bytes fields.now) 18_446_744_073_709_551_615 }
{
    let mut total: u64 = 0;
    for field in fields.as_slice() {
        total = total
            .saturating_add(field.name.len() as u64)
            .saturating_add(field.value.len() as u64);
    }
    total
}

// A part by its fields, or its body bytes.
pub(crate) fn part_size(out: &Out) -> u64
    ensures { result ≡ min (part_size out.now) 18_446_744_073_709_551_615 }
{
    match out {
        Out::Head(fields, _) | Out::Trailers(fields) => field_bytes(fields),
        Out::Data(bytes) => bytes.len() as u64,
        Out::End | Out::Nothing => 0,
    }
}
