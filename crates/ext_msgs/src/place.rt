//! Places of records.

ghost use Rattle.std.specs.Prelude.{◌≡◌, ◌<◌, ◌^◌, length, unwrap_or};
ghost use Rattle.pb_wire.specs.Cursor.{shown};
ghost use Rattle.ext_msgs.specs.Fields.{place_at, last_place};

use pb_wire::{Payload, Reader, Record};

// The place of the record where it has the number and bytes, else the place before.
fn place_or(_bytes: &[u8], number: u32, place: u32, found: Record) -> u32
    ensures { result ≡ unwrap_or (place_at number (shown _bytes.now found)) place }
{
    match found.payload {
        Payload::Span(_, _) if found.number == number => found.place,
        _ => place,
    }
}

/// The place of the last record of this number that has bytes, or 0.
pub fn last_place(bytes: &[u8], number: u32) -> u32
    requires { length bytes.now < 2 ^ 32 }
    ensures { result ≡ last_place number (length bytes.now) bytes.now }
{
    let mut reader = Reader::new(bytes);
    let mut place = 0;
    'records: loop {
        match reader.next() {
            Ok(Some(found)) => place = place_or(bytes, number, place, found),
            Ok(None) => return place,
            Err(_) => return place,
        }
    }
}
