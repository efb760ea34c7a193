//! Numbers in base 128.

ghost use Rattle.std.specs.Prelude.{◌≡◌, ◌<◌, ◌^◌, IfOk};
ghost use Rattle.pb_wire.specs.Reading.{Gives, varint_at};

use crate::fault::Cause;

// The number at the front, and the bytes after it.
pub(crate) fn varint(bytes: &[u8]) -> Result<(u64, &[u8]), Cause>
    ensures { Gives (λ x. (x.0, x.1.now)) result (varint_at bytes.now) }
{
    let mut value: u64 = 0;
    for i in 0..10 {
        if bytes.len() <= i {
            return Err(Cause::Truncated);
        }
        let byte = bytes[i];
        if i == 9 && byte > 1 {
            return Err(Cause::LongVarint);
        }
        value += u64::from(byte & 0x7f) << (7 * i);
        if byte < 128 {
            return Ok((value, &bytes[i + 1..]));
        }
    }
    Err(Cause::LongVarint)
}
