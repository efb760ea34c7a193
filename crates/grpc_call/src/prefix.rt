//! The five bytes before a message.

ghost use Rattle.std.specs.Prelude.{◌≡◌, ◌+◌, ◌≤◌, ◌<◌, ◌++◌, length, slice_index, take, vec_len};
ghost use Rattle.h2_frames.specs.Numbers.{u32_at};
ghost use Rattle.grpc_call.specs.Framed.{prefix_fault};

use crate::fault::CallFault;

/// A byte of flag and four of length.
pub const PREFIX: usize = 5;

// A byte of the kept ones and the new ones behind them.
fn byte_at(kept: &[u8], bytes: &[u8], i: usize) -> u8
    requires { i < length kept.now + length bytes.now }
    ensures { result ≡ slice_index (kept.now ++ bytes.now) i }
{
    if i < kept.len() {
        return kept[i];
    }
    bytes[i - kept.len()]
}

/// The length of the message behind a prefix of which the kept bytes and the new ones have all.
pub fn size_of(kept: &[u8], bytes: &[u8]) -> u32
    requires { 5 ≤ length kept.now + length bytes.now }
    ensures { result ≡ u32_at (kept.now ++ bytes.now) 1 }
{
    u32::from_be_bytes([
        byte_at(kept, bytes, 1),
        byte_at(kept, bytes, 2),
        byte_at(kept, bytes, 3),
        byte_at(kept, bytes, 4),
    ])
}

/// What the prefix has at fault.
pub fn fault_of(kept: &[u8], bytes: &[u8], limit: u32) -> Option<CallFault>
    requires { 5 ≤ length kept.now + length bytes.now }
    ensures { result ≡ prefix_fault limit (slice_index (kept.now ++ bytes.now) 0) (u32_at (kept.now ++ bytes.now) 1) }
{
    let size = size_of(kept, bytes);
    if byte_at(kept, bytes, 0) != 0 {
        return Some(CallFault::Compressed);
    }
    if size > limit {
        return Some(CallFault::TooLong(size));
    }
    None
}
