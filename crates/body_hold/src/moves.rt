//! Bytes moved between queues, and pieces that follow one another in one queue.

ghost use Rattle.std.specs.Prelude.{◌≡◌, ◌+◌, ◌≤◌, ◌<◌, ℕ, [], length, take, drop, All, Some, IfOk, slice_get};
ghost use Rattle.px_bytes.specs.Queue.{pushed, dropped};
ghost use Rattle.body_hold.specs.Held.{cut_by, total};

use px_bytes::ByteQueue;
use std::alloc::{AllocError, Global};

// A queue with room for so many bytes. None has room for 4 GiB.
pub(crate) fn queue_of(alloc: Global, room: u64) -> Result<ByteQueue, AllocError>
    ensures { IfOk result (λ q. q ≡ record { limit = room; bytes = [] }) }
{
    match u32::try_from(room) {
        Ok(limit) => ByteQueue::with_limit(alloc, limit),
        Err(_) => Err(AllocError),
    }
}

// Appends bytes for which there is room.
pub(crate) fn append(to: &mut ByteQueue, bytes: &[u8])
    requires { length to.old.bytes + length bytes.now ≤ to.old.limit }
    ensures { to.new ≡ pushed bytes.now to.old }
{
    let _ = to.push(bytes);
}

// Moves the first n bytes.
pub(crate) fn shift(from: &mut ByteQueue, to: &mut ByteQueue, n: u32)
    requires there { n ≤ length from.old.bytes }
    requires fits { length to.old.bytes + n ≤ to.old.limit }
    ensures from { from.new ≡ dropped n from.old }
    ensures to { to.new ≡ pushed (take n from.old.bytes) to.old }
{
    let (front, _) = from.front().split_at(n as usize);
    append(to, front);
    from.drop_front(n);
}

// The k-th of the pieces that follow one another in the bytes.
pub(crate) fn piece_at<'a>(bytes: &'a [u8], lengths: &[u32], k: usize) -> &'a [u8]
    requires known { k < length lengths.now }
    requires whole { total lengths.now ≤ length bytes.now }
    ensures piece { slice_get (cut_by lengths.now bytes.now) k ≡ Some result.now }
    ensures range { All (λ x. x < 256) bytes.now → All (λ x. x < 256) result.now }
{
    let mut rest = bytes;
    'pieces: for i in 0..k {
        let (_, behind) = rest.split_at(lengths[i] as usize);
        rest = behind;
    }
    let (piece, _) = rest.split_at(lengths[k] as usize);
    piece
}
