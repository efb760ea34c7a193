//! Sums over the frames of the queue.

ghost use Rattle.std.specs.Prelude.{◌≡◌, ◌≤◌, ◌-◌, ◌^◌, min, sum_by};
ghost use Rattle.h2_model.specs.Queue.{queued, control_bytes};

use crate::outgoing::Outgoing;
use std::collections::VecDeque;

// Prover: each is a loop by index, whose invariant is the sum over the frames before it.

/// The bytes of DATA for a stream, or, for stream 0, for any.
pub(crate) fn queued(frames: &VecDeque<Outgoing>, stream: u32) -> u64
    requires { queued stream frames.now.items ≤ 2 ^ 40 }
    ensures { result ≡ queued stream frames.now.items }
{
    let mut sum = 0;
    for i in 0..frames.len() {
        sum += frames[i].data(stream);
    }
    sum
}

/// The bytes that wait and are no part of DATA, counted to 2^64 - 1.
pub(crate) fn control(frames: &VecDeque<Outgoing>) -> u64
    ensures { result ≡ min (control_bytes frames.now.items) (2 ^ 64 - 1) }
{
    let mut sum = 0u64;
    for i in 0..frames.len() {
        sum = sum.saturating_add(frames[i].control());
    }
    sum
}
