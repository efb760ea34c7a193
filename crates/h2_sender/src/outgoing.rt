//! One frame that waits.

ghost use Rattle.std.specs.Prelude.{◌≡◌, ◌<◌, ◌≤◌, ◌+◌, ◌^◌, ◌++◌, not, false, true, [], length, take, drop, min, if◌then◌else◌, ◌==◌};
ghost use Rattle.h2_model.specs.History.{preface};
ghost use Rattle.h2_model.specs.Log.{stream_of};
ghost use Rattle.h2_model.specs.Moves.{is_dropped};
ghost use Rattle.h2_model.specs.Queue.{is_data, goes_last, is_free, is_free_content, is_free_of, stays_behind, with_place, fresh, bytes_of, data_in};
ghost use Rattle.h2_frames.specs.Copied.{IsCopied};
ghost use Rattle.h2_sender.specs.Outgoing.{IsSendable, IsOutgoing, written};
ghost use Rattle.h2_model.specs.Calls.{is_window};

use crate::frames::{
    copy_bytes, data_in, has_bytes, is_ack, is_block, is_data, is_reset, is_window, len_of,
    stream_of,
};
use h2_frames::protocol::PREFACE;
use h2_frames::{Frame, copy_into};
use std::marker::Model;

/// A frame of which bytes wait.
#[derive(Drop)]
pub(crate) struct Outgoing {
    frame: Frame,
    // Whether the preface stands before it.
    greeting: bool,
    given: usize,
    // Whether it keeps its place: it was begun, or is an end that a reset follows.
    fixed: bool,
}

impl Model for Outgoing {
    ghost use Rattle.std.specs.Prelude.{drop};
    ghost use Rattle.h2_model.specs.Queue.{Waiting};
    ghost use Rattle.h2_sender.specs.Outgoing.{IsOutgoing, written};

    ghost Value = { Waiting };

    ghost view = { λ o. record { frame = o.frame; left = drop o.given (written o.greeting o.frame); fixed = o.fixed } };

    ghost invariant = { λ o. IsOutgoing o.frame o.greeting o.given };
}

fn total(frame: &Frame, greeting: bool) -> usize
    requires { IsSendable frame.now }
    ensures { result ≡ length (written greeting frame.now) }
{
    if greeting {
        return PREFACE.len() + len_of(frame);
    }
    len_of(frame)
}

// Copies the bytes from the one at `at` on, as many as fit of the preface, the frame's head or its payload.
fn copy_piece(frame: &Frame, greeting: bool, at: usize, out: &mut [u8], from: usize) -> usize
    requires sendable { IsSendable frame.now }
    requires there { at < length (written greeting frame.now) }
    requires room { from < length out.old }
    ensures { IsCopied (drop at (written greeting frame.now)) from out.old out.new result }
{
    if greeting {
        if at < PREFACE.len() {
            return copy_into(&PREFACE[at..], out, from);
        }
        return copy_bytes(frame, at - PREFACE.len(), out, from);
    }
    copy_bytes(frame, at, out, from)
}

// Copies the bytes from the one at `given` on, as many as fit.
fn copy_rest(frame: &Frame, greeting: bool, given: usize, out: &mut [u8]) -> usize
    requires sendable { IsSendable frame.now }
    requires within { given ≤ length (written greeting frame.now) }
    ensures count { result ≡ min (length out.old) (length (drop given (written greeting frame.now))) }
    ensures within { given + result ≤ length (written greeting frame.now) }
    ensures bound { given + result < 2 ^ 64 }
    ensures bytes { out.new ≡ take result (drop given (written greeting frame.now)) ++ drop result out.old }
{
    let total = total(frame, greeting);
    let mut n = 0;
    // Prover: the label names the loop in its proof.
    'pieces: while n < out.len() && given + n < total {
        n += copy_piece(frame, greeting, given + n, out, n);
    }
    n
}

impl Outgoing {
    /// A frame of which no byte was given.
    pub(crate) fn fresh(frame: Frame) -> Outgoing
        requires { IsSendable frame }
        ensures { result ≡ fresh frame }
    {
        Outgoing {
            frame,
            greeting: false,
            given: 0,
            fixed: false,
        }
    }

    /// The first SETTINGS, behind the preface for a client.
    pub(crate) fn first(frame: Frame, client: bool) -> Outgoing
        requires { IsSendable frame }
        ensures { result
            ≡ record { frame = frame; left = (if client then preface else []) ++ bytes_of frame; fixed = false } }
    {
        Outgoing {
            frame,
            greeting: client,
            given: 0,
            fixed: false,
        }
    }

    /// The same frame, which keeps its place from here on.
    pub(crate) fn with_place(self) -> Outgoing
        ensures { result ≡ with_place self }
    {
        let Outgoing {
            frame,
            greeting,
            given,
            fixed: _,
        } = self;
        Outgoing {
            frame,
            greeting,
            given,
            fixed: true,
        }
    }

    pub(crate) fn into_frame(self) -> Frame
        ensures { result ≡ self.frame }
    {
        self.frame
    }

    /// How many bytes wait.
    pub(crate) fn left(&self) -> usize
        ensures { result ≡ length self.now.left }
    {
        total(&self.frame, self.greeting) - self.given
    }

    /// Whether other frames may pass it.
    pub(crate) fn is_free(&self) -> bool
        ensures { result ≡ is_free self.now }
    {
        is_data(&self.frame) && !self.fixed
    }

    /// Whether it goes to the end: an acknowledgement of SETTINGS stays behind DATA too (RFC 9113 section 6.9.2).
    pub(crate) fn goes_last(&self) -> bool
        ensures { result ≡ goes_last self.now }
    {
        self.is_free() || is_ack(&self.frame)
    }

    /// Whether it is DATA with content that other frames may pass.
    pub(crate) fn is_free_content(&self) -> bool
        ensures { result ≡ is_free_content self.now }
    {
        self.is_free() && has_bytes(&self.frame)
    }

    pub(crate) fn is_free_of(&self, stream: u32) -> bool
        ensures { result ≡ is_free_of stream self.now }
    {
        self.is_free() && stream_of(&self.frame) == stream
    }

    /// Whether it goes away with its stream: DATA with content that no byte was given of.
    pub(crate) fn is_dropped(&self, stream: u32) -> bool
        ensures { result ≡ is_dropped stream self.now }
    {
        self.is_free() && has_bytes(&self.frame) && stream_of(&self.frame) == stream
    }

    /// The stream that it is of; 0 is the connection.
    pub(crate) fn stream(&self) -> u32
        ensures { result ≡ stream_of self.now.frame }
    {
        stream_of(&self.frame)
    }

    /// Whether it is no window update.
    pub(crate) fn is_counted(&self) -> bool
        ensures { result ≡ not (is_window self.now.frame) }
    {
        !is_window(&self.frame)
    }

    /// Whether it must stay behind an earlier frame.
    pub(crate) fn stays_behind(&self, earlier: &Outgoing) -> bool
        ensures { result ≡ stays_behind self.now.frame earlier.now }
    {
        let (block, before) = (is_block(&self.frame), is_block(&earlier.frame));
        let same = stream_of(&self.frame) == stream_of(&earlier.frame);
        (block && (before || is_ack(&earlier.frame)))
            || ((block || is_reset(&self.frame) || before) && same)
    }

    /// How many bytes of DATA it has for a stream, or, for stream 0, for any.
    pub(crate) fn data(&self, stream: u32) -> u64
        ensures { result ≡ data_in stream self.now.frame }
    {
        data_in(stream, &self.frame)
    }

    /// How many bytes of DATA for a stream weren't given.
    pub(crate) fn unsent(&self, stream: u32) -> u64
        ensures { result ≡ min (data_in stream self.now.frame) (length self.now.left) }
    {
        self.data(stream).min(self.left() as u64)
    }

    /// How many bytes wait that are no part of DATA.
    pub(crate) fn control(&self) -> u64
        ensures { result ≡ (if is_data self.now.frame then 0 else length self.now.left) }
    {
        if is_data(&self.frame) {
            0
        } else {
            self.left() as u64
        }
    }

    /// Copies the first bytes that wait, as many as fit, and tells how many.
    pub(crate) fn give(&mut self, out: &mut [u8]) -> usize
        ensures count { result ≡ min (length out.old) (length self.old.left) }
        ensures bytes { out.new ≡ take result self.old.left ++ drop result out.old }
        ensures rest { self.new ≡ record self.old { left = drop result self.old.left; fixed = true } }
    {
        let n = copy_rest(&self.frame, self.greeting, self.given, out);
        self.given += n;
        self.fixed = true;
        n
    }
}
