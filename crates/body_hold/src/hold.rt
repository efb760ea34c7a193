//! Bytes at hand, bytes lent and bytes that go out.

ghost use Rattle.std.specs.Prelude.{◌≡◌, ◌≤◌, ◌<◌, ◌+◌, [], length, All, Some, IfOk, slice_get};
ghost use Rattle.body_hold.specs.Held.{hand_room, lent_room, out_room, joined, held};
ghost use Rattle.body_hold.specs.Steps.{put, lend, backed, hand_replaced, passed, lent_passed, taken, dropped, new_piece};

use crate::moves::{append, piece_at, queue_of, shift};
use pb_wire::Blob;
use px_bytes::ByteQueue;
use std::alloc::{AllocError, Global};
use std::marker::Model;

/// What becomes of a lent piece.
#[derive(Drop)]
pub enum Change {
    /// It goes out as it is.
    Keep,
    /// These bytes go out in its place.
    Replace(Blob),
    /// Nothing goes out for it.
    Clear,
}

/// The bytes of a body. Those that arrive are at hand; from there they are lent, a piece with each ask, or pass. A lent
/// piece comes back as its answer says, the oldest first, and goes out; so do the bytes that pass.
///
/// Only the constructor takes memory. It reserves, for a buffer of `limit` bytes and answers of at most `answer`:
/// `limit + 98,305` bytes at hand, `limit + 65,536` lent in at most four pieces, and
/// `2 * limit + 4 * answer + 262,144` that go out.
#[derive(Drop)]
pub struct Hold {
    hand: ByteQueue,
    // The lent pieces, one behind the other, and their lengths.
    lent: ByteQueue,
    lengths: Vec<u32>,
    out: ByteQueue,
    limit: u32,
    answer: u32,
}

impl Model for Hold {
    ghost use Rattle.body_hold.specs.Held.{Held, cut_by};
    ghost use Rattle.body_hold.specs.Fits.{IsReserved};

    ghost Value = { Held };

    ghost view = { λ h. record {
      limit = h.limit;
      answer = h.answer;
      hand = h.hand.bytes;
      lent = cut_by h.lengths.items h.lent.bytes;
      out = h.out.bytes;
    } };

    ghost invariant = { λ h. IsReserved h.limit h.answer h.hand h.lent h.lengths h.out };
}

impl Hold {
    /// A hold of nothing, for a buffer of `limit` bytes and answers whose bodies have at most `answer` bytes.
    pub fn new(alloc: Global, limit: u32, answer: u32) -> Result<Hold, AllocError>
        ensures { IfOk result (λ h. h ≡ record { limit = limit; answer = answer; hand = []; lent = []; out = [] }) }
    {
        let (buffer, change) = (u64::from(limit), u64::from(answer));
        let hand = queue_of(alloc, buffer + 98_305)?;
        let lent = queue_of(alloc, buffer + 65_536)?;
        let lengths = Vec::with_capacity(alloc, 4)?;
        let out = queue_of(alloc, buffer * 2 + change * 4 + 262_144)?;
        Ok(Hold {
            hand,
            lent,
            lengths,
            out,
            limit,
            answer,
        })
    }

    /// Bytes join those at hand.
    pub fn put(&mut self, bytes: &[u8])
        requires { length self.old.hand + length bytes.now ≤ hand_room self.old.limit }
        ensures { self.new ≡ put bytes.now self.old }
    {
        append(&mut self.hand, bytes);
    }

    /// The first n bytes at hand leave with an ask.
    pub fn lend(&mut self, n: u32)
        requires there { n ≤ length self.old.hand }
        requires few { length self.old.lent < 4 }
        requires fits { length (joined self.old.lent) + n ≤ lent_room self.old.limit }
        ensures { self.new ≡ lend n self.old }
    {
        shift(&mut self.hand, &mut self.lent, n);
        self.lengths.push_reserved(n);
    }

    /// The oldest lent piece comes back, and goes out as the change says.
    pub fn back(&mut self, change: Change)
        requires there { 0 < length self.old.lent }
        requires fits { length self.old.out + length (new_piece change self.old.lent)
            ≤ out_room self.old.limit self.old.answer }
        ensures { self.new ≡ backed change self.old }
    {
        let n = self.lengths.remove(0);
        match change {
            Change::Keep => shift(&mut self.lent, &mut self.out, n),
            Change::Replace(piece) => {
                append(&mut self.out, piece.bytes());
                self.lent.drop_front(n);
            }
            Change::Clear => self.lent.drop_front(n),
        }
    }

    /// These bytes go out in place of those at hand.
    pub fn replace_hand(&mut self, body: &[u8])
        requires { length self.old.out + length body.now ≤ out_room self.old.limit self.old.answer }
        ensures { self.new ≡ hand_replaced body.now self.old }
    {
        self.hand.drop_front(self.hand.len());
        append(&mut self.out, body);
    }

    /// The first n bytes at hand go out without an ask.
    pub fn pass(&mut self, n: u32)
        requires there { n ≤ length self.old.hand }
        requires fits { length self.old.out + n ≤ out_room self.old.limit self.old.answer }
        ensures { self.new ≡ passed n self.old }
    {
        shift(&mut self.hand, &mut self.out, n);
    }

    /// The lent bytes go out as they are. They stay lent, since their asks may still need them.
    pub fn pass_lent(&mut self)
        requires { length self.old.out + length (joined self.old.lent) ≤ out_room self.old.limit self.old.answer }
        ensures { self.new ≡ lent_passed self.old }
    {
        append(&mut self.out, self.lent.front());
    }

    /// The k-th lent piece, from 0, the oldest first.
    pub fn lent_piece(&self, k: u32) -> &[u8]
        requires { k < length self.now.lent }
        ensures piece { slice_get self.now.lent k ≡ Some result.now }
        ensures range { All (λ x. x < 256) result.now }
    {
        piece_at(self.lent.front(), self.lengths.as_slice(), k as usize)
    }

    /// How many pieces are lent.
    pub fn lent_pieces(&self) -> u32
        ensures { result ≡ length self.now.lent }
    {
        self.lengths.len() as u32
    }

    /// The bytes that go out, all of them.
    pub fn out_front(&self) -> &[u8]
        ensures list { result.now ≡ self.now.out }
        ensures range { All (λ x. x < 256) self.now.out }
    {
        self.out.front()
    }

    /// The first n of them were taken.
    pub fn out_drop(&mut self, n: u32)
        requires { n ≤ length self.old.out }
        ensures { self.new ≡ dropped n self.old }
    {
        self.out.drop_front(n);
    }

    /// The bytes at hand, all of them.
    pub fn hand_front(&self) -> &[u8]
        ensures list { result.now ≡ self.now.hand }
        ensures range { All (λ x. x < 256) self.now.hand }
    {
        self.hand.front()
    }

    /// The first n of them were taken.
    pub fn hand_drop(&mut self, n: u32)
        requires { n ≤ length self.old.hand }
        ensures { self.new ≡ taken n self.old }
    {
        self.hand.drop_front(n);
    }

    /// How many bytes are at hand.
    pub fn at_hand(&self) -> u32
        ensures { result ≡ length self.now.hand }
    {
        self.hand.len()
    }

    /// How many bytes are lent.
    pub fn lent(&self) -> u32
        ensures { result ≡ length (joined self.now.lent) }
    {
        self.lent.len()
    }

    /// How many bytes wait to go out.
    pub fn out_len(&self) -> u32
        ensures { result ≡ length self.now.out }
    {
        self.out.len()
    }

    /// How many bytes are kept in all.
    pub fn held(&self) -> u64
        ensures { result ≡ held self.now }
    {
        u64::from(self.at_hand()) + u64::from(self.lent()) + u64::from(self.out_len())
    }
}
