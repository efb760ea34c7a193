//! Heads that come in pieces.

ghost use Rattle.std.specs.Prelude.{◌≡◌, ◌≤◌, ◌+◌, ◌<◌, ◌^◌, [], false, length, drop, vec_len, IfOk, OnErr};
ghost use Rattle.http_model.specs.declared.types.Direction.TheVariants.{Request, Response};
ghost use Rattle.h1_read.specs.Steps.{IsOpen};
ghost use Rattle.h1_read.specs.HeadReading.{IsFed, IsHeadFed};
ghost use Rattle.h1_read.specs.Places.{places};
ghost use Rattle.h1_read.specs.declared.place.Place.TheVariants.{Before};

use crate::fault::H1Fault;
use crate::message::Message;
use crate::place::{Place, Scan, next_stop, place_behind};
use crate::scan::behind;
use crate::step::{Step, read_step};
use http_model::Direction;
use std::alloc::{AllocError, Global};
use std::marker::Model;

// Moves all behind the first bytes to the beginning.
fn drop_front(kept: &mut Vec<u8>, at: usize)
    requires { at ≤ vec_len kept.old }
    ensures { kept.new.items ≡ drop at kept.old.items }
{
    let len = kept.len();
    kept.copy_within(at..len, 0);
    kept.truncate(len - at);
}

// Parses the bytes of an unfinished head with those that came. What isn't taken is dropped again.
fn feed_bytes(
    kept: &mut Vec<u8>,
    direction: Direction,
    to_head: bool,
    bytes: &[u8],
) -> Result<Option<(Message, u32)>, H1Fault>
    requires begun { IsOpen direction kept.old.items }
    requires small { length bytes.now < 2 ^ 32 }
    ensures fed { IsFed
        record { direction = direction; to_head = to_head; so_far = kept.old.items } bytes.now
        record { direction = direction; to_head = to_head; so_far = kept.new.items } result }
    ensures still { IsOpen direction kept.new.items }
{
    let alloc = *kept.allocator();
    let before = kept.len();
    kept.extend_from_slice(bytes)?;
    match read_step(alloc, direction, to_head, kept.as_slice()) {
        Ok(Step::Got(message, used)) => {
            kept.truncate(before);
            Ok(Some((message, (used - before) as u32)))
        }
        Ok(Step::Left(at)) => {
            drop_front(kept, at);
            Ok(None)
        }
        Err(fault) => {
            kept.truncate(before);
            Err(fault)
        }
    }
}

// What a piece gives.
#[derive(Drop)]
enum HeadFed {
    /// A head, and how many of the piece's bytes are its own.
    Got(Message, u32),
    /// The bytes of an unfinished head, and where they end.
    On(Vec<u8>, Place),
}

// Reads on in the bytes of an unfinished head, each time up to the next byte at which the parser has something to say:
// so it reads a first line and then a whole head, in whatever pieces they come.
fn read_on(
    kept: Vec<u8>,
    place: Place,
    direction: Direction,
    to_head: bool,
    bytes: &[u8],
) -> Result<HeadFed, H1Fault>
    requires begun { IsOpen direction kept.items }
    requires here { place ≡ places Before kept.items }
    requires small { length bytes.now < 2 ^ 32 }
    ensures { IsHeadFed record { direction = direction; to_head = to_head; so_far = kept.items } bytes.now result }
{
    let mut kept = kept;
    let mut place = place;
    let mut at = 0;
    'stops: loop {
        let rest = behind(bytes, at);
        match next_stop(place, kept.len(), rest) {
            Scan::Quiet(end) => {
                kept.extend_from_slice(rest)?;
                return Ok(HeadFed::On(kept, end));
            }
            Scan::Stop(n) => {
                let (part, _) = rest.split_at(n);
                match feed_bytes(&mut kept, direction, to_head, part) {
                    Ok(Some((message, used))) => return Ok(HeadFed::Got(message, at as u32 + used)),
                    Ok(None) => {
                        place = place_behind(Place::Before, kept.as_slice());
                        at += n;
                    }
                    Err(fault) => return Err(fault),
                }
            }
        }
    }
}

// Reads on in the bytes of an unfinished head. They are copied only where the parser has to read, since they stay where
// it finds a head or a fault.
fn feed_head(
    kept: &mut Vec<u8>,
    place: &mut Place,
    direction: Direction,
    to_head: bool,
    bytes: &[u8],
) -> Result<Option<(Message, u32)>, H1Fault>
    requires begun { IsOpen direction kept.old.items }
    requires here { place.old ≡ places Before kept.old.items }
    requires small { length bytes.now < 2 ^ 32 }
    ensures fed { IsFed
        record { direction = direction; to_head = to_head; so_far = kept.old.items } bytes.now
        record { direction = direction; to_head = to_head; so_far = kept.new.items } result }
    ensures still { IsOpen direction kept.new.items }
    ensures there { place.new ≡ places Before kept.new.items }
{
    if let Scan::Quiet(end) = next_stop(*place, kept.len(), bytes) {
        kept.extend_from_slice(bytes)?;
        *place = end;
        return Ok(None);
    }
    let mut copy = Vec::new(*kept.allocator());
    copy.extend_from_slice(kept.as_slice())?;
    match read_on(copy, *place, direction, to_head, bytes)? {
        HeadFed::Got(message, used) => Ok(Some((message, used))),
        HeadFed::On(now, end) => {
            *kept = now;
            *place = end;
            Ok(None)
        }
    }
}

/// Reads the head of a message from pieces: RFC 9112 sections 2 to 6. Contracts see the direction, whether the response
/// is to a HEAD request, and the bytes of the unfinished head, behind interim responses.
#[derive(Drop)]
pub struct HeadReader {
    direction: Direction,
    to_head: bool,
    kept: Vec<u8>,
    place: Place,
}

impl Model for HeadReader {
    ghost use Rattle.h1_read.specs.HeadReading.{HeadState};

    ghost Value = { HeadState };

    ghost use Rattle.std.specs.Prelude.{◌≡◌};
    ghost use Rattle.h1_read.specs.Places.{places};
    ghost use Rattle.h1_read.specs.declared.place.Place.TheVariants.{Before};
    ghost use Rattle.h1_read.specs.Steps.{IsOpen};

    ghost view = { λ r. record { direction = r.direction; to_head = r.to_head; so_far = r.kept.items } };

    ghost invariant = { λ r. IsOpen r.direction r.kept.items × (r.place ≡ places Before r.kept.items) };
}

impl HeadReader {
    /// A reader of a request.
    pub fn request(alloc: Global) -> Result<HeadReader, AllocError>
        ensures { IfOk result (λ r. r ≡ record { direction = Request; to_head = false; so_far = [] }) }
    {
        Ok(HeadReader {
            direction: Direction::Request,
            to_head: false,
            kept: Vec::new(alloc),
            place: Place::Before,
        })
    }

    /// A reader of a response; `to_head` tells that its request was HEAD.
    pub fn response(alloc: Global, to_head: bool) -> Result<HeadReader, AllocError>
        ensures { IfOk result (λ r. r ≡ record { direction = Response; to_head = to_head; so_far = [] }) }
    {
        Ok(HeadReader {
            direction: Direction::Response,
            to_head,
            kept: Vec::new(alloc),
            place: Place::Before,
        })
    }

    /// Takes the next piece. The answer is the head with the number of the piece's bytes up to its end, or `None`,
    /// where the whole piece was taken. Interim responses come off the front. A head and a fault leave the reader as
    /// it was, so that the same piece has the same answer again.
    pub fn feed(&mut self, bytes: &[u8]) -> Result<Option<(Message, u32)>, H1Fault>
        requires { length bytes.now < 2 ^ 32 }
        ensures fed { IsFed self.old bytes.now self.new result }
        ensures unchanged { OnErr result (self.new ≡ self.old) }
    {
        feed_head(
            &mut self.kept,
            &mut self.place,
            self.direction,
            self.to_head,
            bytes,
        )
    }

    /// How many bytes of an unfinished head are kept: fewer than a head may take.
    #[tactic(auto, using(crate::proofs::TurnLaw::open_small))]
    pub fn held(&self) -> u64
        ensures value { result ≡ length self.now.so_far }
        ensures bound { result < 32768 }
    {
        self.kept.len() as u64
    }
}
