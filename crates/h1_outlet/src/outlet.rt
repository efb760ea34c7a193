//! What goes out to one side.

ghost use Rattle.std.specs.Prelude.{◌≡◌, ◌≤◌, ◌==◌, ◌-◌, min, [], length, IfOk, OnOk, OnErr};
ghost use Rattle.h1_outlet.specs.Outlets.{Flowed, all, body_in, with_interim, with_part, with_reply, after_give, held, is_idle, refilled, readied, holding};
ghost use Rattle.h1_outlet.specs.Stands.{StandsFor, MayOwe, MayPut, IsGiven, fresh};

use crate::going::{Gave, Going};
use crate::parts::{framing_with, has_bytes, trailers_with, write, write_interim};
use crate::sizes::part_size;
use http_model::{Direction, Framing, Out};
use pb_wire::Blob;
use std::alloc::{AllocError, Global};
use std::mem;

/// The bytes on their way to one side. It is handed the parts of a message, one once all before it was given, and gives
/// their bytes in pieces of any size, with how many of them are of the body.
///
/// Only `take` takes memory: a part is kept as it came until its first bytes are given. A call that comes when it may
/// not leaves an outlet of which nothing is promised.
#[derive(Drop)]
pub struct Outlet {
    alloc: Global,
    direction: Direction,
    // Of the head, where it was put.
    framing: Option<Framing>,
    // Trailers were put.
    trailers: bool,
    going: Going,
    // Behind those bytes goes the interim response,
    interim: bool,
    // the part that was put last, if its bytes aren't written yet,
    next: Out,
    // and a reply of the proxy's own.
    reply: Blob,
}

impl Outlet {
    /// An outlet that was handed nothing. It takes no memory.
    pub fn new(alloc: Global, direction: Direction) -> Outlet
        ensures { StandsFor (fresh direction) result }
    {
        Outlet {
            alloc,
            direction,
            framing: None,
            trailers: false,
            going: Going::of(Blob::new(alloc), 0, 0),
            interim: false,
            next: Out::Nothing,
            reply: Blob::new(alloc),
        }
    }

    /// The interim response goes before all else. It is owed before anything is handed.
    pub fn owe_interim(&mut self)
        ensures { (f : Flowed) → StandsFor f self.old → MayOwe f → StandsFor (with_interim f) self.new }
    {
        self.interim = true;
    }

    /// One part more, once all before it was given. It is kept as it came.
    pub fn put(&mut self, out: Out)
        ensures { (f : Flowed) → StandsFor f self.old → MayPut f out → StandsFor (with_part out f) self.new }
    {
        self.hold(out);
    }

    fn hold(&mut self, out: Out)
        ensures { self.new ≡ holding out self.old }
    {
        self.framing = framing_with(self.framing, &out);
        self.trailers = trailers_with(self.trailers, &out);
        self.next = out;
    }

    /// A reply of the proxy's own goes behind what waits; no part follows it.
    pub fn reply(&mut self, bytes: Blob)
        ensures { (f : Flowed) → StandsFor f self.old → f.reply ≡ [] → StandsFor (with_reply bytes f) self.new }
    {
        self.reply = bytes;
    }

    /// Whether all was given.
    pub fn is_empty(&self) -> bool
        ensures { (f : Flowed) → StandsFor f self.now → result ≡ (f.given == length (all f)) }
    {
        let idle = self.is_idle();
        idle
    }

    fn is_idle(&self) -> bool
        ensures { result ≡ is_idle self.now }
    {
        self.going.len() == 0
            && !self.interim
            && !has_bytes(self.framing, self.trailers, &self.next)
            && self.reply.is_empty()
    }

    /// How many bytes are kept that weren't given, a part that isn't written yet by its fields or its body bytes. So
    /// body bytes that wait are never more.
    pub fn held(&self) -> u64
        ensures exact { result ≡ min (held self.now) 18_446_744_073_709_551_615 }
        ensures body { (f : Flowed) → StandsFor f self.now →
            min (body_in f (length (all f)) - body_in f f.given) 18_446_744_073_709_551_615 ≤ result }
    {
        let kept = self.kept();
        kept
    }

    fn kept(&self) -> u64
        ensures { result ≡ min (held self.now) 18_446_744_073_709_551_615 }
    {
        (self.going.len() as u64)
            .saturating_add(part_size(&self.next))
            .saturating_add(self.reply.len() as u64)
    }

    /// The next bytes, from 1 to `max`, or none where all was given. Out of memory nothing is given.
    pub fn take(&mut self, max: u32) -> Result<Option<Gave>, AllocError>
        requires { 1 ≤ max }
        ensures gives { (f : Flowed) → StandsFor f self.old → IfOk result (λ gave. IsGiven max f gave) }
        ensures stands { (f : Flowed) → StandsFor f self.old
            → IfOk result (λ gave. StandsFor (after_give gave f) self.new) }
        ensures kept { (f : Flowed) → StandsFor f self.old → OnErr result (StandsFor f self.new) }
    {
        self.ready()?;
        if self.going.len() == 0 {
            return Ok(None);
        }
        let gave = self.going.give(self.alloc, max)?;
        Ok(Some(gave))
    }

    // What goes next is written, where nothing written is left.
    fn ready(&mut self) -> Result<(), AllocError>
        ensures readied { OnOk result (self.new ≡ readied self.old) }
        ensures unchanged { OnErr result (self.new ≡ self.old) }
    {
        if self.going.len() == 0 {
            self.refill()?;
        }
        Ok(())
    }

    fn refill(&mut self) -> Result<(), AllocError>
        ensures refilled { OnOk result (self.new ≡ refilled self.old) }
        ensures unchanged { OnErr result (self.new ≡ self.old) }
    {
        if self.interim {
            let going = write_interim(self.alloc)?;
            self.going = going;
            self.interim = false;
            return Ok(());
        }
        if has_bytes(self.framing, self.trailers, &self.next) {
            let going = write(
                self.alloc,
                self.direction,
                self.framing,
                self.trailers,
                &mut self.next,
            )?;
            self.going = going;
        } else {
            let bytes = mem::replace(&mut self.reply, Blob::new(self.alloc));
            self.going = Going::of(bytes, 0, 0);
        }
        self.next = Out::Nothing;
        Ok(())
    }
}
