ghost use Rattle.std.specs.Prelude.{◌≡◌, ◌≤◌, ◌<◌, ◌-◌, ◌||◌, [], Some, length, min, take, is_err, true, false, IfOk, OnErr};
ghost use Rattle.std.specs.Io.{WritesAtMost};
ghost use Rattle.std.specs.Io.KnownBytes.{Keeps, WriteAppends};
ghost use Rattle.px_edge.specs.Causes.{HasCause};
ghost use Rattle.px_edge.specs.Links.{raised};
ghost use Rattle.px_edge.specs.Memory.{is_failing, is_full, store_failed, store_written};

use crate::{Failed, MemSink, OutLink, Sink};
use std::alloc::{AllocError, Global};
use std::marker::Model;

/// An out-link in memory with room for so many bytes, some of whose writes fail.
#[derive(Drop)]
pub struct MemOut {
    sink: MemSink,
    shut: bool,
    aborted: bool,
}

impl Model for MemOut {
    ghost use Rattle.px_edge.specs.Links.{LinkStore};

    ghost Value = { LinkStore };

    ghost view = { λ l. record { store = l.sink; shut = l.shut; aborted = l.aborted } };
}

impl MemOut {
    /// An out-link with this room. The writes with these numbers, from 0, fail.
    pub fn new(alloc: Global, room: u32, failing: &[u64]) -> Result<MemOut, AllocError>
        ensures { IfOk result (λ link. link ≡ record {
          store = record { written = []; room = room; failing = failing.now; calls = 0; faults = 0 };
          shut = false;
          aborted = false;
        }) }
    {
        let sink = MemSink::new(alloc, room, failing)?;
        Ok(MemOut {
            sink,
            shut: false,
            aborted: false,
        })
    }

    /// What was written.
    pub fn bytes(&self) -> &[u8]
        ensures { result.now ≡ self.now.store.written }
    {
        self.sink.bytes()
    }

    /// Whether the link was shut.
    pub fn is_shut(&self) -> bool
        ensures { result ≡ self.now.shut }
    {
        self.shut
    }

    /// Whether the link was aborted.
    pub fn is_aborted(&self) -> bool
        ensures { result ≡ self.now.aborted }
    {
        self.aborted
    }
}

impl OutLink for MemOut {
    ghost written = { λ l. Some l.store.written };

    ghost faults = { λ l. l.store.faults };

    ghost was_shut = { λ l. Some l.shut };

    ghost was_aborted = { λ l. Some l.aborted };

    fn write(&mut self, piece: &[u8]) -> Result<usize, Failed>
        ensures bound { WritesAtMost result piece.now }
        ensures some { IfOk result (λ n. 0 < length piece.now → 0 < n) }
        ensures bytes { WriteAppends (Some self.old.store.written) (Some self.new.store.written) result piece.now }
        ensures cause { HasCause self.old.store.faults self.new.store.faults result }
        ensures shut { Some self.new.shut ≡ Some self.old.shut }
        ensures aborted { Some self.new.aborted ≡ Some self.old.aborted }
        ensures fails { is_err result ≡ (is_failing self.old.store.failing self.old.store.calls
            || is_full self.old.store (length piece.now)) }
        ensures count { IfOk result (λ n. n ≡ min (length piece.now)
            (self.old.store.room - length self.old.store.written)) }
        ensures written { IfOk result (λ n. self.new ≡ record self.old
            { store = store_written self.old.store (take n piece.now) }) }
        ensures failed { OnErr result (self.new ≡ record self.old { store = store_failed self.old.store }) }
    {
        self.sink.write(piece)
    }

    fn shut(&mut self)
        ensures bytes { Keeps (Some self.old.store.written) (Some self.new.store.written) }
        ensures later { self.old.store.faults ≤ self.new.store.faults }
        ensures shut { Some self.new.shut ≡ raised (Some self.old.shut) }
        ensures aborted { Some self.new.aborted ≡ Some self.old.aborted }
        ensures value { self.new ≡ record self.old { shut = true } }
    {
        self.shut = true;
    }

    fn abort(&mut self)
        ensures bytes { Keeps (Some self.old.store.written) (Some self.new.store.written) }
        ensures later { self.old.store.faults ≤ self.new.store.faults }
        ensures shut { Some self.new.shut ≡ Some self.old.shut }
        ensures aborted { Some self.new.aborted ≡ raised (Some self.old.aborted) }
        ensures value { self.new ≡ record self.old { aborted = true } }
    {
        self.aborted = true;
    }
}
