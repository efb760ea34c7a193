//! Which streams were opened.

ghost use Rattle.std.specs.Prelude.{◌≡◌, ◌≤◌, ◌<◌, ◌+◌, ◌-◌, ◌%◌, ◌^◌, ◌++◌, ◌∷◌, [], if◌then◌else◌, ◌==◌, OnOk, OnErr, true};
ghost use Rattle.std.specs.List.{list_any};
ghost use Rattle.h2_model.specs.Numbers.{has, is_within, may_have, last_of, with_number};
ghost use Rattle.h2_streams.specs.Gaps.{Ascends};

use h2_model::Gap;
use std::alloc::{AllocError, Global};
use std::marker::Model;

/// How many gaps are kept, which take 8 MiB: a peer may open 3, 7, 11, .. (RFC 9113 section 5.1.1), and has sent 9 MiB
/// of HEADERS for so many. One that passes over numbers more often is answered as out of memory.
const MOST_GAPS: usize = 1 << 20;

/// The numbers of the streams that were opened, which are odd: RFC 9113 section 5.1.1. All below the next one were, but
/// for those that a peer passed over.
#[derive(Drop)]
pub struct Numbers {
    // The least number that can be opened.
    next: u32,
    gaps: Vec<Gap>,
}

impl Model for Numbers {
    ghost use Rattle.std.specs.Prelude.{◌≡◌, ◌≤◌, ◌<◌, ◌+◌, ◌%◌, ◌^◌};
    ghost use Rattle.h2_model.specs.Numbers.{Numbers};
    ghost use Rattle.h2_streams.specs.Gaps.{AreGaps};

    ghost Value = { Numbers };

    ghost view = { λ n. record { next = n.next; gaps = n.gaps.items } };

    ghost invariant = { λ n. (n.next % 2 ≡ 1) × (n.next ≤ 2 ^ 31 + 1) × AreGaps n.gaps.items n.next };
}

// The first gap that doesn't end below a number is the one that may have it.
fn is_within(gaps: &[Gap], id: u32) -> bool
    requires { Ascends gaps.now }
    ensures { result ≡ list_any (is_within id) gaps.now }
{
    let at = gaps.partition_point(|gap| gap.last < id);
    if at >= gaps.len() {
        return false;
    }
    gaps[at].first <= id
}

impl Numbers {
    /// No stream was opened. It takes no memory.
    pub fn new(alloc: Global) -> Numbers
        ensures { result ≡ record { next = 1; gaps = [] } }
    {
        Numbers {
            next: 1,
            gaps: Vec::new(alloc),
        }
    }

    /// The least number that can be opened.
    pub fn next(&self) -> u32
        ensures { result ≡ self.now.next }
    {
        self.next
    }

    /// The greatest number that was opened, or 0.
    pub fn last(&self) -> u32
        ensures { result ≡ last_of self.now }
    {
        if self.next == 1 { 0 } else { self.next - 2 }
    }

    /// Whether a stream was opened.
    pub fn is_opened(&self, id: u32) -> bool
        ensures known { result ≡ has id self.now }
        ensures bound { result ≡ true → id < 2 ^ 31 }
    {
        if id % 2 != 1 || id >= self.next {
            return false;
        }
        !is_within(self.gaps.as_slice(), id)
    }

    /// Whether a number is odd, and above all that were opened.
    pub fn can_open(&self, id: u32) -> bool
        ensures { result ≡ may_have id self.now }
    {
        id % 2 == 1 && id >= self.next
    }

    /// Opens the next stream. It takes no memory.
    pub fn open_next(&mut self)
        requires { self.old.next < 2 ^ 31 }
        ensures { self.new ≡ record self.old { next = self.old.next + 2 } }
    {
        self.next += 2;
    }

    /// Opens a stream, and passes over the numbers before it.
    pub fn open(&mut self, id: u32) -> Result<(), AllocError>
        requires number { id < 2 ^ 31 }
        requires above { may_have id self.old ≡ true }
        ensures opened { OnOk result (self.new ≡ with_number id self.old) }
        ensures failed { OnErr result (self.new ≡ self.old) }
    {
        if id > self.next {
            if self.gaps.len() >= MOST_GAPS {
                return Err(AllocError);
            }
            self.gaps.push(Gap {
                first: self.next,
                last: id - 2,
            })?;
        }
        self.next = id + 2;
        Ok(())
    }
}
