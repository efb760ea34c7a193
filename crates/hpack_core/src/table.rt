//! The dynamic table: RFC 7541, sections 2.3 and 4.

ghost use Rattle.std.specs.Prelude.{◌≡◌, ◌+◌, ◌^◌, ◌<◌, ◌≤◌, [], MatchOption, OnOk, OnErr};
ghost use Rattle.hpack_core.specs.Tables.{size, total, kept, cut, added, resized};
ghost use Rattle.hpack_core.specs.Reading.{GivesValue, entry_at};

use crate::HpackFault;
use crate::static_table::static_at;
use ext_msgs::Field;
use pb_wire::{Blob, Duplicate};
use std::alloc::{AllocError, Global};
use std::collections::VecDeque;
use std::marker::Model;

// The size that a table begins with, and that it may have.
pub(crate) const MOST: u32 = 4096;

// The entries that were added, newest first, the sum of their sizes, and what that may be.
#[derive(Drop)]
pub(crate) struct Table {
    entries: VecDeque<Field>,
    size: u64,
    limit: u64,
}

impl Model for Table {
    ghost use Rattle.hpack_core.specs.Tables.{TableState, IsTable};

    ghost Value = { TableState };

    ghost view = { λ t. record { entries = t.entries.items; limit = t.limit } };

    ghost invariant = { λ t. IsTable t.entries.items t.size t.limit };
}

// What of the room is left behind a field.
pub(crate) fn room_behind(room: u64, field: &Field) -> Option<u64>
    ensures { MatchOption result (room < size field.now) (λ left. left + size field.now ≡ room) }
{
    let room = room.checked_sub(32)?;
    let room = room.checked_sub(field.name.bytes().len() as u64)?;
    room.checked_sub(field.value.bytes().len() as u64)
}

// The size of a field.
fn size_of(field: &Field) -> u64
    requires { size field.now < 2 ^ 64 }
    ensures { result ≡ size field.now }
{
    field.name.len() as u64 + field.value.len() as u64 + 32
}

// Drops the oldest entries until the others fit, and answers the sum of their sizes.
fn evict(entries: &mut VecDeque<Field>, size: u64, limit: u64) -> u64
    requires { size ≡ total entries.old.items }
    ensures kept { entries.new.items ≡ cut limit entries.old.items }
    ensures size { result ≡ total entries.new.items }
    ensures fits { result ≤ limit }
{
    let mut size = size;
    while size > limit {
        let Some(oldest) = entries.pop_back() else {
            return 0;
        };
        size -= size_of(&oldest);
    }
    size
}

impl Table {
    pub(crate) fn new(alloc: Global) -> Table
        ensures empty { result.entries ≡ [] }
        ensures limit { result.limit ≡ 4096 }
    {
        Table {
            entries: VecDeque::new(alloc),
            size: 0,
            limit: u64::from(MOST),
        }
    }

    // Adds an entry, and drops the oldest that don't fit.
    pub(crate) fn add(&mut self, field: Field) -> Result<(), AllocError>
        ensures added { OnOk result (self.new ≡ added field self.old) }
        ensures unchanged { OnErr result (self.new ≡ self.old) }
    {
        let limit = self.limit;
        let Some(room) = room_behind(limit, &field) else {
            self.entries.clear();
            self.size = 0;
            return Ok(());
        };
        self.entries.push_front(field)?;
        self.size = evict(&mut self.entries, self.size + (limit - room), limit);
        Ok(())
    }

    // Sets the size, and drops the oldest entries that don't fit.
    pub(crate) fn resize(&mut self, limit: u32)
        requires { limit ≤ 4096 }
        ensures { self.new ≡ resized limit self.old }
    {
        let limit = u64::from(limit);
        self.size = evict(&mut self.entries, self.size, limit);
        self.limit = limit;
    }

    // The bytes of the names and values.
    pub(crate) fn held(&self) -> u64
        ensures held { result ≡ kept self.now.entries }
        ensures bound { result ≤ 4096 }
    {
        self.size - 32 * self.entries.len() as u64
    }

    // The entry of an index, named by the representation at a place: its own copy.
    #[tactic(auto, unfolding(crate::specs::Reading::entry_at))]
    pub(crate) fn entry(&self, alloc: Global, at: u32, index: u32) -> Result<Field, HpackFault>
        ensures { GivesValue (λ f. f) result (entry_at self.now.entries at index) }
    {
        if index == 0 {
            return Err(HpackFault::Index(at));
        }
        if index <= 61 {
            let (name, value) = static_at(index - 1);
            let name = Blob::of(alloc, name)?;
            let value = Blob::of(alloc, value)?;
            return Ok(Field { name, value });
        }
        match self.entries.get((index - 62) as usize) {
            Some(field) => Ok(field.copy()?),
            None => Err(HpackFault::Index(at)),
        }
    }
}
