//! The live streams, by their numbers.

ghost use Rattle.std.specs.Prelude.{◌≡◌, ◌≤◌, ◌<◌, ◌+◌, ◌^◌, ◌++◌, ◌∷◌, [], length, take, drop, All, Some, None, OnOk, OnErr, IfOk, IsSome, ◌↔◌, pos, ◌+ℤ◌, ◌≤ℤ◌, vec_len, vec_capacity, MatchOption, IfSome, IfNone, ℕ, slice_index_or};
ghost use Rattle.h2_model.specs.declared.stream.Stream.{Stream};
ghost use Rattle.h2_model.specs.State.{found};
ghost use Rattle.h2_model.specs.Moves.{adjusted, new_stream, unless_over, with_data, with_increment, with_end, with_update, with_sent, with_block_sent, with_room, with_head};
ghost use Rattle.std.specs.List.{list_any};
ghost use Rattle.h2_model.specs.Windows.{is_too_wide};
ghost use Rattle.h2_streams.specs.Changes.{changed, Allows, Counts};
ghost use Rattle.h2_streams.specs.Tables.{Ascends, Apart, HasCreditInRange, IsStreamTable};

use crate::changes::{self, Change, changed};
use h2_frames::protocol::WIDEST_WINDOW;
use h2_model::Stream;
use std::alloc::{AllocError, Global};
use std::marker::Model;

/// The live streams. A look-up halves the table, so it costs little whatever number of them there is.
#[derive(Drop)]
pub struct StreamTable {
    streams: Vec<Stream>,
}

impl Model for StreamTable {
    ghost use Rattle.std.specs.Prelude.{◌-◌, vec_len, vec_capacity};
    ghost use Rattle.h2_streams.specs.Changes.{changed, Allows, Counts};
    ghost use Rattle.h2_streams.specs.Tables.{Table, IsStreamTable};

    ghost Value = { Table };

    ghost view = { λ t. record { streams = t.streams.items; room = vec_capacity t.streams - vec_len t.streams } };

    ghost invariant = { λ t. IsStreamTable t.streams.items };
}

// Prover: free functions over the list do the work, since a method is proved against the whole model of the table.

// The place of a number: where it stands, or would.
fn place(streams: &[Stream], id: u32) -> usize
    requires { Ascends streams.now }
    ensures bound { result ≤ length streams.now }
    ensures below { (k : ℕ) (d : Stream) → k < result → (slice_index_or streams.now k d).id < id }
    ensures above { (k : ℕ) (d : Stream) → result ≤ k → k < length streams.now →
        id ≤ (slice_index_or streams.now k d).id }
{
    streams.partition_point(|stream| stream.id < id)
}

// The place of a number that stands in the table.
fn search(streams: &[Stream], id: u32) -> Option<usize>
    requires { Ascends streams.now }
    ensures bound { IfSome result (λ at. at < length streams.now) }
    ensures none { IfNone result (Apart id streams.now) }
    ensures own { IfSome result (λ at. (d : Stream) → (slice_index_or streams.now at d).id ≡ id) }
{
    let at = place(streams, id);
    if at >= streams.len() {
        return None;
    }
    if streams[at].id != id {
        return None;
    }
    Some(at)
}

// The stream of a number.
// Prover: `?` on an `Option` would leave a goal open.
fn stream_in(streams: &[Stream], id: u32) -> Option<Stream>
    requires { Ascends streams.now }
    ensures { result ≡ found id streams.now }
{
    let Some(at) = search(streams, id) else {
        return None;
    };
    Some(streams[at])
}

fn change_in(streams: &mut Vec<Stream>, id: u32, change: Change)
    requires table { IsStreamTable streams.old.items }
    requires fits { (t : Stream) → found id streams.old.items ≡ Some t → Allows change t }
    ensures items { ((t : Stream) → found id streams.old.items ≡ Some t → Counts change t) →
        streams.new.items ≡ adjusted id (changed change) streams.old.items }
    ensures table { IsStreamTable streams.new.items }
    ensures len { vec_len streams.new ≤ vec_len streams.old }
    ensures capacity { vec_capacity streams.new ≡ vec_capacity streams.old }
{
    let Some(at) = search(streams.as_slice(), id) else {
        return;
    };
    let stream = streams[at];
    match changed(stream, change) {
        Some(next) => streams[at] = next,
        None => {
            streams.remove(at);
        }
    }
}

// Whether a stream's sending window is above 2^31 - 1 at this initial size.
fn is_too_wide(initial: u32, stream: &Stream) -> bool
    requires { HasCreditInRange stream.now }
    ensures { result ≡ is_too_wide (pos initial +ℤ stream.now.credit) }
{
    i64::from(initial) + stream.credit > WIDEST_WINDOW
}

fn widens(streams: &[Stream], initial: u32) -> bool
    requires { All HasCreditInRange streams.now }
    ensures { result ≡ list_any (λ t. is_too_wide (pos initial +ℤ t.credit)) streams.now }
{
    for i in 0..streams.len() {
        if is_too_wide(initial, &streams[i]) {
            return true;
        }
    }
    false
}

// A stream above all the others.
fn open_in(streams: &mut Vec<Stream>, id: u32)
    requires table { IsStreamTable streams.old.items }
    requires room { vec_len streams.old < vec_capacity streams.old }
    ensures items { ((k : ℕ) (d : Stream) → k < length streams.old.items →
        (slice_index_or streams.old.items k d).id < id) →
        streams.new.items ≡ streams.old.items ++ new_stream id ∷ [] }
    ensures table { IsStreamTable streams.new.items }
    ensures len { vec_len streams.new ≤ vec_len streams.old + 1 }
    ensures capacity { vec_capacity streams.new ≡ vec_capacity streams.old }
{
    if place(streams.as_slice(), id) < streams.len() {
        return;
    }
    streams.push_reserved(changes::new_stream(id));
}

impl StreamTable {
    /// An empty table, which takes memory from so many streams on.
    pub fn with_room(alloc: Global, room: usize) -> Result<StreamTable, AllocError>
        ensures empty { IfOk result (λ t. t.streams ≡ []) }
        ensures room { IfOk result (λ t. t.room ≡ room) }
    {
        let streams = Vec::with_capacity(alloc, room)?;
        Ok(StreamTable { streams })
    }

    /// How many there are.
    pub fn len(&self) -> usize
        ensures count { result ≡ length self.now.streams }
        ensures bound { result ≤ 2 ^ 60 }
    {
        self.streams.as_slice().len()
    }

    /// The streams, lowest first.
    pub fn as_slice(&self) -> &[Stream]
        ensures { result.now ≡ self.now.streams }
    {
        self.streams.as_slice()
    }

    /// Whether an initial window of this size makes a sending window too wide: above 2^31 - 1.
    pub fn widens(&self, initial: u32) -> bool
        ensures { result ≡ list_any (λ t. is_too_wide (pos initial +ℤ t.credit)) self.now.streams }
    {
        widens(self.streams.as_slice(), initial)
    }

    /// The stream of a number, where it is live.
    pub fn get(&self, id: u32) -> Option<Stream>
        ensures stream { result ≡ found id self.now.streams }
        ensures range { IfSome result HasCreditInRange }
    {
        stream_in(self.streams.as_slice(), id)
    }

    /// A stream is opened, above all the others: one that isn't changes nothing. It takes no memory.
    pub fn open(&mut self, id: u32)
        requires { 0 < self.old.room }
        ensures streams { ((k : ℕ) (d : Stream) → k < length self.old.streams →
            (slice_index_or self.old.streams k d).id < id) →
            self.new.streams ≡ self.old.streams ++ new_stream id ∷ [] }
        ensures capacity { self.old.room + length self.old.streams ≤ self.new.room + length self.new.streams }
    {
        open_in(&mut self.streams, id);
    }

    /// Makes room for so many more.
    pub fn reserve(&mut self, more: usize) -> Result<(), AllocError>
        ensures streams { self.new.streams ≡ self.old.streams }
        ensures room { OnOk result (more ≤ self.new.room) }
        ensures kept { self.old.room ≤ self.new.room }
    {
        self.streams.reserve(more)
    }

    /// Something happens to a live stream, which may be over by it. A stream that isn't live stays so.
    pub fn change(&mut self, id: u32, change: Change)
        requires { (t : Stream) → found id self.old.streams ≡ Some t → Allows change t }
        ensures streams { ((t : Stream) → found id self.old.streams ≡ Some t → Counts change t) →
            self.new.streams ≡ adjusted id (changed change) self.old.streams }
        ensures capacity { self.old.room + length self.old.streams ≤ self.new.room + length self.new.streams }
    {
        change_in(&mut self.streams, id, change);
    }
}
