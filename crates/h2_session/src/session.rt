//! A session, and the calls of its owner.

ghost use Rattle.std.specs.Prelude.{◌≡◌, ◌≤◌, ◌<◌, ◌+◌, ◌-◌, ◌*◌, ◌^◌, ◌∷◌, ◌&&◌, ◌⊎◌, ◌==◌, [], List, ℕ, take, drop, length, true, false, All, IfOk, OnOk, OnErr, is_some, if◌then◌else◌, min, Some, None, pos, negsuc, ◌≤ℤ◌, ◌-ℤ◌, ◌+ℤ◌, nat_le};
ghost use Rattle.std.specs.Option.{option_to_list};
ghost use Rattle.hpack_core.specs.Tables.{kept};
ghost use Rattle.h2_frames.specs.declared.frame.Frame.TheVariants as frame;
ghost use Rattle.h2_model.specs.Calls.{GivesBytes, MayHead, Role, can_open, control, is_open_here, kept_streams, now, sendable, unsent_bytes, waits};
ghost use Rattle.h2_model.specs.History.{Call, Feed, Open, Head, Send, Finish, Reset, Take, next_number};
ghost use Rattle.h2_model.specs.Moves.{giving, giving_all, handing, resetting};
ghost use Rattle.h2_model.specs.Streams.{is_live};
ghost use Rattle.h2_model.specs.Windows.{stream_window};
ghost use Rattle.h2_model.specs.declared.stream.Stream.{Stream};
ghost use Rattle.h2_model.specs.State.{found};
ghost use Rattle.h2_sender.specs.Sending.{data_kept};
ghost use Rattle.h2_session.specs.Bytes.{begun_bytes, kept_bytes};
ghost use Rattle.h2_session.specs.Keeping.{CanGive, CanGiveWhole, KeepsRoom, KeepsRooms, heading_as, leaves_a_stream, update_in};
ghost use Rattle.h2_streams.specs.Changes.{Allows};
ghost use Rattle.h2_streams.specs.declared.changes.Change.TheVariants.{DataSent};
ghost use Rattle.h2_laws_kept.specs.Kept.{IsBeside, IsSame, lacks_head};
ghost use Rattle.h2_laws_kept.specs.Rooms.{HasSpare, KeepsCapacity};
ghost use Rattle.h2_laws_kept.specs.StandsFor.{Stands, StandsFor};

use crate::judging::is_live;
use ext_msgs::FieldList;
use h2_frames::protocol::{FIRST_WINDOW, LAST_STREAM, LONGEST_PAYLOAD, PREFACE};
use h2_frames::{Frame, FrameReader};
use h2_model::NoStream;
use h2_sender::{Sender, Taken};
use h2_streams::{Change, Numbers, PartialBlock, StreamTable};
use hpack_core::{Decoder, Encoder};
use pb_wire::Blob;
use std::alloc::{AllocError, Global};
use std::collections::VecDeque;
use std::marker::Model;

/// One end of a connection. It stands for the history of its calls.
///
/// After a connection error `head`, `send`, `finish` and `reset` do nothing, and `take` gives what is left, GOAWAY
/// last.
#[derive(Drop)]
pub struct Session {
    pub(crate) alloc: Global,
    pub(crate) client: bool,
    /// How many streams a client keeps.
    pub(crate) kept: u32,
    /// How many bytes of the client's preface a server has.
    pub(crate) greeted: usize,
    pub(crate) reader: FrameReader,
    /// No frame came yet.
    pub(crate) first: bool,
    pub(crate) block: Option<PartialBlock>,
    pub(crate) decoder: Decoder,
    pub(crate) encoder: Encoder,
    /// The peer's SETTINGS_INITIAL_WINDOW_SIZE and SETTINGS_MAX_CONCURRENT_STREAMS.
    pub(crate) initial: u32,
    pub(crate) most: u32,
    /// GOAWAY came.
    pub(crate) goaway: bool,
    /// The code of the first connection error.
    pub(crate) violation: Option<u32>,
    pub(crate) numbers: Numbers,
    /// The number of a client's first stream whose head wasn't handed over.
    pub(crate) headless: u32,
    pub(crate) streams: StreamTable,
    /// The connection's receiving window, and the bytes that came since its last update.
    pub(crate) receive: u32,
    pub(crate) unreturned: u32,
    pub(crate) sender: Sender,
    /// The streams that GOAWAY reset and that `feed` hasn't told, lowest first.
    pub(crate) unreported: VecDeque<u32>,
}

impl Model for Session {
    ghost use Rattle.std.specs.Prelude.{map};
    ghost use Rattle.h2_session.specs.Refused.{refused};
    ghost use Rattle.h2_laws_kept.specs.Kept.{Kept};

    ghost Value = { Kept };

    ghost view = { λ s. record {
      client = s.client;
      streams = s.kept;
      greeted = s.greeted;
      reader = s.reader;
      state = record {
        first = s.first;
        block = s.block;
        table = s.decoder.table;
        known = s.encoder.table.limit;
        limit = s.encoder.limit;
        initial = s.initial;
        most = s.most;
        goaway = s.goaway;
        violation = s.violation;
        window = s.sender.window;
        receive = s.receive;
        unreturned = s.unreturned;
        streams = s.streams.streams;
        waiting = s.sender.waiting;
        held = s.sender.held;
        unreported = map refused s.unreported.items;
      };
      numbers = s.numbers;
      headless = s.headless;
      fault = s.decoder.fault;
      entries = s.encoder.table.entries;
      room = s.sender.room;
      held_room = s.sender.held_room;
      table_room = s.streams.room;
    } };
}

// The stream, or 0, and the increment of a window update.
fn update_in(whole: &Option<Frame>) -> Option<(u32, u32)>
    ensures { result ≡ update_in whole.now }
{
    match whole {
        Some(Frame::Window(id, n)) => Some((*id, *n)),
        _ => None,
    }
}

impl Session {
    fn new(alloc: Global, client: bool, kept: u32) -> Result<Session, AllocError>
        ensures { IfOk result (λ s. StandsFor (record { client = client; streams = kept }) s []) }
    {
        let reader = FrameReader::new(alloc)?;
        let decoder = Decoder::new(alloc)?;
        let encoder = Encoder::new(alloc)?;
        let streams = StreamTable::with_room(alloc, kept as usize)?;
        let sender = Sender::new(alloc, client, kept as usize * 2)?;
        Ok(Session {
            alloc,
            client,
            kept,
            greeted: if client { PREFACE.len() } else { 0 },
            reader,
            first: true,
            block: None,
            decoder,
            encoder,
            initial: FIRST_WINDOW,
            most: u32::MAX,
            goaway: false,
            violation: None,
            numbers: Numbers::new(alloc),
            headless: 1,
            streams,
            receive: FIRST_WINDOW,
            unreturned: 0,
            sender,
            unreported: VecDeque::new(alloc),
        })
    }

    /// A client's end, which can keep so many streams: live ones, and those of which a head, an end or a reset waits.
    pub fn client(alloc: Global, streams: u32) -> Result<Session, AllocError>
        ensures { IfOk result (λ s. StandsFor (record { client = true; streams = streams }) s []) }
    {
        Session::new(alloc, true, streams)
    }

    /// A server's end.
    pub fn server(alloc: Global) -> Result<Session, AllocError>
        ensures { IfOk result (λ s. StandsFor (record { client = false; streams = 0 }) s []) }
    {
        Session::new(alloc, false, 0)
    }

    /// Opens the stream of the next number. There is none where the peer's limit is reached (RFC 9113 section 5.1.2),
    /// the numbers are used up (5.1.1) or GOAWAY came (6.8). It takes no memory.
    pub fn open(&mut self) -> Result<u32, NoStream>
        requires { Stands self.old (λ r h. (r.client ≡ true) × (length (kept_streams (now r h)) < r.streams)) }
        ensures opens { (r : Role) (h : List Call) → StandsFor r self.old h →
            IfOk result (λ id. (can_open (now r h) ≡ true) × (id ≡ next_number (now r h))) }
        ensures none { (r : Role) (h : List Call) → StandsFor r self.old h → OnErr result (can_open (now r h) ≡ false) }
        ensures stands { (r : Role) (h : List Call) → StandsFor r self.old h →
            OnOk result (StandsFor r self.new (Open ∷ h)) }
        ensures same { (r : Role) (h : List Call) → StandsFor r self.old h → OnErr result (StandsFor r self.new h) }
    {
        let id = self.numbers.next();
        if !self.may_open() {
            return Err(NoStream);
        }
        self.numbers.open_next();
        self.streams.open(id);
        Ok(id)
    }

    // Whether the peer's limit, the numbers and GOAWAY leave a stream to open.
    fn may_open(&self) -> bool
        ensures { result ≡ leaves_a_stream self.now }
    {
        self.streams.len() < self.most as usize
            && self.numbers.next() <= LAST_STREAM
            && !self.goaway
    }

    /// Whether the head of a client's stream wasn't handed over.
    pub(crate) fn is_headless(&self, id: u32) -> bool
        ensures value { result ≡ lacks_head id self.now }
        ensures bound { result ≡ true → id < 2 ^ 31 }
    {
        self.client && self.headless <= id && self.numbers.is_opened(id)
    }

    /// Makes room for so many frames beside the ends and resets that may still come without memory.
    pub(crate) fn make_room(&mut self, frames: usize) -> Result<(), AllocError>
        requires { frames ≤ 2 ^ 61 }
        ensures state { self.new.state ≡ self.old.state }
        ensures same { IsSame self.old self.new }
        ensures capacity { KeepsCapacity self.old self.new }
        ensures rooms { KeepsRooms self.old self.new }
        ensures room { OnOk result (HasSpare frames self.new) }
    {
        let room = (self.kept as usize + self.streams.len()) * 2 + frames;
        if !self.client {
            return self.sender.reserve(room, 0);
        }
        self.sender.reserve(room, room)
    }

    /// Hands a field block over. It goes out behind all blocks before it, and before a reset of its stream; behind a
    /// stream's first block goes what was held for it. Out of memory the session is as it was.
    pub fn head(&mut self, id: u32, fields: &FieldList, end: bool) -> Result<(), AllocError>
        requires may { Stands self.old (λ r h. MayHead id (now r h)) }
        requires short { All (λ f. (length f.name < 2 ^ 32) × (length f.value < 2 ^ 32)) fields.now }
        ensures stands { (r : Role) (h : List Call) → StandsFor r self.old h →
            OnOk result ((block : List ℕ) × StandsFor r self.new (Head id fields.now block end ∷ h)) }
        ensures failed { (r : Role) (h : List Call) → StandsFor r self.old h → OnErr result (StandsFor r self.new h) }
    {
        if self.violation.is_some() {
            return Ok(());
        }
        let frames = self.sender.held_frames() + 1;
        self.make_room(frames)?;
        let block = self.encoder.block(fields)?;
        self.hand_head(id, block, end);
        Ok(())
    }

    // HEADERS are handed over: they enter the queue, and behind a stream's first ones what was held for it.
    fn hand_head(&mut self, id: u32, block: Blob, end: bool)
        requires known { self.old.state.known ≡ self.old.state.limit }
        requires room { length self.old.state.held < self.old.room }
        ensures state { self.new.state ≡ heading_as (lacks_head id self.old) id (frame.Headers id block end true)
            self.old.state }
        ensures headless { self.new.headless ≡ (if lacks_head id self.old then id + 2 else self.old.headless) }
        ensures beside { IsBeside self.old self.new }
        ensures numbers { self.new.numbers ≡ self.old.numbers }
        ensures capacity { KeepsCapacity self.old self.new }
    {
        let first = self.is_headless(id);
        self.streams.change(id, Change::BlockSent(end));
        self.sender.enter(Frame::Headers(id, block, end, true));
        if first {
            self.headless = id + 2;
            self.sender.release(id);
        }
    }

    /// Hands the first bytes over, as many as both windows and one frame allow, and answers their number. Out of memory
    /// the session is as it was.
    pub fn send(&mut self, id: u32, bytes: &[u8]) -> Result<u32, AllocError>
        requires { Stands self.old (λ r h. is_open_here id (now r h) ≡ true) }
        ensures within { IfOk result (λ n. n ≤ length bytes.now) }
        ensures taken { (r : Role) (h : List Call) → StandsFor r self.old h →
            IfOk result (λ n. n ≡ sendable id (length bytes.now) (now r h)) }
        ensures stands { (r : Role) (h : List Call) → StandsFor r self.old h →
            IfOk result (λ n. StandsFor r self.new (Send id (take n bytes.now) ∷ h)) }
        ensures failed { (r : Role) (h : List Call) → StandsFor r self.old h → OnErr result (StandsFor r self.new h) }
    {
        let n = self.sendable(id, bytes.len());
        if n == 0 {
            return Ok(0);
        }
        if self.violation.is_some() {
            return Ok(n);
        }
        if !self.sender.has_room_for(n) {
            return Err(AllocError);
        }
        self.make_room(1)?;
        let (first, _) = bytes.split_at(n as usize);
        let content = Blob::of(self.alloc, first)?;
        self.hand_data(id, content, false);
        Ok(n)
    }

    // How many of so many bytes both windows and one frame allow.
    fn sendable(&self, id: u32, len: usize) -> u32
        requires { Stands self.now (λ r h. is_live id (now r h).log ≡ true) }
        ensures count { (r : Role) (h : List Call) → StandsFor r self.now h → result ≡ sendable id len (now r h) }
        ensures within { result ≤ len }
        ensures short { result ≤ 16384 }
        ensures window { 0 < result → pos result ≤ℤ self.now.state.window }
        ensures credit { (t : Stream) → found id self.now.state.streams ≡ Some t → Allows (DataSent false result) t }
    {
        let window = self.window(id).min(self.sender.window());
        if window <= 0 {
            return 0;
        }
        len.min(LONGEST_PAYLOAD as usize).min(window as usize) as u32
    }

    // DATA is handed over: it enters the queue, or is held while its stream's head is awaited.
    fn hand_data(&mut self, id: u32, content: Blob, last: bool)
        requires short { length content ≤ 16_384 }
        requires window { 0 < length content → pos (length content) ≤ℤ self.old.state.window }
        requires bound { 0 < length content →
            data_kept self.old.state.waiting self.old.state.held + length content ≤ 2 ^ 40 }
        requires room { 0 < self.old.room }
        requires held { self.old.client ≡ true → 0 < self.old.held_room }
        requires credit { (t : Stream) → found id self.old.state.streams ≡ Some t →
            Allows (DataSent last (length content)) t }
        ensures state { self.new.state ≡ handing (lacks_head id self.old) (frame.Data id content last (length content))
            self.old.state }
        ensures same { IsSame self.old self.new }
        ensures capacity { KeepsCapacity self.old self.new }
    {
        let n = content.len() as u32;
        self.streams.change(id, Change::DataSent(last, n));
        let frame = Frame::Data(id, content, last, n);
        if self.is_headless(id) {
            self.sender.hold(frame, false);
        } else {
            self.sender.enter(frame);
        }
    }

    /// The stream ends on this side, behind its bytes. It takes no memory.
    pub fn finish(&mut self, id: u32)
        requires { Stands self.old (λ r h. is_open_here id (now r h) ≡ true) }
        ensures { (r : Role) (h : List Call) → StandsFor r self.old h → StandsFor r self.new (Finish id ∷ h) }
    {
        if self.violation.is_some() {
            return;
        }
        self.hand_data(id, Blob::new(self.alloc), true);
    }

    /// The stream is reset: its bytes that wait are dropped, and its blocks go before the reset. It takes no memory.
    pub fn reset(&mut self, id: u32, code: u32)
        requires { Stands self.old (λ r h. is_live id (now r h).log ≡ true) }
        ensures { (r : Role) (h : List Call) → StandsFor r self.old h → StandsFor r self.new (Reset id code ∷ h) }
    {
        if self.violation.is_some() {
            return;
        }
        self.hand_reset(id, code);
    }

    // RST_STREAM is handed over.
    fn hand_reset(&mut self, id: u32, code: u32)
        requires room { 0 < self.old.room }
        requires held { self.old.client ≡ true → 0 < self.old.held_room }
        ensures state { self.new.state ≡ handing (lacks_head id self.old) (frame.Reset id code) self.old.state }
        ensures same { IsSame self.old self.new }
        ensures capacity { KeepsCapacity self.old self.new }
    {
        self.over(id);
        let frame = Frame::Reset(id, code);
        if self.is_headless(id) {
            self.sender.hold(frame, false);
        } else {
            self.sender.enter(frame);
        }
    }

    /// A stream is over by a reset.
    pub(crate) fn over(&mut self, id: u32)
        ensures state { self.new.state ≡ resetting id self.old.state }
        ensures same { IsSame self.old self.new }
        ensures capacity { KeepsCapacity self.old self.new }
        ensures rooms { KeepsRoom self.old self.new }
    {
        self.streams.change(id, Change::Reset);
        self.sender.drop_stream(id);
    }

    /// Gives the next bytes of what waits: none only where there is no room, or nothing waits.
    pub fn take(&mut self, out: &mut [u8]) -> u32
        requires { length out.old < 2 ^ 32 }
        ensures within { result ≤ length out.old }
        ensures gives { (r : Role) (h : List Call) → StandsFor r self.old h →
            GivesBytes (now r h) out.old out.new result }
        ensures stands { (r : Role) (h : List Call) → StandsFor r self.old h → StandsFor r self.new (Take result ∷ h) }
    {
        let Taken { bytes, whole } = self.sender.take(out);
        self.note_given(&whole);
        bytes
    }

    // A frame went out whole.
    fn note_given(&mut self, whole: &Option<Frame>)
        ensures state { CanGiveWhole whole.now self.old.state →
            self.new.state ≡ giving_all (option_to_list whole.now) self.old.state }
        ensures same { IsSame self.old self.new }
        ensures capacity { KeepsCapacity self.old self.new }
    {
        if let Some((id, n)) = update_in(whole) {
            self.widen_receiving(id, n);
        }
    }

    // A window update went out: so much more may come.
    fn widen_receiving(&mut self, id: u32, n: u32)
        ensures state { CanGive id n self.old.state → self.new.state ≡ giving (frame.Window id n) self.old.state }
        ensures same { IsSame self.old self.new }
        ensures capacity { KeepsCapacity self.old self.new }
    {
        if id == 0 {
            self.receive = self.receive.saturating_add(n);
            return;
        }
        self.streams.change(id, Change::UpdateGiven(n));
    }

    /// Whether the stream is live: `reset` and `window` take any that is.
    pub fn is_live(&self, id: u32) -> bool
        ensures { (r : Role) (h : List Call) → StandsFor r self.now h → result ≡ is_live id (now r h).log }
    {
        is_live(&self.streams, id)
    }

    /// Whether the stream is live and open on this side: `send` and `finish` take any that is.
    pub fn may_send(&self, id: u32) -> bool
        ensures { (r : Role) (h : List Call) → StandsFor r self.now h → result ≡ is_open_here id (now r h) }
    {
        match self.streams.get(id) {
            Some(stream) => !stream.here_ended,
            None => false,
        }
    }

    /// Whether `head` may be called: with the next stream that lacks a head, or behind the head of a stream that is
    /// open on this side.
    pub fn may_head(&self, id: u32) -> bool
        ensures may { (r : Role) (h : List Call) → StandsFor r self.now h → result ≡ true → MayHead id (now r h) }
        ensures only { (r : Role) (h : List Call) → StandsFor r self.now h → MayHead id (now r h) → result ≡ true }
    {
        if self.is_headless(id) {
            return self.headless == id;
        }
        self.may_send(id)
    }

    /// What the stream's window lets go out, which may be negative: RFC 9113 section 6.9.2.
    pub fn window(&self, id: u32) -> i64
        requires { Stands self.now (λ r h. is_live id (now r h).log ≡ true) }
        ensures value { (r : Role) (h : List Call) → StandsFor r self.now h → result ≡ stream_window id (now r h) }
        ensures credit { (t : Stream) → found id self.now.state.streams ≡ Some t →
            (negsuc (2 ^ 33) ≤ℤ (t.credit -ℤ result)) × (result ≡ (pos self.now.state.initial +ℤ t.credit)) }
    {
        match self.streams.get(id) {
            Some(stream) => i64::from(self.initial) + stream.credit,
            None => 0,
        }
    }

    /// The length of the frames other than DATA that wait, counted to 2^64 - 1. A peer makes it greater by each PING
    /// and SETTINGS, so its owner feeds no more while it is great.
    pub fn control(&self) -> u64
        ensures { (r : Role) (h : List Call) → StandsFor r self.now h → result ≡ min (control (now r h)) (2 ^ 64 - 1) }
    {
        self.sender.control()
    }

    /// The length of what is kept but for bytes that `send` took, counted to 2^64 - 1: the frame and the block that
    /// were begun, the decoder's table, and the frames other than DATA that wait. After a connection error, when
    /// nothing is read any more, it is what waits.
    pub fn held(&self) -> u64
        ensures { (r : Role) (h : List Call) → StandsFor r self.now h →
            result ≡ min (kept_bytes (now r h)) (2 ^ 64 - 1) }
    {
        let waiting = self.sender.control();
        if self.violation.is_some() {
            return waiting;
        }
        waiting.saturating_add(self.input())
    }

    // The length of what came in and isn't used up: RFC 9113 section 4.1, 4.3.
    fn input(&self) -> u64
        ensures { result ≡ min (length self.now.reader + begun_bytes self.now.state.block + kept
            self.now.state.table.entries) (2 ^ 64 - 1) }
    {
        self.reader
            .held()
            .saturating_add(self.begun())
            .saturating_add(self.decoder.held())
    }

    // The length of the block that was begun.
    fn begun(&self) -> u64
        ensures { result ≡ begun_bytes self.now.state.block }
    {
        match &self.block {
            Some(block) => block.bytes.len() as u64,
            None => 0,
        }
    }

    /// The number of the stream's bytes that `send` took and `take` hasn't given.
    pub fn waiting(&self, id: u32) -> u64
        ensures { (r : Role) (h : List Call) → StandsFor r self.now h → result ≡ unsent_bytes id (now r h) }
    {
        self.sender.unsent(id)
    }

    /// Whether a head, a byte, an end or a reset of the stream waits.
    pub fn waits(&self, id: u32) -> bool
        ensures { (r : Role) (h : List Call) → StandsFor r self.now h → result ≡ waits id (now r h) }
    {
        self.sender.waits(id)
    }
}
