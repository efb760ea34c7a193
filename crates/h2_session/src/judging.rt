//! What a frame breaks, brings and makes due, by what the session keeps.

ghost use Rattle.std.specs.Prelude.{◌≡◌, ◌≤◌, ◌<◌, ◌+◌, ◌^◌, ◌++◌, [], All, Err, IfErr, IfOk, None, Ok, OnOk, Some, filter, if◌then◌else◌, length, map, nat_lt, nat_le, not, true, ◌&&◌, ◌||◌, ◌∷◌, ℕ};
ghost use Rattle.h2_frames.specs.declared.frame.Frame.TheVariants as frame;
ghost use Rattle.hpack_core.specs.Reading.{block_of};
ghost use Rattle.h2_model.specs.Account.{Account};
ghost use Rattle.h2_model.specs.Blocks.{OpenBlock, more_of};
ghost use Rattle.h2_model.specs.Codes.{first_row};
ghost use Rattle.h2_model.specs.Duties.{is_open_from_peer, owed_for, reset_for, update, updates};
ghost use Rattle.h2_model.specs.Log.{violation};
ghost use Rattle.h2_model.specs.State.{streams as live_streams, found};
ghost use Rattle.h2_model.specs.Streams.{is_live};
ghost use Rattle.h2_model.specs.Settings.{initial_window};
ghost use Rattle.h2_model.specs.StreamFaults.{block_rows, data_rows, on_live, stream_fault, update_rows, with_stream};
ghost use Rattle.h2_model.specs.Violations.{is_settings};
ghost use Rattle.h2_model.specs.declared.stream.Stream.{Stream};
ghost use Rattle.h2_streams.specs.Rows.{code_of};
ghost use Rattle.h2_streams.specs.Rows.{early_rows};
ghost use Rattle.h2_session.specs.Arrivals.{Fails, IsFaulty, IsUndecoded, KeepsParts};
ghost use Rattle.h2_session.specs.Feeding.{KeepsRole};
ghost use Rattle.h2_session.specs.Steps.{CanCount, IsDecoded, due_frames, IsOn, IsOwed, IsWhole, event_by, is_on_live, refused_ids, update_frames, whole_with};
ghost use Rattle.h2_laws_kept.specs.Arriving.{IfCode};
ghost use Rattle.h2_laws_kept.specs.StandsFor.{Holds};

use crate::session::Session;
use ext_msgs::FieldList;
use h2_frames::Frame;
use h2_frames::codes::{COMPRESSION_ERROR, ENHANCE_YOUR_CALM, FLOW_CONTROL_ERROR, PROTOCOL_ERROR};
use h2_model::{Event, SessionFault, Stream};
use h2_streams::{
    LONGEST, StreamTable, block_fault, breaks_block, data_fault, exceeds_window, has_bad_setting,
    has_long_block, has_wide_setting, is_empty_update, is_on_unopened, is_push, is_settings,
    update_fault, widens_connection,
};
use hpack_core::HpackFault;
use std::alloc::AllocError;
use std::collections::VecDeque;

/// So many bytes that came since the last window update make the next one due.
const DUE: u32 = 32_768;

/// A field block that is whole.
#[derive(Drop)]
pub(crate) struct Whole {
    pub(crate) stream: u32,
    pub(crate) fields: FieldList,
    /// Its HEADERS ends the stream.
    pub(crate) last: bool,
}

// The code of the first row of a table that holds.
fn first_row(rows: &[(bool, u32)]) -> Option<u32>
    ensures { result ≡ first_row rows.now }
{
    for (holds, code) in rows {
        if *holds {
            return Some(*code);
        }
    }
    None
}

// The first frame isn't SETTINGS: RFC 9113 section 3.4.
fn is_unsettled(first: bool, frame: &Frame) -> bool
    ensures { result ≡ (first && not (is_settings frame.now)) }
{
    first && !is_settings(frame)
}

// The code of a block's fault: RFC 9113 section 4.3.
fn code_of(fault: HpackFault) -> Option<u32>
    ensures { result ≡ code_of (Err fault) }
{
    match fault {
        HpackFault::Memory => None,
        HpackFault::ListSize => Some(ENHANCE_YOUR_CALM),
        _ => Some(COMPRESSION_ERROR),
    }
}

impl Session {
    /// The code of the first row of connection errors that a frame breaks, but for those that a whole block tells once
    /// it is decoded.
    pub(crate) fn violation_of(&self, frame: &Frame) -> Option<u32>
        ensures { (a : Account) → Holds self.now a → violation a.log ≡ None →
            result ≡ first_row (early_rows a frame.now) }
    {
        let rows = [
            (is_unsettled(self.first, frame), PROTOCOL_ERROR),
            (breaks_block(&self.block, frame), PROTOCOL_ERROR),
            (is_push(frame), PROTOCOL_ERROR),
            (
                is_on_unopened(self.client, &self.numbers, frame),
                PROTOCOL_ERROR,
            ),
            (has_bad_setting(self.client, frame), PROTOCOL_ERROR),
            (has_wide_setting(&self.streams, frame), FLOW_CONTROL_ERROR),
            (is_empty_update(frame), PROTOCOL_ERROR),
            (
                widens_connection(self.sender.window(), frame),
                FLOW_CONTROL_ERROR,
            ),
            (
                exceeds_window(self.receive, &self.streams, frame),
                FLOW_CONTROL_ERROR,
            ),
            (has_long_block(&self.block, frame), ENHANCE_YOUR_CALM),
        ];
        first_row(&rows)
    }

    /// The block that a frame ends, decoded, or the connection error that it is.
    pub(crate) fn whole_block(&mut self, frame: &Frame) -> Result<Option<Whole>, SessionFault>
        ensures decoded { self.old.fault ≡ None → IfOk result (λ w. IsDecoded self.old.state.table
            (whole_with self.old.state.block frame.now) w self.new.state.table) }
        ensures kept { OnOk result (KeepsParts self.old self.new) }
        ensures fault { self.old.fault ≡ None → OnOk result (self.new.fault ≡ None) }
        ensures refused { self.old.fault ≡ None → IfErr result (IfCode (λ code. IsUndecoded code
            (whole_with self.old.state.block frame.now) self.old self.new)) }
        ensures role { KeepsRole self.old self.new }
    {
        match frame {
            Frame::Headers(id, part, last, true) => {
                let fields = self.decode(part.bytes())?;
                Ok(Some(Whole {
                    stream: *id,
                    fields,
                    last: *last,
                }))
            }
            Frame::Continuation(_, part, true) => self.last_part(part.bytes()),
            _ => Ok(None),
        }
    }

    fn last_part(&mut self, part: &[u8]) -> Result<Option<Whole>, SessionFault>
        ensures decoded { self.old.fault ≡ None → IfOk result (λ w. IsDecoded self.old.state.table
            (more_of part.now self.old.state.block) w self.new.state.table) }
        ensures kept { OnOk result (KeepsParts self.old self.new) }
        ensures fault { self.old.fault ≡ None → OnOk result (self.new.fault ≡ None) }
        ensures refused { self.old.fault ≡ None → IfErr result (IfCode (λ code. IsUndecoded code
            (more_of part.now self.old.state.block) self.old self.new)) }
        ensures role { KeepsRole self.old self.new }
    {
        let Some(block) = &self.block else {
            return Ok(None);
        };
        let stream = block.stream;
        let last = block.last;
        let mut bytes = block.bytes.as_slice().to_vec(self.alloc)?;
        bytes.extend_from_slice(part)?;
        let fields = self.decode(bytes.as_slice())?;
        Ok(Some(Whole {
            stream,
            fields,
            last,
        }))
    }

    // The fields of a block: RFC 9113 sections 4.3 and 10.5.1.
    fn decode(&mut self, block: &[u8]) -> Result<FieldList, SessionFault>
        ensures decoded { self.old.fault ≡ None →
            IfOk result (λ fields. block_of self.old.state.table block.now ≡ Ok (fields, self.new.state.table)) }
        ensures kept { OnOk result (KeepsParts self.old self.new) }
        ensures fault { self.old.fault ≡ None → OnOk result (self.new.fault ≡ None) }
        ensures refused { self.old.fault ≡ None →
            IfErr result (IfCode (λ code. IsFaulty code block.now self.old self.new)) }
        ensures role { KeepsRole self.old self.new }
    {
        if block.len() > LONGEST {
            return Err(self.fail(ENHANCE_YOUR_CALM));
        }
        match self.decoder.block(block) {
            Ok(fields) => Ok(fields),
            Err(fault) => Err(self.end_undecoded(fault)),
        }
    }

    // A block that can't be decoded is a connection error; want of memory is none.
    fn end_undecoded(&mut self, fault: HpackFault) -> SessionFault
        ensures coded { IfCode (λ code. (code_of (Err fault) ≡ Some code) × Fails code self.old self.new) result }
        ensures role { KeepsRole self.old self.new }
    {
        let Some(code) = code_of(fault) else {
            return SessionFault::Memory;
        };
        self.fail(code)
    }

    /// The stream error that a frame is: the stream and the code.
    pub(crate) fn stream_fault(&self, frame: &Frame, whole: &Option<Whole>) -> Option<(u32, u32)>
        ensures { (b : Account) → IsOn self.now b → IsWhole b frame.now whole.now → result ≡ stream_fault b frame.now }
    {
        match (frame, whole) {
            (Frame::Data(id, _, _, _), _) => fault_of_data(&self.streams, *id),
            (Frame::Window(id, n), _) => fault_of_update(&self.streams, self.initial, *id, *n),
            (_, Some(whole)) => fault_of_block(&self.streams, whole),
            _ => None,
        }
    }

    /// The frames that are owed for one, in order.
    pub(crate) fn owed_for(
        &self,
        frame: &Frame,
        fault: Option<(u32, u32)>,
    ) -> Result<VecDeque<Frame>, AllocError>
        ensures frames { (b : Account) → IsOn self.now b → CanCount frame.now self.now.state →
            fault ≡ stream_fault b frame.now →
            IfOk result (λ owed. owed.items ≡ owed_for b frame.now) }
        ensures owed { IfOk result (λ owed. All IsOwed owed.items) }
        ensures count { IfOk result (λ owed. length owed.items ≤ 3) }
    {
        let mut owed = self.due_for(frame)?;
        push_reset(&mut owed, fault)?;
        Ok(owed)
    }

    // The frames that are owed for one, but for RST_STREAM.
    fn due_for(&self, frame: &Frame) -> Result<VecDeque<Frame>, AllocError>
        ensures frames { (b : Account) → IsOn self.now b → CanCount frame.now self.now.state →
            IfOk result (λ owed. owed.items ≡ due_frames b frame.now) }
        ensures owed { IfOk result (λ owed. All IsOwed owed.items) }
        ensures count { IfOk result (λ owed. length owed.items ≤ 2) }
    {
        match frame {
            Frame::Settings(_) => self.due_for_settings(),
            Frame::Ping(ack, bytes) => self.due_for_ping(*ack, *bytes),
            Frame::Data(id, _, last, size) => self.due_for_data(*id, *last, *size),
            _ => Ok(VecDeque::new(self.alloc)),
        }
    }

    // SETTINGS are acknowledged: RFC 9113 section 6.5.3.
    fn due_for_settings(&self) -> Result<VecDeque<Frame>, AllocError>
        ensures frames { IfOk result (λ owed. owed.items ≡ frame.SettingsAck ∷ []) }
        ensures owed { IfOk result (λ owed. All IsOwed owed.items) }
        ensures count { IfOk result (λ owed. length owed.items ≤ 2) }
    {
        let mut owed = VecDeque::new(self.alloc);
        owed.push_back(Frame::SettingsAck)?;
        Ok(owed)
    }

    // PING is answered with its bytes: RFC 9113 section 6.7.
    fn due_for_ping(&self, ack: bool, bytes: [u8; 8]) -> Result<VecDeque<Frame>, AllocError>
        ensures frames { IfOk result (λ owed. owed.items ≡ (if ack then [] else frame.Ping true bytes ∷ [])) }
        ensures owed { IfOk result (λ owed. All IsOwed owed.items) }
        ensures count { IfOk result (λ owed. length owed.items ≤ 2) }
    {
        let mut owed = VecDeque::new(self.alloc);
        if ack {
            return Ok(owed);
        }
        owed.push_back(Frame::Ping(true, bytes))?;
        Ok(owed)
    }

    // Bytes of DATA are given back: RFC 9113 section 6.9.
    fn due_for_data(&self, id: u32, last: bool, size: u32) -> Result<VecDeque<Frame>, AllocError>
        ensures frames { (b : Account) → IsOn self.now b → self.now.state.unreturned + size < 2 ^ 32 →
            ((t : Stream) → found id self.now.state.streams ≡ Some t → t.unreturned + size < 2 ^ 32) →
            IfOk result (λ owed. owed.items ≡ updates b id last size) }
        ensures owed { IfOk result (λ owed. All IsOwed owed.items) }
        ensures count { IfOk result (λ owed. length owed.items ≤ 2) }
    {
        let mut owed = VecDeque::new(self.alloc);
        push_update(&mut owed, 0, self.connection_update(size))?;
        push_update(&mut owed, id, self.stream_update(id, last, size))?;
        Ok(owed)
    }

    // The window update that DATA makes due on the connection: RFC 9113 section 6.9.
    fn connection_update(&self, size: u32) -> Option<u32>
        ensures { (b : Account) → IsOn self.now b → self.now.state.unreturned + size < 2 ^ 32 →
            update_frames 0 result ≡ update 0 size b.log }
    {
        due(self.unreturned, size)
    }

    // The window update that DATA makes due on its stream, while that is open from the peer: RFC 9113 section 6.9.
    fn stream_update(&self, id: u32, last: bool, size: u32) -> Option<u32>
        ensures { (b : Account) → IsOn self.now b →
            ((t : Stream) → found id self.now.state.streams ≡ Some t → t.unreturned + size < 2 ^ 32) →
            update_frames id result ≡ (if is_open_from_peer b id last then update id size b.log else []) }
    {
        match self.streams.get(id) {
            Some(stream) => {
                if is_shut(last, stream.peer_ended, self.is_headless(id)) {
                    return None;
                }
                due(stream.unreturned, size)
            }
            None => None,
        }
    }

    /// The streams that a server's GOAWAY refuses, lowest first: RFC 9113 section 6.8.
    pub(crate) fn refused_by(&self, frame: &Frame) -> Result<VecDeque<u32>, AllocError>
        ensures { IfOk result (λ ids. ids.items ≡ refused_ids self.now.client frame.now self.now.state.streams) }
    {
        let mut refused = VecDeque::new(self.alloc);
        if let Frame::GoAway(last, _) = frame {
            if self.client {
                push_above(&mut refused, *last, self.streams.as_slice())?;
            }
        }
        Ok(refused)
    }
}

// Nothing more comes on the stream, or its head is awaited.
fn is_shut(last: bool, peer_ended: bool, headless: bool) -> bool
    ensures { result ≡ (last || peer_ended || headless) }
{
    last || peer_ended || headless
}

// A window update, where one is due.
fn push_update(owed: &mut VecDeque<Frame>, id: u32, n: Option<u32>) -> Result<(), AllocError>
    ensures frames { OnOk result (owed.new.items ≡ owed.old.items ++ update_frames id n) }
    ensures owed { All IsOwed owed.old.items → OnOk result (All IsOwed owed.new.items) }
    ensures count { OnOk result (length owed.new.items ≤ length owed.old.items + 1) }
{
    if let Some(n) = n {
        owed.push_back(Frame::Window(id, n))?;
    }
    Ok(())
}

// RST_STREAM, where there is an error.
fn push_reset(owed: &mut VecDeque<Frame>, fault: Option<(u32, u32)>) -> Result<(), AllocError>
    ensures frames { OnOk result (owed.new.items ≡ owed.old.items ++ reset_for fault) }
    ensures owed { All IsOwed owed.old.items → OnOk result (All IsOwed owed.new.items) }
    ensures count { OnOk result (length owed.new.items ≤ length owed.old.items + 1) }
{
    if let Some((id, code)) = fault {
        owed.push_back(Frame::Reset(id, code))?;
    }
    Ok(())
}

// All that came since the last update, once it is due.
fn due(unreturned: u32, size: u32) -> Option<u32>
    ensures { (id : ℕ) → unreturned + size < 2 ^ 32 → update_frames id result ≡
        (if nat_le 32768 (unreturned + size) then frame.Window id (unreturned + size) ∷ [] else []) }
{
    let taken = unreturned.saturating_add(size);
    if taken < DUE {
        return None;
    }
    Some(taken)
}

// An error with its stream.
fn with_stream(id: u32, code: Option<u32>) -> Option<(u32, u32)>
    ensures { result ≡ with_stream id code }
{
    match code {
        Some(code) => Some((id, code)),
        None => None,
    }
}

fn fault_of_data(streams: &StreamTable, id: u32) -> Option<(u32, u32)>
    ensures { (b : Account) → streams.now.streams ≡ live_streams b → result ≡ on_live b id (data_rows b id) }
{
    match streams.get(id) {
        Some(stream) => with_stream(id, data_fault(&stream)),
        None => None,
    }
}

fn fault_of_update(streams: &StreamTable, initial: u32, id: u32, n: u32) -> Option<(u32, u32)>
    ensures { (b : Account) → streams.now.streams ≡ live_streams b → initial ≡ initial_window b.log →
        result ≡ on_live b id (update_rows b id n) }
{
    match streams.get(id) {
        Some(stream) => with_stream(id, update_fault(&stream, initial, n)),
        None => None,
    }
}

fn fault_of_block(streams: &StreamTable, whole: &Whole) -> Option<(u32, u32)>
    ensures { (b : Account) (o : OpenBlock) → streams.now.streams ≡ live_streams b → whole.now.stream ≡ o.stream →
        whole.now.last ≡ o.last →
        result ≡ on_live b o.stream (block_rows b o whole.now.fields) }
{
    match streams.get(whole.stream) {
        Some(stream) => with_stream(
            whole.stream,
            block_fault(&stream, whole.last, &whole.fields),
        ),
        None => None,
    }
}

// The numbers of the streams above one.
fn push_above(ids: &mut VecDeque<u32>, last: u32, streams: &[Stream]) -> Result<(), AllocError>
    ensures { OnOk result (ids.new.items ≡ ids.old.items
        ++ map (λ t. t.id) (filter (λ t. nat_lt last t.id) streams.now)) }
{
    for stream in streams {
        if stream.id > last {
            ids.push_back(stream.id)?;
        }
    }
    Ok(())
}

/// What a frame brings, by the live streams before it.
pub(crate) fn event_of(
    frame: Frame,
    whole: Option<Whole>,
    fault: Option<(u32, u32)>,
    live: bool,
) -> Event
    ensures { result ≡ event_by frame whole fault live }
{
    if let Some((id, code)) = fault {
        return Event::Reset(id, code);
    }
    match (frame, whole) {
        (Frame::GoAway(last, code), _) => Event::GoAway(last, code),
        (Frame::Data(id, content, last, _), _) if live => Event::Data(id, content, last),
        (Frame::Reset(id, code), _) if live => Event::Reset(id, code),
        (_, Some(whole)) if live => Event::Head(whole.stream, whole.fields, whole.last),
        _ => Event::Nothing,
    }
}

/// Whether a stream is live.
pub(crate) fn is_live(streams: &StreamTable, id: u32) -> bool
    ensures { (b : Account) → streams.now.streams ≡ live_streams b → result ≡ is_live id b.log }
{
    match streams.get(id) {
        Some(_) => true,
        None => false,
    }
}

/// Whether the stream is live of which a frame, or the block that it ends, is.
pub(crate) fn is_on_live(streams: &StreamTable, frame: &Frame, whole: &Option<Whole>) -> bool
    ensures { (b : Account) → streams.now.streams ≡ live_streams b → result ≡ is_on_live b frame.now whole.now }
{
    match (frame, whole) {
        (Frame::Data(id, _, _, _), _) => is_live(streams, *id),
        (Frame::Reset(id, _), _) => is_live(streams, *id),
        (_, Some(whole)) => is_live(streams, whole.stream),
        _ => false,
    }
}
