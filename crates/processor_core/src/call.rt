//! One call of the service: its asks come in, its answers wait to go out.
//!
//! ```text
//!          asks and answers                        the client's end, and all answers handed over
//!              ┌──┐                                              ┌───────────────────────▶ status 0
//!   head       │  ▼                                              │
//!   ──────▶  open  ──────────────────────────────────────▶  ended by the client
//!     │        │        a fault: 3, 8; out of memory: 14         │
//!     └────────┴──────────────▶ failed ◀──────────────────────────┘
//!   refused: 3, 12                 └── all answers handed over ──▶ its status
//! ```

ghost use Rattle.std.specs.Prelude.{◌≡◌, ◌≤◌, ◌<◌, ◌^◌, ◌++◌, ◌∷◌, [], Some, None, drop, length, map, true, IfSome, OnOk, OnErr};
ghost use Rattle.ext_msgs.specs.Spelling.{answer as answered};
ghost use Rattle.ext_msgs.specs.Messages.{ask_of};
ghost use Rattle.grpc_call.specs.Written.{framed_message};
ghost use Rattle.processor_core.specs.Calls.{Becomes, Hears, Turns, begun_call, finished_by, met, put, refused_with, status_for};
ghost use Rattle.processor_core.specs.Chosen.{TellsOver};

use crate::owed::Owed;
use crate::stages::Stages;
use ext_msgs::{Answer, Ask, FieldList, MsgFault, read_ask, write_answer};
use grpc_call::{CallFault, CallReader, frame_of, refusal_of};
use pb_wire::Blob;
use rule_book::Stage;
use std::alloc::{AllocError, Global};
use std::marker::Model;

/// The greatest length of an ask in bytes.
pub(crate) const ASK_LIMIT: u32 = 4_194_304;

/// Statuses of gRPC.
const INVALID_ARGUMENT: u32 = 3;

const RESOURCE_EXHAUSTED: u32 = 8;

const UNAVAILABLE: u32 = 14;

// The status for a message that is no ask.
fn refused_with(fault: &MsgFault) -> u32
    ensures { result ≡ refused_with fault.now }
{
    match fault {
        MsgFault::Memory => UNAVAILABLE,
        MsgFault::Wire(_) | MsgFault::Utf8(_) | MsgFault::BadNumber(_) | MsgFault::NoMember =>
            INVALID_ARGUMENT,
    }
}

// The status for what is at fault with the bytes of a call, and none where it ends as it should.
fn status_for(fault: CallFault) -> Option<u32>
    ensures { result ≡ status_for fault }
{
    match fault {
        CallFault::NoStatus => None,
        CallFault::TooLong(_) => Some(RESOURCE_EXHAUSTED),
        CallFault::Memory => Some(UNAVAILABLE),
        CallFault::Head | CallFault::Compressed | CallFault::Cut => Some(INVALID_ARGUMENT),
    }
}

/// A call, from its head until its end has gone out.
#[derive(Drop)]
pub struct Call {
    alloc: Global,
    pub(crate) stream: u32,
    reader: CallReader,
    /// The client has ended its side.
    pub(crate) ended: bool,
    pub(crate) owed: Owed,
    /// The status with which it failed.
    pub(crate) status: Option<u32>,
    /// The response's head was handed to the session,
    pub(crate) headed: bool,
    /// and its end.
    pub(crate) closed: bool,
}

impl Model for Call {
    ghost use Rattle.std.specs.Prelude.{◌≡◌, true};
    ghost use Rattle.processor_core.specs.Calls.{ServedCall};

    ghost Value = { ServedCall };

    ghost view = { λ c. record {
      stream = c.stream;
      limit = c.reader.limit;
      rest = c.reader.rest;
      ended = c.ended;
      owed = c.owed;
      status = c.status;
      headed = c.headed;
      closed = c.closed;
    } };

    ghost invariant = { λ c. (c.reader.headed ≡ true) × (c.reader.limit ≡ 4194304) };
}

impl Call {
    /// A call whose head came, which may end its stream.
    pub(crate) fn new(alloc: Global, stream: u32, fields: &FieldList, ends: bool) -> Call
        ensures { result ≡ begun_call 4194304 stream fields.now ends }
    {
        Call {
            alloc,
            stream,
            reader: CallReader::request(alloc, ASK_LIMIT),
            ended: ends,
            owed: Owed::new(alloc),
            status: refusal_of(fields),
            headed: false,
            closed: false,
        }
    }

    /// The call fails, and no stage is asked for it any more.
    pub(crate) fn fail<S: Stage>(&mut self, stages: &mut Stages<S>, status: u32)
        ensures call { self.new ≡ record self.old { status = Some status; rest = [] } }
        ensures stages { TellsOver S.stands stages.old.seats.items self.old.stream stages.new.seats.items }
    {
        self.status = Some(status);
        self.reader = CallReader::request(self.alloc, ASK_LIMIT);
        stages.over(self.stream)
    }

    // An answer waits to be handed over. Out of memory nothing changes.
    fn write(&mut self, answer: &Answer) -> Result<(), AllocError>
        ensures written { OnOk result (self.new
            ≡ record self.old { owed = self.old.owed ++ framed_message (answered answer.now) }) }
        ensures failed { OnErr result (self.new ≡ self.old) }
    {
        let message = write_answer(self.alloc, answer)?;
        if message.bytes().len() > u32::MAX as usize {
            return Err(AllocError);
        }
        let framed = frame_of(self.alloc, message.bytes())?;
        self.owed.push(framed.bytes())
    }

    // An ask is answered by the stages as they stand.
    fn put<S: Stage>(&mut self, stages: &mut Stages<S>, ask: &Ask)
        ensures { Becomes S.stands stages.old.seats.items self.old stages.new.seats.items self.new
            (put ask.now) }
    {
        match stages.ask(self.stream, ask) {
            Ok(answer) => match self.write(&answer) {
                Ok(()) => {}
                Err(_) => self.fail(stages, UNAVAILABLE),
            },
            Err(_) => self.fail(stages, UNAVAILABLE),
        }
    }

    // A message came whole.
    fn meet<S: Stage>(&mut self, stages: &mut Stages<S>, message: &Blob)
        requires { length message.now < 2 ^ 32 }
        ensures { Becomes S.stands stages.old.seats.items self.old stages.new.seats.items self.new
            (met message.now) }
    {
        match read_ask(self.alloc, message.bytes()) {
            Ok(ask) => self.put(stages, &ask),
            Err(fault) => self.fail(stages, refused_with(&fault)),
        }
    }

    // The stream ended, or there is a fault in its bytes.
    fn finish<S: Stage>(&mut self, stages: &mut Stages<S>, fault: CallFault)
        ensures { Becomes S.stands stages.old.seats.items self.old stages.new.seats.items self.new
            (λ f. finished_by (status_for fault)) }
    {
        match status_for(fault) {
            None => self.ended = true,
            Some(status) => self.fail(stages, status),
        }
    }

    // Reads the next message, and says how many of the bytes ended it where the call goes on.
    fn turn<S: Stage>(&mut self, stages: &mut Stages<S>, bytes: &[u8], ends: bool) -> Option<u32>
        requires { length bytes.now < 2 ^ 32 }
        ensures turned { Turns S.stands stages.old.seats.items self.old bytes.now ends result stages.new.seats.items
            self.new }
        ensures used { IfSome result (λ n. (0 < n) × (n ≤ length bytes.now)) }
    {
        match self.reader.data(bytes, ends) {
            Ok(Some((message, used))) => {
                self.meet(stages, &message);
                match self.status {
                    Some(_) => None,
                    None => Some(used),
                }
            }
            Ok(None) => None,
            Err(fault) => {
                self.finish(stages, fault);
                None
            }
        }
    }

    /// DATA came, and whether it ends the stream: each ask that it completes is answered. For a call that failed it is
    /// nothing any more.
    pub(crate) fn hear<S: Stage>(&mut self, stages: &mut Stages<S>, bytes: &[u8], ends: bool)
        requires { length bytes.now < 2 ^ 32 }
        ensures { Hears S.stands stages.old.seats.items self.old bytes.now ends stages.new.seats.items self.new }
    {
        let mut rest = bytes;
        // Prover: the label names the loop in its proof.
        'turns: while let Some(used) = self.turn(stages, rest, ends) {
            let (_, behind) = rest.split_at(used as usize);
            rest = behind;
        }
    }
}
