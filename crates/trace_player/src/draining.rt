//! What an exchange gives is taken.

ghost use Rattle.std.specs.Prelude.{◌≡◌, ◌++◌, List, ℕ, IfOk, OnOk, false, not};
ghost use Rattle.http_model.specs.Bytes.{is_empty};
ghost use Rattle.filter_model.specs.Config.{FilterConfig};
ghost use Rattle.filter_model.specs.Right.{Call};
ghost use Rattle.filter_model.specs.declared.calls.Next.TheVariants as next;
ghost use Rattle.exchange.specs.Stands.{IsAfter, IsAfterSome};
ghost use Rattle.trace_player.specs.Ties.{IsDriven, HasDrained, HasStreamed};

use exchange::Exchange;
use filter_model::{Event, Next, Side, Taken};
use pb_wire::Blob;
use std::alloc::{AllocError, Global};

/// What a port gave until it gave no piece.
#[derive(Drop)]
pub(crate) struct Drained {
    /// It gave a piece.
    pub some: bool,
    /// What it answered then.
    pub last: Taken,
}

/// All that a port gives by now, at most 16,384 bytes at a time, is appended.
pub(crate) fn drain(
    exchange: &mut Exchange,
    side: Side,
    got: &mut Vec<u8>,
) -> Result<Drained, AllocError>
    requires { IsDriven exchange.old }
    ensures { (c : FilterConfig) (h : List Call) → IsAfter c h exchange.old
        → IfOk result (λ d. HasDrained c side h got.old.items d got.new.items exchange.new) }
{
    let mut some = false;
    // Prover: the label names the loop in its proof, and its measure is a count.
    'pieces: for _ in 0..u64::MAX {
        match exchange.take(side, 16_384)? {
            Taken::Piece(bytes) => {
                got.extend_from_slice(bytes.bytes())?;
                some = true;
            }
            Taken::Nothing => return Ok(Drained {
                some,
                last: Taken::Nothing,
            }),
            Taken::Done => return Ok(Drained {
                some,
                last: Taken::Done,
            }),
            Taken::Abort => return Ok(Drained {
                some,
                last: Taken::Abort,
            }),
            Taken::Gone => return Ok(Drained {
                some,
                last: Taken::Gone,
            }),
        }
    }
    // More pieces than there are numbers for them.
    Err(AllocError)
}

/// What the processor's stream was given.
#[derive(Drop)]
pub(crate) struct Streamed {
    pub asks: Vec<Blob>,
    /// True where it was finished, false where it was reset.
    pub ending: Option<bool>,
}

/// All that the processor's stream is given by now. An ask that is given is sent at once.
pub(crate) fn stream(alloc: Global, exchange: &mut Exchange) -> Result<Streamed, AllocError>
    requires { IsDriven exchange.old }
    ensures { (c : FilterConfig) (h : List Call) → IsAfter c h exchange.old
        → IfOk result (λ s. HasStreamed c h s.asks.items s.ending exchange.new) }
{
    let mut asks = Vec::new(alloc);
    let mut ending = None;
    // Prover: the label names the loop in its proof, and its measure is a count.
    'nexts: for _ in 0..u64::MAX {
        match exchange.next()? {
            Next::Nothing => return Ok(Streamed { asks, ending }),
            Next::Ask(bytes) => {
                asks.push(bytes)?;
                exchange.step(Event::Sent)?;
            }
            Next::Finish => ending = Some(true),
            Next::Reset => ending = Some(false),
        }
    }
    // More asks than there are numbers for them.
    Err(AllocError)
}
