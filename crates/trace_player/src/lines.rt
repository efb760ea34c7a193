//! Lines of the transcript.

ghost use Rattle.std.specs.Prelude.{◌≡◌, ◌++◌, ◌∷◌, [], List, OnOk, map, is_some};
ghost use Rattle.filter_model.specs.Right.{Call};
ghost use Rattle.filter_model.specs.declared.calls.Side.TheVariants.{Client, Upstream};
ghost use Rattle.trace_format.specs.Transcripts.{text_of};
ghost use Rattle.trace_format.specs.declared.out.OutLine.TheVariants as out;
ghost use Rattle.trace_model.specs.Lines.{bytes_line, client_line, ending_line, first_end, lines_for, up_line};
ghost use Rattle.trace_model.specs.Lines.{text_of_lines};
ghost use Rattle.trace_player.specs.Ties.{Tells};

use crate::brought::Brought;
use pb_wire::Blob;
use std::alloc::{AllocError, Global};
use trace_format::{OutLine, write_line};

/// Appends a line.
pub(crate) fn push(alloc: Global, text: &mut Vec<u8>, line: &OutLine) -> Result<(), AllocError>
    ensures { OnOk result (text.new.items ≡ text.old.items ++ text_of_lines (line.now ∷ [])) }
{
    let written = write_line(alloc, line)?;
    text.extend_from_slice(written.bytes())?;
    text.push(b'\n')?;
    Ok(())
}

// The bytes that the client got.
fn push_client(alloc: Global, x: u32, bytes: Vec<u8>, text: &mut Vec<u8>) -> Result<(), AllocError>
    ensures { OnOk result (text.new.items ≡ text.old.items ++ text_of_lines (bytes_line (out.ToClient x) bytes.items)) }
{
    if bytes.is_empty() {
        return Ok(());
    }
    push(alloc, text, &OutLine::ToClient(x, Blob::from_vec(bytes)))
}

// The bytes that the upstream got.
fn push_up(alloc: Global, x: u32, bytes: Vec<u8>, text: &mut Vec<u8>) -> Result<(), AllocError>
    ensures { OnOk result (text.new.items ≡ text.old.items ++ text_of_lines (bytes_line (out.ToUp x) bytes.items)) }
{
    if bytes.is_empty() {
        return Ok(());
    }
    push(alloc, text, &OutLine::ToUp(x, Blob::from_vec(bytes)))
}

// The asks that the processor got.
fn push_asks(alloc: Global, x: u32, asks: Vec<Blob>, text: &mut Vec<u8>) -> Result<(), AllocError>
    ensures { OnOk result (text.new.items ≡ text.old.items ++ text_of_lines (map (out.Ask x) asks.items)) }
{
    // Prover: the label names the loop in its proof.
    'asks: for ask in asks {
        push(alloc, text, &OutLine::Ask(x, ask))?;
    }
    Ok(())
}

// How the processor's stream ended.
fn push_ending(
    alloc: Global,
    x: u32,
    ending: Option<bool>,
    text: &mut Vec<u8>,
) -> Result<(), AllocError>
    ensures { OnOk result (text.new.items ≡ text.old.items ++ text_of_lines (ending_line x ending)) }
{
    match ending {
        Some(true) => push(alloc, text, &OutLine::Finish(x)),
        Some(false) => push(alloc, text, &OutLine::Reset(x)),
        None => Ok(()),
    }
}

fn push_client_end(
    alloc: Global,
    x: u32,
    end: Option<bool>,
    text: &mut Vec<u8>,
) -> Result<(), AllocError>
    ensures { OnOk result (text.new.items ≡ text.old.items ++ text_of_lines (client_line x end)) }
{
    match end {
        Some(true) => push(alloc, text, &OutLine::DoneClient(x)),
        Some(false) => push(alloc, text, &OutLine::AbortClient(x)),
        None => Ok(()),
    }
}

fn push_up_end(
    alloc: Global,
    x: u32,
    end: Option<bool>,
    text: &mut Vec<u8>,
) -> Result<(), AllocError>
    ensures { OnOk result (text.new.items ≡ text.old.items ++ text_of_lines (up_line x end)) }
{
    match end {
        Some(true) => push(alloc, text, &OutLine::DoneUp(x)),
        Some(false) => push(alloc, text, &OutLine::AbortUp(x)),
        None => Ok(()),
    }
}

/// The lines of what was brought of exchange `x`, the end of a link where it wasn't written before.
pub(crate) fn write(
    alloc: Global,
    x: u32,
    brought: Brought,
    client_over: bool,
    up_over: bool,
    text: &mut Vec<u8>,
) -> Result<(), AllocError>
    ensures { (before calls : List Call) → Tells calls brought → client_over ≡ is_some (first_end Client before)
        → up_over ≡ is_some (first_end Upstream before)
        → OnOk result (text.new.items ≡ text.old.items ++ text_of_lines (lines_for x before calls)) }
{
    let Brought {
        to_client,
        to_up,
        asks,
        ending,
        client_end,
        up_end,
    } = brought;
    push_client(alloc, x, to_client, text)?;
    push_up(alloc, x, to_up, text)?;
    push_asks(alloc, x, asks, text)?;
    push_ending(alloc, x, ending, text)?;
    push_client_end(alloc, x, if client_over { None } else { client_end }, text)?;
    push_up_end(alloc, x, if up_over { None } else { up_end }, text)?;
    Ok(())
}
