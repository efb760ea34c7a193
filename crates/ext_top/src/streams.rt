//! Lines in, text out.

ghost use Rattle.std.specs.Prelude.{◌≡◌, ◌++◌, ◌∷◌, [], ◌≤◌, IfOk, OnOk, OnErr, MatchOption, IsErrOf};
ghost use Rattle.std.specs.Io.KnownBytes.{Appends, Consumes, IsAtEnd, Keeps};
ghost use Rattle.px_edge.specs.Causes.{HasCause, Rose};
ghost use Rattle.ext_top.specs.Moves.{ReadsLine, ReadsNone, ReadsSome, WritesSome};

use px_edge::{Failed, Sink, Source};
use std::alloc::Global;

/// Why nothing more was read.
#[derive(Drop)]
pub(crate) enum Stop {
    Read,
    Memory,
}

// The next byte, or none at the end.
fn read_byte<S: Source>(source: &mut S) -> Result<Option<u8>, Failed>
    ensures byte { IfOk result (λ o. MatchOption o (Keeps (S.left source.old) (S.left source.new)
        × IsAtEnd (S.left source.new)) (λ b. Consumes (S.left source.old) (S.left source.new) (b ∷ []))) }
    ensures kept { OnErr result (Keeps (S.left source.old) (S.left source.new)) }
    ensures cause { HasCause (S.faults source.old) (S.faults source.new) result }
{
    let mut buf = [0u8; 1];
    match source.read(&mut buf) {
        Ok(0) => Ok(None),
        Ok(_) => Ok(Some(buf[0])),
        Err(failed) => Err(failed),
    }
}

/// The greatest length of a line in bytes, with its line feed.
pub(crate) const LINE_LIMIT: usize = 4_259_841;

/// The next line, without its line feed, or none where the source ends before one or it has more bytes than `most`
/// with its line feed.
pub(crate) fn read_line<S: Source>(
    alloc: Global,
    source: &mut S,
    most: usize,
) -> Result<Option<Vec<u8>>, Stop>
    ensures line { IfOk result (λ o. MatchOption o (ReadsNone most (S.left source.old) (S.left source.new))
        (λ line. ReadsLine most (S.left source.old) (S.left source.new) line.items)) }
    ensures some { OnErr result (ReadsSome (S.left source.old) (S.left source.new)) }
    ensures later { S.faults source.old ≤ S.faults source.new }
    ensures cause { IsErrOf result Stop.Read → Rose (S.faults source.old) (S.faults source.new) }
{
    let mut line = Vec::new(alloc);
    // Prover: the label names the loop in its proof.
    'bytes: while line.len() < most {
        match read_byte(source) {
            Ok(Some(b'\n')) => return Ok(Some(line)),
            Ok(Some(byte)) => {
                if line.push(byte).is_err() {
                    return Err(Stop::Memory);
                }
            }
            Ok(None) => return Ok(None),
            Err(_) => return Err(Stop::Read),
        }
    }
    Ok(None)
}

/// Writes all of a text.
pub(crate) fn write_all<K: Sink>(sink: &mut K, text: &[u8]) -> Result<(), Failed>
    ensures written { OnOk result (Appends (K.written sink.old) (K.written sink.new) text.now) }
    ensures some { OnErr result (WritesSome (K.written sink.old) (K.written sink.new) text.now) }
    ensures cause { HasCause (K.faults sink.old) (K.faults sink.new) result }
{
    let mut done = 0;
    while done < text.len() {
        let (_, rest) = text.split_at(done);
        match sink.write(rest) {
            Ok(count) => done += count,
            Err(failed) => return Err(failed),
        }
    }
    Ok(())
}
