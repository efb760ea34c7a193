//! A whole input.

ghost use Rattle.std.specs.Prelude.{◌≡◌, ◌≤◌, IfOk, OnErr, IsErrOf};
ghost use Rattle.px_edge.specs.Causes.{Rose};
ghost use Rattle.ext_setup.specs.Inputs.{ReadsLong, ReadsSome, ReadsWhole};

use px_edge::Source;
use std::alloc::Global;

/// The greatest length of an input in bytes.
const LIMIT: usize = 1_048_576;

/// Why an input isn't read whole.
#[derive(Drop)]
pub(crate) enum InputFault {
    Long,
    Read,
    Memory,
}

/// All bytes up to the end of the input. An input that is too long is read up to the first byte that is too many.
pub(crate) fn read_whole<S: Source>(alloc: Global, source: &mut S) -> Result<Vec<u8>, InputFault>
    ensures whole { IfOk result (λ bytes. ReadsWhole (S.left source.old) (S.left source.new) bytes.items) }
    ensures long { IsErrOf result InputFault.Long → ReadsLong (S.left source.old) (S.left source.new) }
    ensures some { OnErr result (ReadsSome (S.left source.old) (S.left source.new)) }
    ensures later { S.faults source.old ≤ S.faults source.new }
    ensures cause { IsErrOf result InputFault.Read → Rose (S.faults source.old) (S.faults source.new) }
{
    let mut bytes = Vec::new(alloc);
    let mut buf = [0u8; 4096];
    // Prover: the label names the loop in its proof.
    'pieces: while bytes.len() <= LIMIT {
        let room = (LIMIT + 1 - bytes.len()).min(buf.len());
        match source.read(&mut buf[..room]) {
            Ok(0) => return Ok(bytes),
            Ok(count) => {
                if bytes.extend_from_slice(&buf[..count]).is_err() {
                    return Err(InputFault::Memory);
                }
            }
            Err(_) => return Err(InputFault::Read),
        }
    }
    Err(InputFault::Long)
}
