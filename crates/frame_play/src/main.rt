//! Plays what HTTP/2 is spelled with by a script: HPACK's integers and Huffman strings, header blocks, and frames. A
//! line is one of
//!
//! | line | does |
//! |---|---|
//! | `int PREFIX AT BYTES` | reads the integer in the last PREFIX bits of the byte AT that place: its value, and the place behind it |
//! | `write-int PREFIX FIRST VALUE` | writes an integer behind the high bits of FIRST, into eight bytes of 7: its bytes, and those behind them |
//! | `huffman BYTES` | reads a Huffman string |
//! | `write-huffman BYTES` | writes one, into 32 bytes of 7: how long it is said to be, its bytes, and the byte behind them |
//! | `each-byte-in-huffman` | writes and reads each byte around an `a`: whether all come back |
//! | `first-block BYTES` | a new decoder reads a header block: its fields |
//! | `block BYTES` | that decoder reads the next block |
//! | `held` | how many bytes the decoder and the encoder keep |
//! | `encoder` | begins an encoder |
//! | `limit N` | the peer's limit of that encoder's table |
//! | `write FIELDS` | the encoder's next block |
//! | `write-and-read FIELDS` | that block, and the fields that the decoder reads from it |
//! | `frames BYTES` | a new reader gets the bytes in pieces of each length: the frames that they are, and how many bytes are left, or the code of a refusal and `at` which byte it comes, byte by byte |
//! | `rewrite BYTES` | the frame that the bytes are, and the bytes that are written for it, seven at a time |
//! | `reader` | begins a reader of frames |
//! | `feed BYTES` | that reader gets the bytes as one piece: the same, and how many bytes it keeps |
//! | `# ..` | a heading |
//!
//! Bytes are words of hexadecimal digits, each of which may be repeated, as `00*3`; `00*0` is none. Fields are
//! `NAME=VALUE`, with a value in hexadecimal digits behind `%`.
#![tactic(auto)]

mod blocks;
mod frames;
mod play;
mod prims;
mod text;

use anyhow::Result;
use blocks::Coders;
use h2_frames::FrameReader;

fn main(rt: HostRuntime) -> Result<()> {
    let mut coders = Coders::new(rt.alloc())?;
    let mut reader = FrameReader::new(rt.alloc())?;
    for line in rt.lines(rt.alloc()) {
        let told = play::line(rt.alloc(), &mut coders, &mut reader, line?.as_str())?;
        println!(rt; "{told}")?;
    }
    Ok(())
}
