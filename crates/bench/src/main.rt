//! Measurements. Without words the program lists them; with a name it measures and prints a table, of which a row has
//! what was measured, a size, the nanoseconds of all, and those of each part.
#![tactic(auto)]

mod calls;
mod exchanges;
mod floods;
mod frames;
mod h1;
mod half;
mod hpack;
mod messages;
mod queues;
mod replays;
mod sessions;
mod table;

use anyhow::Result;
use std::env;

const LIST: &str = "\
read_answer   an answer of 1 KiB, 64 KiB and 1 MiB is read, a byte
write_answer  the same is written, a byte
queues        64 MiB go through a queue of 64 KiB in pieces of 1, 100 and 16,384 bytes, a byte
heads         request heads of about 200 bytes and 8 KiB are read, in one feed and in feeds of one byte, a byte
bodies        16 MiB in chunks of 16 KiB and then of 1 byte are read, in feeds of several lengths, a byte
frames        DATA frames of 16 KiB are read, a byte
calls         messages of 20 bytes and then of 64 KiB are read, in feeds of 1, 100 and 16,384 bytes, a byte
exchange      a GET with one answer, a request; 1 MiB both ways asked piece by piece, 64 KiB both ways asked at once,
              and 64 MiB both ways that pass, a byte
replay        a trace of 10 MB and one of 100 MB are played, a byte
half          64 MiB of a body pass, are kept, cleared, replaced, or asked 64 KiB at once, beside a copy, a byte
huffman       1 MiB of text is spelled as a Huffman string and read back, a byte of text
hpack         header blocks of twelve fields are written and read, a block
sessions      a server's session is fed frames of 1, 64 and 256 live streams, a frame, and 64 MiB on one, a byte
floods        PING, SETTINGS, refused HEADERS, stream errors and resets come behind 1,000 and 7,000 waiting frames,
              each, and so do questions about one stream
";

fn main(rt: HostRuntime) -> Result<()> {
    let mut words = env::args(&rt)?.skip(1);
    let Some(word) = words.next() else {
        print!(rt; "{LIST}")?;
        return Ok(());
    };
    match word.as_str() {
        "read_answer" => messages::measure_read(&rt),
        "write_answer" => messages::measure_write(&rt),
        "queues" => queues::measure(&rt),
        "heads" => h1::measure_heads(&rt),
        "bodies" => h1::measure_bodies(&rt),
        "frames" => frames::measure(&rt),
        "calls" => calls::measure(&rt),
        "exchange" => exchanges::measure(&rt),
        "replay" => replays::measure(&rt),
        "half" => half::measure(&rt),
        "huffman" => hpack::measure_huffman(&rt),
        "hpack" => hpack::measure_blocks(&rt),
        "sessions" => sessions::measure(&rt),
        "floods" => floods::measure(&rt),
        _ => Ok(eprint!(rt; "{LIST}")?),
    }
}
