//! Plays the calls on messages by a script: records, asks and answers, and mutations of heads. A line is one of
//!
//! | line | does |
//! |---|---|
//! | `records HEX` | reads records to their end or first fault, and asks once more |
//! | `part START LENGTH HEX` | the same of a part of the bytes |
//! | `spell varint NUMBER VALUE, bytes NUMBER HEX, ..` | writes records |
//! | `answer HEX`, `ask HEX` | reads a message, says what is in it, and writes it again |
//! | `apply PART, ..`, `judge PART, ..` | a mutation of a head or of trailers, whose parts `mutations.rt` lists |
//! | `reply STATUS, ..` | the head of an immediate response |
//!
//! Any other line is a heading, and is written as it stands.
#![tactic(auto)]

mod messages;
mod mutations;
mod operands;
mod records;

use anyhow::Result;

// Plays a line.
fn play(rt: &HostRuntime, line: &str) -> Result<()> {
    let (word, operands) = line.split_once(' ').unwrap_or((line, ""));
    match word {
        "records" => records::read(rt, operands),
        "part" => records::read_part(rt, operands),
        "spell" => records::spell(rt, operands),
        "answer" => messages::answer(rt, operands),
        "ask" => messages::ask(rt, operands),
        "apply" => mutations::apply(rt, operands),
        "judge" => mutations::judge(rt, operands),
        "reply" => mutations::reply(rt, operands),
        _ => Ok(println!(rt; "{line}")?),
    }
}

fn main(rt: HostRuntime) -> Result<()> {
    for line in rt.lines(rt.alloc()) {
        play(&rt, line?.as_str())?;
    }
    Ok(())
}
