//! The lines of a script.

use crate::{configs, lines, runs};
use anyhow::{Result, bail};

/// A line, and the text of the lines below it so far.
#[derive(Drop)]
pub struct Block {
    head: String,
    input: String,
}

/// A word and what stands behind it.
pub fn parted(text: &str) -> (&str, &str) {
    text.split_once(' ').unwrap_or((text, ""))
}

/// Plays a line, which may stand below another.
pub fn play(rt: &HostRuntime, block: Option<Block>, line: &str) -> Result<Option<Block>> {
    let Some(mut block) = block else {
        return begin(rt, line);
    };
    if line == "." {
        end(rt, block.head.as_str(), block.input.as_str())?;
        return Ok(None);
    }
    push(&mut block.input, line)?;
    Ok(Some(block))
}

// Adds a line, with what it repeats.
fn push(input: &mut String, line: &str) -> Result<()> {
    let (text, rest) = line.split_once(" * ").unwrap_or((line, ""));
    let (digits, count) = rest.split_once(" * ").unwrap_or((rest, "0"));
    input.push_str(text)?;
    for _ in 0..count.parse::<u32>()? {
        input.push_str(digits)?;
    }
    input.push_str("\n")?;
    Ok(())
}

// Plays a line that stands alone, or begins a block.
fn begin(rt: &HostRuntime, line: &str) -> Result<Option<Block>> {
    let (word, operands) = parted(line);
    match word {
        "line" => lines::read(rt, operands.as_bytes())?,
        "bytes" => lines::read_bytes(rt, operands)?,
        "to-up" => lines::write_to_up(rt, operands)?,
        "abort-client" => lines::write_abort_client(rt, operands)?,
        "command" => runs::tell_command(rt, operands)?,
        "config" if line != word => configs::read(rt, operands)?,
        "config" | "run" | "cut" | "room" | "failing-reads" | "failing-writes" => {
            return Ok(Some(Block {
                head: String::from_str(rt.alloc(), line)?,
                input: String::new(rt.alloc()),
            }));
        }
        _ => println!(rt; "{line}")?,
    }
    Ok(None)
}

// Plays a block.
fn end(rt: &HostRuntime, head: &str, input: &str) -> Result<()> {
    let (word, operands) = parted(head);
    match word {
        "config" => configs::read(rt, input),
        "run" => runs::run_over(rt, operands, input.as_bytes()),
        "cut" => runs::run_over_cut(rt, operands, input.as_bytes()),
        "room" => runs::run_with_room(rt, operands, input.as_bytes()),
        "failing-reads" => runs::fail_reads(rt, operands, input.as_bytes()),
        "failing-writes" => runs::fail_writes(rt, operands, input.as_bytes()),
        _ => bail!("no block: {word}"),
    }
}
