//! Queues of bytes, and of pieces.

use crate::parted;
use anyhow::{Result, bail};
use pb_wire::Blob;
use px_bytes::{ByteQueue, Full, Pieces};
use std::str;

/// A queue of this limit.
pub fn play(rt: &HostRuntime, limit: &str, steps: &str) -> Result<()> {
    let mut queue = ByteQueue::with_limit(rt.alloc(), limit.parse::<u32>()?)?;
    for step in steps.split(", ") {
        let (call, operand) = parted(step);
        match call {
            "push" => push(rt, &mut queue, operand)?,
            "drop" => drop_front(&mut queue, operand.parse::<u32>()?)?,
            "turns" => turns(rt, &mut queue, operand.parse::<u32>()?)?,
            _ => bail!("no call: {call}"),
        }
    }
    tell(rt, &queue)
}

fn tell(rt: &HostRuntime, queue: &ByteQueue) -> Result<()> {
    let front = str::from_utf8(queue.front())?;
    let (len, room, none) = (queue.len(), queue.room(), queue.is_empty());
    println!(rt; "waiting '{front}' length {len} room {room} empty {none}")?;
    Ok(())
}

fn push(rt: &HostRuntime, queue: &mut ByteQueue, text: &str) -> Result<()> {
    let answer = match queue.push(text.as_bytes()) {
        Ok(()) => "pushed",
        Err(Full) => "full",
    };
    println!(rt; "{answer} '{text}'")?;
    Ok(())
}

fn drop_front(queue: &mut ByteQueue, n: u32) -> Result<()> {
    if n > queue.len() {
        bail!("fewer bytes wait");
    }
    queue.drop_front(n);
    Ok(())
}

// More letters than the room go through, so that they are moved to the room's beginning again and again.
fn turns(rt: &HostRuntime, queue: &mut ByteQueue, count: u32) -> Result<()> {
    let mut next = b'a';
    for _ in 0..count {
        for _ in 0..queue.room() {
            let _ = queue.push(&[next]);
            next = if next == b'z' {
                b'a'
            } else {
                next.wrapping_add(1)
            };
        }
        tell(rt, queue)?;
        drop_front(queue, 3)?;
    }
    Ok(())
}

/// Pieces, of which there is none at first.
pub fn play_pieces(rt: &HostRuntime, steps: &str) -> Result<()> {
    let mut pieces = Pieces::new(rt.alloc());
    for step in steps.split(", ") {
        let (call, operand) = parted(step);
        match call {
            "push" => pieces.push_back(Blob::of(rt.alloc(), operand.as_bytes())?)?,
            "pop" => pop(rt, &mut pieces)?,
            _ => bail!("no call: {call}"),
        }
    }
    println!(rt; "pieces {} empty {}", pieces.len(), pieces.is_empty())?;
    Ok(())
}

fn pop(rt: &HostRuntime, pieces: &mut Pieces) -> Result<()> {
    match pieces.pop_front() {
        Some(piece) => {
            let text = str::from_utf8(piece.bytes())?;
            println!(rt; "popped '{text}', left {}", pieces.len())?;
        }
        None => println!(rt; "none")?,
    }
    Ok(())
}
