//! The lines of a script.

use crate::answers::answer_of;
use crate::parts::{push_ask, push_out, size_of};
use crate::setup::{half_of, modes_of};
use crate::text::{bytes_of, fields_of, push_number};
use anyhow::{Context, Result, bail};
use ext_msgs::FieldList;
use half_driver::{DriveFault, Driver};
use header_mutation::HalfFault;
use http_model::Length;
use std::alloc::Global;

/// The most parts or pieces of a line.
const MOST: u32 = 1_000;

fn length_of(word: &str) -> Result<Length> {
    match word {
        "none" => Ok(Length::NoBody),
        "chunked" => Ok(Length::Chunked),
        "close" => Ok(Length::Close),
        _ => Ok(Length::Known(word.parse::<u64>()?)),
    }
}

// What a call tells.
fn told_of(alloc: Global, answer: Result<(), DriveFault>) -> Result<String> {
    match answer {
        Ok(()) => Ok(String::from_str(alloc, "taken")?),
        Err(DriveFault::NotNow) => Ok(String::from_str(alloc, "not now")?),
        Err(DriveFault::Memory) => bail!("out of memory"),
    }
}

fn head(alloc: Global, driver: &mut Driver, text: &str) -> Result<String> {
    let (length, fields) = text.split_once(' ').context("no length")?;
    let fields = fields_of(alloc, fields)?;
    told_of(alloc, driver.head(fields, length_of(length)?))
}

// Body bytes as there is room: how many were taken.
fn data(alloc: Global, driver: &mut Driver, text: &str) -> Result<String> {
    let bytes = bytes_of(alloc, text)?;
    let mut taken: u64 = 0;
    let mut rest = bytes.as_slice();
    for _ in 0..MOST {
        let size = (driver.room() as usize).min(rest.len());
        let (piece, behind) = rest.split_at(size);
        if size == 0 || driver.data(piece).is_err() {
            break;
        }
        taken = taken.saturating_add(size as u64);
        rest = behind;
    }
    let mut told = String::new(alloc);
    push_number(alloc, &mut told, "taken", taken)?;
    Ok(told)
}

fn last(alloc: Global, driver: &mut Driver, text: &str) -> Result<String> {
    let bytes = bytes_of(alloc, text)?;
    told_of(alloc, driver.end(bytes.as_slice(), FieldList::new(alloc)))
}

fn end(alloc: Global, driver: &mut Driver, text: &str) -> Result<String> {
    let fields = fields_of(alloc, text)?;
    told_of(alloc, driver.end(b"".as_slice(), fields))
}

// One ask.
fn ask(alloc: Global, driver: &mut Driver) -> Result<String> {
    let mut told = String::new(alloc);
    match driver.next_ask()? {
        Some(ask) => push_ask(alloc, &mut told, &ask)?,
        None => told.push_str("no ask")?,
    }
    Ok(told)
}

// All asks, each sent.
fn asks(alloc: Global, driver: &mut Driver) -> Result<String> {
    let mut told = String::new(alloc);
    for _ in 0..MOST {
        let Some(ask) = driver.next_ask()? else {
            break;
        };
        push_ask(alloc, &mut told, &ask)?;
        told.push('\n')?;
        driver.sent()?;
    }
    told.push_str("no ask")?;
    Ok(told)
}

// All parts, each given.
fn out(alloc: Global, driver: &mut Driver, max: u32) -> Result<String> {
    let mut told = String::new(alloc);
    for _ in 0..MOST {
        let out = driver.next_out(max)?;
        push_out(alloc, &mut told, &out)?;
        let Some(size) = size_of(&out) else {
            break;
        };
        driver.given(u32::try_from(size)?)?;
        told.push('\n')?;
    }
    Ok(told)
}

// Why an answer is refused, where it is.
fn answer(alloc: Global, driver: &mut Driver, text: &str) -> Result<String> {
    let mut told = String::new(alloc);
    match driver.answer(&answer_of(alloc, text)?)? {
        None => told.push_str("taken")?,
        Some(HalfFault::Spurious) => told.push_str("refused: spurious")?,
        Some(HalfFault::Malformed(at)) => {
            push_number(alloc, &mut told, "refused: malformed at", u64::from(at))?;
        }
        Some(HalfFault::Disallowed(at)) => {
            push_number(alloc, &mut told, "refused: forbidden at", u64::from(at))?;
        }
        Some(HalfFault::Memory) => bail!("out of memory"),
    }
    Ok(told)
}

fn state(alloc: Global, driver: &Driver) -> Result<String> {
    let mut told = String::new(alloc);
    push_number(alloc, &mut told, "room", u64::from(driver.room()))?;
    push_number(alloc, &mut told, ", out", u64::from(driver.asks_out()))?;
    push_number(alloc, &mut told, ", kept", driver.held())?;
    if driver.over_limit() {
        told.push_str(", over its limit")?;
    }
    Ok(told)
}

/// What a line tells; it tells itself where there is nothing else to tell.
pub fn line(alloc: Global, driver: &mut Driver, line: &str) -> Result<String> {
    let (word, text) = line.split_once(' ').unwrap_or((line, ""));
    match word {
        "half" => {
            *driver = half_of(alloc, text)?;
            Ok(String::from_str(alloc, line)?)
        }
        "settle" => told_of(alloc, driver.settle(modes_of(text)?)),
        "head" => head(alloc, driver, text),
        "data" => data(alloc, driver, text),
        "last" => last(alloc, driver, text),
        "end" => end(alloc, driver, text),
        "ask" => ask(alloc, driver),
        "sent" => told_of(alloc, driver.sent()),
        "asks" => asks(alloc, driver),
        "answer" => answer(alloc, driver, text),
        "release" => {
            driver.release();
            Ok(String::from_str(alloc, line)?)
        }
        "out" => out(alloc, driver, text.parse::<u32>()?),
        "state" => state(alloc, driver),
        _ => Ok(String::from_str(alloc, line)?),
    }
}
