//! How a half begins.

use anyhow::{Context, Result, bail};
use ext_msgs::{BodyMode, NameList, PartModes};
use half_driver::Driver;
use header_mutation::{HalfSetup, Rules};
use std::alloc::Global;

/// The most bytes of an answer's body.
const ANSWER_LIMIT: u32 = 65_536;

fn is_sent(word: &str) -> Result<bool> {
    match word {
        "send" => Ok(true),
        "skip" => Ok(false),
        _ => bail!("no mode: {word}"),
    }
}

fn body_mode(word: &str) -> Result<BodyMode> {
    match word {
        "none" => Ok(BodyMode::NoAsk),
        "streamed" => Ok(BodyMode::Streamed),
        "buffered" => Ok(BodyMode::Buffered),
        "partial" => Ok(BodyMode::Partial),
        _ => bail!("no mode: {word}"),
    }
}

/// `HEADERS BODY TRAILERS`
pub fn modes_of(words: &str) -> Result<PartModes> {
    let (headers, words) = words.split_once(' ').context("no body mode")?;
    let (body, trailers) = words.split_once(' ').context("no trailer mode")?;
    Ok(PartModes {
        headers: is_sent(headers)?,
        body: body_mode(body)?,
        trailers: is_sent(trailers)?,
    })
}

fn no_rules(alloc: Global) -> Rules {
    Rules {
        allow_all_routing: true,
        allow_envoy: false,
        disallow_system: false,
        disallow_all: false,
        disallow_is_error: true,
        disallow_prefixes: NameList::new(alloc),
        allow_prefixes: NameList::new(alloc),
    }
}

/// `WAY HEADERS BODY TRAILERS LIMIT`
pub fn half_of(alloc: Global, words: &str) -> Result<Driver> {
    let (way, words) = words.split_once(' ').context("no modes")?;
    let (modes, limit) = words.rsplit_once(' ').context("no limit")?;
    let setup = HalfSetup {
        response: way == "response",
        modes: modes_of(modes)?,
        rules: no_rules(alloc),
        buffer_limit: limit.parse::<u32>()?,
        answer_limit: ANSWER_LIMIT,
    };
    Ok(Driver::new(alloc, setup)?)
}
