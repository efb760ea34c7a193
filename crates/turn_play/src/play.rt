//! The lines of a script.

use crate::{seats, threads};
use anyhow::Result;
use std::alloc::Global;
use std::thread::Threads;

/// Plays a line.
pub fn line<R: Print + Threads + Sync>(rt: &R, alloc: Global, line: &str) -> Result<()> {
    let (word, operands) = line.split_once(' ').unwrap_or((line, ""));
    match word {
        "alone" => seats::alone(rt, alloc, operands),
        "seats" => seats::two(rt, alloc, operands),
        "threads" => add(rt, alloc, operands),
        "meet" => meet(rt, alloc, operands.parse::<u64>()?),
        _ => Ok(println!(rt; "{line}")?),
    }
}

fn add<R: Print + Threads + Sync>(rt: &R, alloc: Global, operands: &str) -> Result<()> {
    let (first, second) = operands.split_once(' ').unwrap_or((operands, "0"));
    let (first, second, counted) = threads::add_both(
        rt,
        alloc,
        first.parse::<u64>()?,
        second.parse::<u64>()?,
    )?;
    Ok(println!(rt; "done {first} and {second}, noted {counted}")?)
}

fn meet<R: Print + Threads + Sync>(rt: &R, alloc: Global, operand: u64) -> Result<()> {
    let (met, back) = threads::meet(rt, alloc, operand)?;
    match back {
        Some(back) => println!(rt; "busy, and {back} came back")?,
        None => println!(rt; "never busy")?,
    }
    Ok(println!(rt; "met {met}")?)
}
