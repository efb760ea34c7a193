//! Seats of two threads.

ghost use Rattle.turn_lock.specs.Seats.{IsSeatOf};

use crate::sum::{Call, MOST_TURNS, Reply, Sum};
use anyhow::{Result, bail};
use std::alloc::Global;
use std::sync::Arc;
use std::sync::atomic::AtomicBool;
use std::sync::atomic::Ordering::SeqCst;
use std::thread::{Threads, join, yield_now};
use turn_lock::{Attempt, TurnSeat, TurnTable};

// Makes a call that turns until the other thread has answered. Whether that came in time.
fn meets(table: &TurnTable<Sum>, mut seat: TurnSeat<Sum>) -> bool
    requires { IsSeatOf table.now seat }
{
    for _ in 0..MOST_TURNS {
        match table.attempt(&mut seat, Call::Meet) {
            Attempt::Done(Reply::Met(met)) => return met,
            _ => yield_now(),
        }
    }
    false
}

// Makes a call until it is given back, and tells that. The operand that came back.
fn is_turned_away(
    table: &TurnTable<Sum>,
    mut seat: TurnSeat<Sum>,
    answered: &AtomicBool,
    operand: u64,
) -> Option<u64>
    requires { IsSeatOf table.now seat }
{
    for _ in 0..MOST_TURNS {
        match table.attempt(&mut seat, Call::Look(operand)) {
            Attempt::Busy(Call::Look(back)) => {
                answered.store(true, SeqCst);
                return Some(back);
            }
            _ => yield_now(),
        }
    }
    None
}

/// Two threads call, the second while the first has the value out. Whether the first saw the second's answer, and the
/// operand of the call that the second got back.
pub fn meet<R: Threads + Sync>(rt: &R, alloc: Global, operand: u64) -> Result<(bool, Option<u64>)> {
    let answered = Arc::new(alloc, AtomicBool::new(false))?;
    let sum = Sum::new(Arc::try_clone(&answered)?);
    let Ok((table, mut one)) = TurnTable::new(alloc, sum) else {
        bail!("out of memory");
    };
    let two = table.split(&mut one);
    let shared = &table;
    let flag = &*answered;
    Ok(join(
        rt,
        move || -> bool
            requires { IsSeatOf shared.now one }
        { meets(shared, one) },
        move || -> Option<u64>
            requires { IsSeatOf shared.now two }
        { is_turned_away(shared, two, flag, operand) },
    ))
}

// Adds 1 so many times, and waits for its turn. The seat, and how many times it did.
fn adds(table: &TurnTable<Sum>, mut seat: TurnSeat<Sum>, times: u64) -> (TurnSeat<Sum>, u64)
    requires { IsSeatOf table.now seat }
    ensures { IsSeatOf table.now result.0 }
{
    let mut done = 0;
    for _ in 0..MOST_TURNS {
        if done == times {
            break;
        }
        match table.attempt(&mut seat, Call::Add(1)) {
            Attempt::Done(_) => done += 1,
            _ => yield_now(),
        }
    }
    (seat, done)
}

/// Two threads add 1, each so many times. How many times each did, and how many calls were counted.
pub fn add_both<R: Threads + Sync>(
    rt: &R,
    alloc: Global,
    first: u64,
    second: u64,
) -> Result<(u64, u64, u64)> {
    let sum = Sum::new(Arc::new(alloc, AtomicBool::new(false))?);
    let Ok((table, mut one)) = TurnTable::new(alloc, sum) else {
        bail!("out of memory");
    };
    let two = table.split(&mut one);
    let shared = &table;
    let ((mut one, a), (two, b)) = join(
        rt,
        move ||
            requires { IsSeatOf shared.now one }
            ensures { IsSeatOf shared.entry.now result.0 }
        { adds(shared, one, first) },
        move ||
            requires { IsSeatOf shared.now two }
            ensures { IsSeatOf shared.entry.now result.0 }
        { adds(shared, two, second) },
    );
    table.join(&mut one, two);
    Ok((a, b, table.note(&mut one)))
}
