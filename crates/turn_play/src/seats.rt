//! Seats of one thread.

ghost use Rattle.turn_lock.specs.Seats.{IsSeatOf};

use crate::sum::{Call, Reply, Sum};
use anyhow::{Result, bail};
use std::alloc::Global;
use std::sync::Arc;
use std::sync::atomic::AtomicBool;
use turn_lock::{Attempt, TurnSeat, TurnTable};

// A sum that no other thread asks for.
fn sum(alloc: Global) -> Result<Sum> {
    Ok(Sum::new(Arc::new(alloc, AtomicBool::new(false))?))
}

// Makes a call, and writes what becomes of it.
fn call<R: Print>(
    rt: &R,
    table: &TurnTable<Sum>,
    seat: &mut TurnSeat<Sum>,
    call: Call,
) -> Result<()>
    requires { IsSeatOf table.now seat.old }
    ensures { IsSeatOf table.now seat.new }
{
    match table.attempt(seat, call) {
        Attempt::Done(Reply::Total(total)) => println!(rt; "done, {total}")?,
        Attempt::Done(Reply::Met(met)) => println!(rt; "done, {met}")?,
        Attempt::Busy(_) => println!(rt; "busy")?,
        Attempt::Spent(_) => println!(rt; "spent")?,
    }
    Ok(())
}

// Writes how many calls were counted.
fn note<R: Print>(rt: &R, table: &TurnTable<Sum>, seat: &mut TurnSeat<Sum>) -> Result<()>
    requires { IsSeatOf table.now seat.old }
    ensures { IsSeatOf table.now seat.new }
{
    let counted = table.note(seat);
    Ok(println!(rt; "noted {counted}")?)
}

/// One seat adds numbers.
pub fn alone<R: Print>(rt: &R, alloc: Global, numbers: &str) -> Result<()> {
    let Ok((table, mut seat)) = TurnTable::new(alloc, sum(alloc)?) else {
        bail!("out of memory");
    };
    note(rt, &table, &mut seat)?;
    for number in numbers.split(' ') {
        call(rt, &table, &mut seat, Call::Add(number.parse::<u64>()?))?;
    }
    note(rt, &table, &mut seat)
}

/// Two seats add each number, one after the other, and are joined then.
pub fn two<R: Print>(rt: &R, alloc: Global, numbers: &str) -> Result<()> {
    let Ok((table, mut one)) = TurnTable::new(alloc, sum(alloc)?) else {
        bail!("out of memory");
    };
    let mut two = table.split(&mut one);
    for number in numbers.split(' ') {
        let number = number.parse::<u64>()?;
        call(rt, &table, &mut one, Call::Add(number))?;
        call(rt, &table, &mut two, Call::Add(number))?;
    }
    table.join(&mut one, two);
    note(rt, &table, &mut one)
}
