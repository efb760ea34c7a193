//! The hold of a body, for a buffer of 16 bytes and answers of 1,024.

ghost use Rattle.std.specs.Prelude.{◌≡◌};

use crate::parted;
use anyhow::{Result, bail};
use body_hold::{Change, Hold};
use pb_wire::Blob;
use std::alloc::Global;
use std::str;

/// The most bytes that a line puts anywhere.
const MOST: usize = 1000;

/// A hold of nothing.
pub fn play(rt: &HostRuntime, steps: &str) -> Result<()> {
    let mut hold = Hold::new(rt.alloc(), 16, 1024)?;
    for step in steps.split(", ") {
        let (call, operand) = parted(step);
        change(rt.alloc(), &mut hold, call, operand)?;
        tell(rt, call, &hold)?;
    }
    Ok(())
}

fn tell(rt: &HostRuntime, call: &str, hold: &Hold) -> Result<()> {
    let mut lent = String::new(rt.alloc());
    for k in 0..hold.lent_pieces() {
        lent.push_str(" '")?;
        lent.push_str(str::from_utf8(hold.lent_piece(k))?)?;
        lent.push_str("'")?;
    }
    let (hand, out) = (
        str::from_utf8(hold.hand_front())?,
        str::from_utf8(hold.out_front())?,
    );
    let (at_hand, bytes, len, held) = (hold.at_hand(), hold.lent(), hold.out_len(), hold.held());
    println!(rt;
        "{call}: {at_hand} at hand '{hand}', {bytes} lent{lent}, {len} out '{out}', {held} in all"
    )?;
    Ok(())
}

// One call.
fn change(alloc: Global, hold: &mut Hold, call: &str, operand: &str) -> Result<()>
    requires limit { hold.old.limit ≡ 16 }
    requires answer { hold.old.answer ≡ 1024 }
    ensures limit { hold.new.limit ≡ 16 }
    ensures answer { hold.new.answer ≡ 1024 }
{
    match call {
        "put" => put(hold, operand.as_bytes()),
        "lend" => lend(hold, operand.parse::<u32>()?),
        "keep" => back(hold, Change::Keep),
        "replace" => back(hold, Change::Replace(Blob::of(alloc, operand.as_bytes())?)),
        "clear" => back(hold, Change::Clear),
        "pass" => pass(hold, operand.parse::<u32>()?),
        "pass-lent" => pass_lent(hold),
        "take" => take(hold, operand.parse::<u32>()?),
        "replace-hand" => replace_hand(hold, operand.as_bytes()),
        "take-hand" => take_hand(hold, operand.parse::<u32>()?),
        _ => bail!("no call: {call}"),
    }
}

fn put(hold: &mut Hold, bytes: &[u8]) -> Result<()>
    requires limit { hold.old.limit ≡ 16 }
    requires answer { hold.old.answer ≡ 1024 }
    ensures limit { hold.new.limit ≡ 16 }
    ensures answer { hold.new.answer ≡ 1024 }
{
    if hold.at_hand() as usize > MOST || bytes.len() > MOST {
        bail!("too many bytes");
    }
    hold.put(bytes);
    Ok(())
}

fn lend(hold: &mut Hold, n: u32) -> Result<()>
    requires limit { hold.old.limit ≡ 16 }
    requires answer { hold.old.answer ≡ 1024 }
    ensures limit { hold.new.limit ≡ 16 }
    ensures answer { hold.new.answer ≡ 1024 }
{
    if n > hold.at_hand() || hold.lent_pieces() >= 4 {
        bail!("nothing to lend, or four pieces lent");
    }
    if hold.lent() as usize > MOST || n as usize > MOST {
        bail!("too many bytes");
    }
    hold.lend(n);
    Ok(())
}

fn back(hold: &mut Hold, change: Change) -> Result<()>
    requires limit { hold.old.limit ≡ 16 }
    requires answer { hold.old.answer ≡ 1024 }
    ensures limit { hold.new.limit ≡ 16 }
    ensures answer { hold.new.answer ≡ 1024 }
{
    if hold.lent_pieces() == 0 {
        bail!("no piece is lent");
    }
    let size = match &change {
        Change::Replace(piece) => piece.len(),
        Change::Keep | Change::Clear => hold.lent_piece(0).len(),
    };
    if hold.out_len() as usize > MOST || size > MOST {
        bail!("too many bytes");
    }
    hold.back(change);
    Ok(())
}

fn pass(hold: &mut Hold, n: u32) -> Result<()>
    requires limit { hold.old.limit ≡ 16 }
    requires answer { hold.old.answer ≡ 1024 }
    ensures limit { hold.new.limit ≡ 16 }
    ensures answer { hold.new.answer ≡ 1024 }
{
    if n > hold.at_hand() || n as usize > MOST || hold.out_len() as usize > MOST {
        bail!("fewer bytes at hand, or too many");
    }
    hold.pass(n);
    Ok(())
}

fn pass_lent(hold: &mut Hold) -> Result<()>
    requires limit { hold.old.limit ≡ 16 }
    requires answer { hold.old.answer ≡ 1024 }
    ensures limit { hold.new.limit ≡ 16 }
    ensures answer { hold.new.answer ≡ 1024 }
{
    if hold.lent() as usize > MOST || hold.out_len() as usize > MOST {
        bail!("too many bytes");
    }
    hold.pass_lent();
    Ok(())
}

fn replace_hand(hold: &mut Hold, body: &[u8]) -> Result<()>
    requires limit { hold.old.limit ≡ 16 }
    requires answer { hold.old.answer ≡ 1024 }
    ensures limit { hold.new.limit ≡ 16 }
    ensures answer { hold.new.answer ≡ 1024 }
{
    if body.len() > MOST || hold.out_len() as usize > MOST {
        bail!("too many bytes");
    }
    hold.replace_hand(body);
    Ok(())
}

fn take(hold: &mut Hold, n: u32) -> Result<()>
    requires limit { hold.old.limit ≡ 16 }
    requires answer { hold.old.answer ≡ 1024 }
    ensures limit { hold.new.limit ≡ 16 }
    ensures answer { hold.new.answer ≡ 1024 }
{
    if n > hold.out_len() {
        bail!("fewer bytes go out");
    }
    hold.out_drop(n);
    Ok(())
}

fn take_hand(hold: &mut Hold, n: u32) -> Result<()>
    requires limit { hold.old.limit ≡ 16 }
    requires answer { hold.old.answer ≡ 1024 }
    ensures limit { hold.new.limit ≡ 16 }
    ensures answer { hold.new.answer ≡ 1024 }
{
    if n > hold.at_hand() {
        bail!("fewer bytes at hand");
    }
    hold.hand_drop(n);
    Ok(())
}
