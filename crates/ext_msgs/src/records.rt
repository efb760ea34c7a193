//! The records of a message's fields, written one after another.

ghost use Rattle.std.specs.Prelude.{◌≡◌, ◌≤◌, ◌<◌, ◌^◌, ◌++◌, ◌∷◌, [], OnOk};
ghost use Rattle.pb_wire.specs.Canonical.{spelling};
ghost use Rattle.ext_msgs.specs.Spelling.{present, filled, counted, some_number, flag, some_signed};

use pb_wire::{Blob, Writer};
use std::alloc::AllocError;

/// Bytes or an embedded message, also when empty.
#[tactic(auto, using(crate::proofs::Joined::present_spelling))]
pub fn put_present(out: &mut Writer, number: u32, bytes: &Blob) -> Result<(), AllocError>
    requires low { 1 ≤ number }
    requires high { number < 2 ^ 29 }
    ensures { OnOk result (out.new ≡ out.old ++ spelling (present number bytes.now ∷ [])) }
{
    out.bytes(number, bytes.bytes())?;
    Ok(())
}

/// Bytes or an embedded message, left out when empty.
#[tactic(auto, using(crate::proofs::Joined::filled_none, crate::proofs::Joined::filled_some))]
pub fn put_filled(out: &mut Writer, number: u32, bytes: &Blob) -> Result<(), AllocError>
    requires low { 1 ≤ number }
    requires high { number < 2 ^ 29 }
    ensures { OnOk result (out.new ≡ out.old ++ spelling (filled number bytes.now)) }
{
    if !bytes.is_empty() {
        put_present(out, number, bytes)?;
    }
    Ok(())
}

/// A number, also when 0.
#[tactic(auto, using(crate::proofs::Joined::counted_spelling))]
pub fn put_counted(out: &mut Writer, number: u32, value: u64) -> Result<(), AllocError>
    requires low { 1 ≤ number }
    requires high { number < 2 ^ 29 }
    ensures { OnOk result (out.new ≡ out.old ++ spelling (counted number value ∷ [])) }
{
    out.varint(number, value)?;
    Ok(())
}

/// A number, left out when 0.
#[tactic(auto, using(crate::proofs::Joined::number_none, crate::proofs::Joined::number_some))]
pub fn put_number(out: &mut Writer, number: u32, value: u64) -> Result<(), AllocError>
    requires low { 1 ≤ number }
    requires high { number < 2 ^ 29 }
    ensures { OnOk result (out.new ≡ out.old ++ spelling (some_number number value)) }
{
    if value != 0 {
        put_counted(out, number, value)?;
    }
    Ok(())
}

/// A truth value, left out when false.
pub fn put_flag(out: &mut Writer, number: u32, value: bool) -> Result<(), AllocError>
    requires low { 1 ≤ number }
    requires high { number < 2 ^ 29 }
    ensures { OnOk result (out.new ≡ out.old ++ spelling (flag number value)) }
{
    put_number(out, number, u64::from(value))
}

/// A signed number, left out when 0: a negative one as its 64 bits.
pub fn put_signed(out: &mut Writer, number: u32, value: i64) -> Result<(), AllocError>
    requires low { 1 ≤ number }
    requires high { number < 2 ^ 29 }
    ensures { OnOk result (out.new ≡ out.old ++ spelling (some_signed number value)) }
{
    put_number(out, number, value.cast_unsigned())
}
