//! SETTINGS: RFC 9113 section 6.5.

ghost use Rattle.std.specs.Prelude.{◌≡◌, ◌/◌, length, IfOk};
ghost use Rattle.h2_frames.specs.Headers.{has_wrong_size as wrong_size};
ghost use Rattle.h2_frames.specs.Payloads.{frame_of, setting_of, settings_of};
ghost use Rattle.h2_frames.specs.Reading.{GivesRead};
ghost use Rattle.h2_frames.specs.declared.header.Kind.TheVariants as kind;

use crate::fault::FrameFault;
use crate::frame::{Frame, Setting, SettingList};
use crate::header::Header;
use crate::numbers::{u16_at, u32_at};
use std::alloc::{AllocError, Global};

pub(crate) fn has_wrong_size(header: Header) -> bool
    ensures { result ≡ wrong_size kind.Settings header }
{
    if header.is_ack() {
        return header.size != 0;
    }
    header.size % 6 != 0
}

#[tactic(auto, using(crate::proofs::SettingLists::one_more, crate::proofs::SettingLists::none_left))]
fn settings(alloc: Global, payload: &[u8]) -> Result<SettingList, AllocError>
    ensures { IfOk result (λ list. list ≡ settings_of (length payload.now / 6) payload.now) }
{
    let mut list = SettingList::new(alloc);
    let mut rest = payload;
    // Prover: the label names the loop in its proof.
    'settings: while rest.len() >= 6 {
        list.push(Setting {
            identifier: u16_at(rest, 0),
            value: u32_at(rest, 2),
        })?;
        let (_, behind) = rest.split_at(6);
        rest = behind;
    }
    Ok(list)
}

#[tactic(auto, unfolding(crate::specs::Payloads::frame_of))]
pub(crate) fn read(alloc: Global, header: Header, payload: &[u8]) -> Result<Frame, FrameFault>
    requires { length payload.now ≡ header.size }
    ensures { GivesRead (λ f. f) result (frame_of kind.Settings header payload.now) }
{
    if header.is_ack() {
        return Ok(Frame::SettingsAck);
    }
    let list = settings(alloc, payload)?;
    Ok(Frame::Settings(list))
}
