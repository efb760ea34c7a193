//! Values under keys, each of one kind.

ghost use Rattle.std.specs.Prelude.{◌≡◌, IfOk, IfErr, None, true, false, unwrap_or, ◌≤◌, [], codes};
ghost use Rattle.serde_json.specs.View.{view, items_view};
ghost use Rattle.serde_json.specs.Data.{boolean, object, array, no_members, no_items};
ghost use Rattle.ext_config.specs.Keys.{row, Truth, Number, Prefixes, Authority, Object, part_choice, body_choice, setting, fault_of, whole, text, texts, judge, Fits, is_prefix, are_prefixes, are_all_prefixes, has_no_capital, is_authority, is_visible};
ghost use Rattle.ext_config.specs.Configured.{IsFault, truth_of, number_of, texts_of, text_of, asks_head, asks_trailers, body_mode};

use crate::ConfigFault;
use crate::keys::{Section, found, other_kind, out_of_range};
use ext_msgs::{BodyMode, NameList};
use pb_wire::Blob;
use serde_json::Value;
use std::alloc::{AllocError, Global};

// An object, or nothing.
#[tactic(auto, unfolding(crate::specs::Keys::setting, crate::specs::Keys::fault_of, crate::specs::Keys::judge))]
pub(crate) fn object(alloc: Global, config: &Value, name: &str) -> Result<(), ConfigFault>
    ensures ok { IfOk result (λ _. fault_of (row Section.Top name.now Object (object no_members)) (view config.now)
        ≡ None) }
    ensures err { IfErr result (λ f. IsFault (fault_of (row Section.Top name.now Object (object no_members))
        (view config.now)) f) }
{
    let Some(value) = found(config, Section::Top, name) else {
        return Ok(());
    };
    if value.is_object() {
        Ok(())
    } else {
        Err(other_kind(alloc, Section::Top, name))
    }
}

// `true` or `false`; absent it is `false`.
#[tactic(auto, unfolding(crate::specs::Keys::setting, crate::specs::Keys::fault_of, crate::specs::Keys::judge))]
pub(crate) fn truth(
    alloc: Global,
    config: &Value,
    section: Section,
    name: &str,
) -> Result<bool, ConfigFault>
    ensures ok { let r = row section name.now Truth (boolean false) in IfOk result (λ b.
        (fault_of r (view config.now) ≡ None) × (b ≡ truth_of (setting r (view config.now)))) }
    ensures err { IfErr result (λ f. IsFault (fault_of (row section name.now Truth (boolean false))
        (view config.now)) f) }
{
    let Some(value) = found(config, section, name) else {
        return Ok(false);
    };
    match value.as_bool() {
        Some(truth) => Ok(truth),
        None => Err(other_kind(alloc, section, name)),
    }
}

// A number from `low` to `high`.
#[tactic(auto, unfolding(crate::specs::Keys::setting, crate::specs::Keys::fault_of, crate::specs::Keys::judge, crate::specs::Keys::judge_number))]
pub(crate) fn number(
    alloc: Global,
    config: &Value,
    name: &str,
    low: u64,
    high: u64,
    default: u64,
) -> Result<u64, ConfigFault>
    requires { judge (Number low high) (whole default) ≡ Fits }
    ensures ok { let r = row Section.Top name.now (Number low high) (whole default) in IfOk result (λ n.
        (fault_of r (view config.now) ≡ None) × (n ≡ number_of (setting r (view config.now)))) }
    ensures err { IfErr result (λ f. IsFault (fault_of (row Section.Top name.now (Number low high) (whole default))
        (view config.now)) f) }
    ensures within { IfOk result (λ n. (low ≤ n) × (n ≤ high)) }
{
    let Some(value) = found(config, Section::Top, name) else {
        return Ok(default);
    };
    let Some(number) = value.as_u64() else {
        return Err(if value.is_i64() {
            out_of_range(alloc, Section::Top, name)
        } else {
            other_kind(alloc, Section::Top, name)
        });
    };
    if number < low || number > high {
        return Err(out_of_range(alloc, Section::Top, name));
    }
    Ok(number)
}

// Whether a head is asked: `DEFAULT` and `SEND` do.
#[tactic(auto, unfolding(crate::specs::Keys::setting, crate::specs::Keys::fault_of, crate::specs::Keys::judge, crate::specs::Configured::asks_head))]
pub(crate) fn head_mode(
    alloc: Global,
    config: &Value,
    section: Section,
    name: &str,
) -> Result<bool, ConfigFault>
    ensures ok { let r = row section name.now part_choice (text (codes "DEFAULT")) in IfOk result (λ b.
        (fault_of r (view config.now) ≡ None) × (b ≡ asks_head (setting r (view config.now)))) }
    ensures err { IfErr result (λ f. IsFault (fault_of (row section name.now part_choice (text (codes "DEFAULT")))
        (view config.now)) f) }
{
    let Some(value) = found(config, section, name) else {
        return Ok(true);
    };
    let Some(mode) = value.as_str() else {
        return Err(other_kind(alloc, section, name));
    };
    match mode {
        "DEFAULT" => Ok(true),
        "SEND" => Ok(true),
        "SKIP" => Ok(false),
        _ => Err(out_of_range(alloc, section, name)),
    }
}

// Whether trailers are asked: `SEND` alone does.
#[tactic(auto, unfolding(crate::specs::Keys::setting, crate::specs::Keys::fault_of, crate::specs::Keys::judge, crate::specs::Configured::asks_trailers))]
pub(crate) fn trailer_mode(
    alloc: Global,
    config: &Value,
    section: Section,
    name: &str,
) -> Result<bool, ConfigFault>
    ensures ok { let r = row section name.now part_choice (text (codes "DEFAULT")) in IfOk result (λ b.
        (fault_of r (view config.now) ≡ None) × (b ≡ asks_trailers (setting r (view config.now)))) }
    ensures err { IfErr result (λ f. IsFault (fault_of (row section name.now part_choice (text (codes "DEFAULT")))
        (view config.now)) f) }
{
    let Some(value) = found(config, section, name) else {
        return Ok(false);
    };
    let Some(mode) = value.as_str() else {
        return Err(other_kind(alloc, section, name));
    };
    match mode {
        "DEFAULT" => Ok(false),
        "SEND" => Ok(true),
        "SKIP" => Ok(false),
        _ => Err(out_of_range(alloc, section, name)),
    }
}

// How a body is asked.
#[tactic(auto, unfolding(crate::specs::Keys::setting, crate::specs::Keys::fault_of, crate::specs::Keys::judge, crate::specs::Configured::body_mode))]
pub(crate) fn body_mode(
    alloc: Global,
    config: &Value,
    section: Section,
    name: &str,
) -> Result<BodyMode, ConfigFault>
    ensures ok { let r = row section name.now body_choice (text (codes "NONE")) in IfOk result (λ m.
        (fault_of r (view config.now) ≡ None) × (m ≡ body_mode (setting r (view config.now)))) }
    ensures err { IfErr result (λ f. IsFault (fault_of (row section name.now body_choice (text (codes "NONE")))
        (view config.now)) f) }
{
    let Some(value) = found(config, section, name) else {
        return Ok(BodyMode::NoAsk);
    };
    let Some(mode) = value.as_str() else {
        return Err(other_kind(alloc, section, name));
    };
    match mode {
        "NONE" => Ok(BodyMode::NoAsk),
        "STREAMED" => Ok(BodyMode::Streamed),
        "BUFFERED" => Ok(BodyMode::Buffered),
        "BUFFERED_PARTIAL" => Ok(BodyMode::Partial),
        _ => Err(out_of_range(alloc, section, name)),
    }
}

// The `:authority` of the processor's streams.
#[tactic(auto, unfolding(crate::specs::Keys::setting, crate::specs::Keys::fault_of, crate::specs::Keys::judge), using(crate::proofs::Texts::localhost_is_authority))]
pub(crate) fn authority(alloc: Global, config: &Value, name: &str) -> Result<Blob, ConfigFault>
    ensures ok { let r = row Section.Top name.now Authority (text (codes "localhost")) in IfOk result (λ t.
        (fault_of r (view config.now) ≡ None) × (t ≡ text_of (setting r (view config.now)))) }
    ensures err { IfErr result (λ f. IsFault (fault_of
        (row Section.Top name.now Authority (text (codes "localhost"))) (view config.now)) f) }
{
    let Some(value) = found(config, Section::Top, name) else {
        let authority = Blob::of(alloc, b"localhost")?;
        return Ok(authority);
    };
    let Some(authority) = value.as_str() else {
        return Err(other_kind(alloc, Section::Top, name));
    };
    if !is_authority(authority.as_bytes()) {
        return Err(out_of_range(alloc, Section::Top, name));
    }
    let authority = Blob::of(alloc, authority.as_bytes())?;
    Ok(authority)
}

// 1 to 255 bytes from 0x21 to 0x7e.
#[tactic(auto, unfolding(crate::specs::Keys::is_authority))]
fn is_authority(bytes: &[u8]) -> bool
    ensures { result ≡ is_authority bytes.now }
{
    if bytes.is_empty() || bytes.len() > 255 {
        return false;
    }
    is_visible(bytes)
}

#[tactic(auto, unfolding(crate::specs::Keys::is_visible))]
fn is_visible(bytes: &[u8]) -> bool
    ensures { result ≡ is_visible bytes.now }
{
    bytes.iter().all(|b| *b >= 0x21 && *b <= 0x7e)
}

// The beginnings of names.
#[tactic(auto, unfolding(crate::specs::Keys::setting, crate::specs::Keys::fault_of, crate::specs::Keys::judge, crate::specs::Keys::judge_texts), using(crate::proofs::Texts::texts_none, crate::proofs::Texts::none_are_prefixes))]
pub(crate) fn prefixes(
    alloc: Global,
    config: &Value,
    section: Section,
    name: &str,
) -> Result<NameList, ConfigFault>
    ensures ok { let r = row section name.now Prefixes (array no_items) in IfOk result (λ names.
        (fault_of r (view config.now) ≡ None) × (names ≡ texts_of (setting r (view config.now)))) }
    ensures err { IfErr result (λ f. IsFault (fault_of (row section name.now Prefixes (array no_items))
        (view config.now)) f) }
{
    let Some(value) = found(config, section, name) else {
        return Ok(NameList::new(alloc));
    };
    let Some(items) = value.as_array() else {
        return Err(other_kind(alloc, section, name));
    };
    let Some(names) = texts(alloc, items)? else {
        return Err(other_kind(alloc, section, name));
    };
    if !are_prefixes(&names) {
        return Err(out_of_range(alloc, section, name));
    }
    Ok(names)
}

// The texts of an array, if it has nothing else.
#[tactic(auto, using(crate::proofs::Texts::after_none, crate::proofs::Texts::after_other, crate::proofs::Texts::after_text))]
fn texts(alloc: Global, items: &Vec<Value>) -> Result<Option<NameList>, AllocError>
    ensures { IfOk result (λ names. names ≡ texts (items_view items.now.items)) }
{
    let mut names = NameList::new(alloc);
    for item in items {
        let Some(text) = item.as_str() else {
            return Ok(None);
        };
        names.push(Blob::of(alloc, text.as_bytes())?)?;
    }
    Ok(Some(names))
}

// At most 64 texts, each of 1 to 256 bytes without upper-case ASCII letters.
#[tactic(auto, unfolding(crate::specs::Keys::are_prefixes))]
fn are_prefixes(names: &NameList) -> bool
    ensures { result ≡ are_prefixes names.now }
{
    if names.len() > 64 {
        return false;
    }
    are_all_prefixes(names)
}

#[tactic(auto, unfolding(crate::specs::Keys::are_all_prefixes))]
fn are_all_prefixes(names: &NameList) -> bool
    ensures { result ≡ are_all_prefixes names.now }
{
    names.as_slice().iter().all(|name| is_prefix(name.bytes()))
}

#[tactic(auto, unfolding(crate::specs::Keys::is_prefix))]
fn is_prefix(bytes: &[u8]) -> bool
    ensures { result ≡ is_prefix bytes.now }
{
    if bytes.is_empty() || bytes.len() > 256 {
        return false;
    }
    has_no_capital(bytes)
}

#[tactic(auto, unfolding(crate::specs::Keys::has_no_capital))]
fn has_no_capital(bytes: &[u8]) -> bool
    ensures { result ≡ has_no_capital bytes.now }
{
    bytes.iter().all(|b| !(*b >= b'A' && *b <= b'Z'))
}
