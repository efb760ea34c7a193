//! Keys that the key table doesn't have.

ghost use Rattle.std.specs.Prelude.{◌≡◌, IfOk, Some, None, fold};
ghost use Rattle.serde_json.specs.View.{view, members_view};
ghost use Rattle.ext_config.specs.Keys.{section_name};
ghost use Rattle.ext_config.specs.Configured.{is_known, unknown_in, unknown_keys, lesser, least, members, members_at};

use crate::keys::{Section, dotted, found};
use pb_wire::Blob;
use serde_json::{Map, Value};
use std::alloc::{AllocError, Global};
use std::cmp::Ordering;

// The least unknown key in byte order, with a dot behind its section.
#[tactic(auto, using(crate::proofs::Least::least_by_section))]
pub(crate) fn least_unknown(alloc: Global, config: &Value) -> Result<Option<Blob>, AllocError>
    ensures { IfOk result (λ key. key ≡ least (unknown_keys (view config.now))) }
{
    let top = least_of_top(alloc, config)?;
    let modes = least_of_section(alloc, config, Section::Modes, "processing_mode", top)?;
    least_of_section(alloc, config, Section::Rules, "mutation_rules", modes)
}

// The least unknown one among the keys that stand in no section.
#[tactic(auto, using(crate::proofs::Least::unknown_in_other))]
fn least_of_top(alloc: Global, config: &Value) -> Result<Option<Blob>, AllocError>
    ensures { IfOk result (λ key. key ≡ fold lesser None (unknown_in Section.Top (members (view config.now)))) }
{
    match config.as_object() {
        Some(object) => least_of_members(alloc, object, Section::Top, None),
        None => Ok(None),
    }
}

// The lesser of a key and the unknown ones of a section.
#[tactic(auto, unfolding(crate::specs::Configured::members_at), using(crate::proofs::Least::unknown_in_absent, crate::proofs::Least::unknown_in_no_object))]
fn least_of_section(
    alloc: Global,
    config: &Value,
    section: Section,
    name: &str,
    least: Option<Blob>,
) -> Result<Option<Blob>, AllocError>
    requires { name.now ≡ section_name section }
    ensures { IfOk result (λ key. key ≡ fold lesser least (unknown_in section (members_at section (view config.now)))) }
{
    let Some(value) = found(config, Section::Top, name) else {
        return Ok(least);
    };
    match value.as_object() {
        Some(object) => least_of_members(alloc, object, section, least),
        None => Ok(least),
    }
}

// The lesser of a key and the unknown ones among these members.
#[tactic(auto, unfolding(crate::specs::Configured::unknown_in))]
fn least_of_members(
    alloc: Global,
    object: &Map<String, Value>,
    section: Section,
    least: Option<Blob>,
) -> Result<Option<Blob>, AllocError>
    ensures { IfOk result (λ key. key ≡ fold lesser least (unknown_in section (members_view object.now.entries))) }
{
    let mut least = least;
    for (name, _) in object {
        if !is_known(section, name.as_str()) {
            let key = dotted(alloc, section, name.as_str())?;
            least = Some(lesser(least, key));
        }
    }
    Ok(least)
}

// The lesser of two keys in byte order, where the first may be absent.
#[tactic(auto, unfolding(crate::specs::Configured::lesser))]
fn lesser(least: Option<Blob>, name: Blob) -> Blob
    ensures { Some result ≡ lesser least name }
{
    let Some(other) = least else {
        return name;
    };
    match name.bytes().cmp(other.bytes()) {
        Ordering::Less => name,
        Ordering::Equal => other,
        Ordering::Greater => other,
    }
}

// Whether a section has a key of this name.
fn is_known(section: Section, name: &str) -> bool
    ensures { result ≡ is_known section name.now }
{
    match section {
        Section::Top => is_top_key(name),
        Section::Modes => is_mode_key(name),
        Section::Rules => is_rule_key(name),
    }
}

#[tactic(auto, unfolding(crate::specs::Configured::is_known))]
fn is_top_key(name: &str) -> bool
    ensures { result ≡ is_known Section.Top name.now }
{
    match name {
        "version" => true,
        "failure_mode_allow" => true,
        "message_timeout_ms" => true,
        "max_message_timeout_ms" => true,
        "allow_mode_override" => true,
        "disable_immediate_response" => true,
        "processing_mode" => true,
        "mutation_rules" => true,
        "buffer_limit" => true,
        "answer_limit" => true,
        "max_exchanges" => true,
        "authority" => true,
        _ => false,
    }
}

#[tactic(auto, unfolding(crate::specs::Configured::is_known))]
fn is_mode_key(name: &str) -> bool
    ensures { result ≡ is_known Section.Modes name.now }
{
    match name {
        "request_header_mode" => true,
        "response_header_mode" => true,
        "request_body_mode" => true,
        "response_body_mode" => true,
        "request_trailer_mode" => true,
        "response_trailer_mode" => true,
        _ => false,
    }
}

#[tactic(auto, unfolding(crate::specs::Configured::is_known))]
fn is_rule_key(name: &str) -> bool
    ensures { result ≡ is_known Section.Rules name.now }
{
    match name {
        "allow_all_routing" => true,
        "allow_envoy" => true,
        "disallow_system" => true,
        "disallow_all" => true,
        "disallow_is_error" => true,
        "disallow_prefixes" => true,
        "allow_prefixes" => true,
        _ => false,
    }
}
