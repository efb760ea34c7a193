//! The parts of the key table, each with what the configuration says there.

ghost use Rattle.std.specs.Prelude.{◌≡◌, IfOk, IfErr, None, codes};
ghost use Rattle.serde_json.specs.View.{view};
ghost use Rattle.ext_config.specs.Keys.{general_keys, mode_keys, rule_keys, limit_keys, first_fault};
ghost use Rattle.ext_config.specs.Configured.{IsFault, at_key, truth_of, number_of, text_of, request_modes, response_modes, mutation_rules};

use crate::ConfigFault;
use crate::keys::Section;
use crate::values::{
    authority, body_mode, head_mode, number, object, prefixes, trailer_mode, truth,
};
use ext_msgs::PartModes;
use header_mutation::Rules;
use pb_wire::Blob;
use serde_json::Value;
use std::alloc::Global;

// The keys before the sections.
#[derive(Drop)]
pub(crate) struct General {
    pub(crate) failure_allow: bool,
    pub(crate) timeout_ms: u64,
    pub(crate) max_timeout_ms: u64,
    pub(crate) allow_override: bool,
    pub(crate) no_immediate: bool,
}

// The keys after the sections.
#[derive(Drop)]
pub(crate) struct Limits {
    pub(crate) buffer_limit: u32,
    pub(crate) answer_limit: u32,
    pub(crate) max_exchanges: u32,
    pub(crate) authority: Blob,
}

// The keys before the sections, in the order of the table.
#[tactic(auto, unfolding(crate::specs::Configured::at_key, crate::specs::Keys::judge, crate::specs::Keys::judge_number), using(crate::proofs::Faults::fault_first, crate::proofs::Faults::fault_later, crate::proofs::Faults::none_later))]
pub(crate) fn read_general(alloc: Global, config: &Value) -> Result<General, ConfigFault>
    ensures ok { IfOk result (λ _. first_fault general_keys (view config.now) ≡ None) }
    ensures failure_allow { IfOk result (λ g. g.failure_allow ≡ truth_of
        (at_key Section.Top (codes "failure_mode_allow") (view config.now))) }
    ensures timeout_ms { IfOk result (λ g. g.timeout_ms ≡ number_of
        (at_key Section.Top (codes "message_timeout_ms") (view config.now))) }
    ensures max_timeout_ms { IfOk result (λ g. g.max_timeout_ms ≡ number_of
        (at_key Section.Top (codes "max_message_timeout_ms") (view config.now))) }
    ensures allow_override { IfOk result (λ g. g.allow_override ≡ truth_of
        (at_key Section.Top (codes "allow_mode_override") (view config.now))) }
    ensures no_immediate { IfOk result (λ g. g.no_immediate ≡ truth_of
        (at_key Section.Top (codes "disable_immediate_response") (view config.now))) }
    ensures err { IfErr result (λ f. IsFault (first_fault general_keys (view config.now)) f) }
{
    let _version = number(alloc, config, "version", 1, 1, 1)?;
    let failure_allow = truth(alloc, config, Section::Top, "failure_mode_allow")?;
    let timeout_ms = number(alloc, config, "message_timeout_ms", 1, 3_600_000, 200)?;
    let max_timeout_ms = number(alloc, config, "max_message_timeout_ms", 0, 3_600_000, 0)?;
    let allow_override = truth(alloc, config, Section::Top, "allow_mode_override")?;
    let no_immediate = truth(alloc, config, Section::Top, "disable_immediate_response")?;
    Ok(General {
        failure_allow,
        timeout_ms,
        max_timeout_ms,
        allow_override,
        no_immediate,
    })
}

// What is asked of requests, and of responses.
#[tactic(auto, unfolding(crate::specs::Configured::request_modes, crate::specs::Configured::response_modes, crate::specs::Configured::at_key), using(crate::proofs::Faults::fault_first, crate::proofs::Faults::fault_later, crate::proofs::Faults::none_later))]
pub(crate) fn read_modes(
    alloc: Global,
    config: &Value,
) -> Result<(PartModes, PartModes), ConfigFault>
    ensures ok { IfOk result (λ _. first_fault mode_keys (view config.now) ≡ None) }
    ensures request { IfOk result (λ modes. modes.0 ≡ request_modes (view config.now)) }
    ensures response { IfOk result (λ modes. modes.1 ≡ response_modes (view config.now)) }
    ensures err { IfErr result (λ f. IsFault (first_fault mode_keys (view config.now)) f) }
{
    object(alloc, config, "processing_mode")?;
    let request_headers = head_mode(alloc, config, Section::Modes, "request_header_mode")?;
    let response_headers = head_mode(alloc, config, Section::Modes, "response_header_mode")?;
    let request_body = body_mode(alloc, config, Section::Modes, "request_body_mode")?;
    let response_body = body_mode(alloc, config, Section::Modes, "response_body_mode")?;
    let request_trailers = trailer_mode(alloc, config, Section::Modes, "request_trailer_mode")?;
    let response_trailers = trailer_mode(alloc, config, Section::Modes, "response_trailer_mode")?;
    let request = PartModes {
        headers: request_headers,
        body: request_body,
        trailers: request_trailers,
    };
    let response = PartModes {
        headers: response_headers,
        body: response_body,
        trailers: response_trailers,
    };
    Ok((request, response))
}

// What a mutation may change.
#[tactic(auto, unfolding(crate::specs::Configured::mutation_rules, crate::specs::Configured::at_key), using(crate::proofs::Faults::fault_first, crate::proofs::Faults::fault_later, crate::proofs::Faults::none_later))]
pub(crate) fn read_rules(alloc: Global, config: &Value) -> Result<Rules, ConfigFault>
    ensures ok { IfOk result (λ _. first_fault rule_keys (view config.now) ≡ None) }
    ensures rules { IfOk result (λ rules. rules ≡ mutation_rules (view config.now)) }
    ensures err { IfErr result (λ f. IsFault (first_fault rule_keys (view config.now)) f) }
{
    object(alloc, config, "mutation_rules")?;
    let allow_all_routing = truth(alloc, config, Section::Rules, "allow_all_routing")?;
    let allow_envoy = truth(alloc, config, Section::Rules, "allow_envoy")?;
    let disallow_system = truth(alloc, config, Section::Rules, "disallow_system")?;
    let disallow_all = truth(alloc, config, Section::Rules, "disallow_all")?;
    let disallow_is_error = truth(alloc, config, Section::Rules, "disallow_is_error")?;
    let disallow_prefixes = prefixes(alloc, config, Section::Rules, "disallow_prefixes")?;
    let allow_prefixes = prefixes(alloc, config, Section::Rules, "allow_prefixes")?;
    Ok(Rules {
        allow_all_routing,
        allow_envoy,
        disallow_system,
        disallow_all,
        disallow_is_error,
        disallow_prefixes,
        allow_prefixes,
    })
}

// The keys after the sections, in the order of the table.
#[tactic(auto, unfolding(crate::specs::Configured::at_key, crate::specs::Keys::judge, crate::specs::Keys::judge_number), using(crate::proofs::Faults::fault_first, crate::proofs::Faults::fault_later, crate::proofs::Faults::none_later))]
pub(crate) fn read_limits(alloc: Global, config: &Value) -> Result<Limits, ConfigFault>
    ensures ok { IfOk result (λ _. first_fault limit_keys (view config.now) ≡ None) }
    ensures buffer_limit { IfOk result (λ l. l.buffer_limit ≡ number_of
        (at_key Section.Top (codes "buffer_limit") (view config.now))) }
    ensures answer_limit { IfOk result (λ l. l.answer_limit ≡ number_of
        (at_key Section.Top (codes "answer_limit") (view config.now))) }
    ensures max_exchanges { IfOk result (λ l. l.max_exchanges ≡ number_of
        (at_key Section.Top (codes "max_exchanges") (view config.now))) }
    ensures authority { IfOk result (λ l. l.authority ≡ text_of
        (at_key Section.Top (codes "authority") (view config.now))) }
    ensures err { IfErr result (λ f. IsFault (first_fault limit_keys (view config.now)) f) }
{
    let buffer_limit = number(alloc, config, "buffer_limit", 1, 1_048_576, 65_536)?;
    let answer_limit = number(alloc, config, "answer_limit", 1_024, 2_097_152, 131_072)?;
    let max_exchanges = number(alloc, config, "max_exchanges", 1, 64, 64)?;
    let authority = authority(alloc, config, "authority")?;
    Ok(Limits {
        buffer_limit: buffer_limit as u32,
        answer_limit: answer_limit as u32,
        max_exchanges: max_exchanges as u32,
        authority,
    })
}
