//! A configuration out of bytes.

ghost use Rattle.std.specs.Prelude.{◌≡◌, IfOk, IfErr, Ok, None};
ghost use Rattle.serde_json.specs.View.{view};
ghost use Rattle.ext_config.specs.Keys.{key_table, first_fault};
ghost use Rattle.ext_config.specs.Configured.{configured, configured_by, config_of, fault_in, IsFault};
ghost use Rattle.ext_config.specs.Valid.{IsValid};

use crate::sections::{read_general, read_limits, read_modes, read_rules};
use crate::unknown::least_unknown;
use crate::{Config, ConfigFault};
use serde_json::{Category, Value};
use std::alloc::Global;

/// The configuration that one JSON object in UTF-8 holds. Absent keys have their defaults, and of equal keys the last
/// counts.
///
/// `Json` comes where the bytes are no such object. Then the least unknown key, of all levels, is `Unknown`, and then
/// the first key of the key table that is at fault is `Kind` or `Range`. `FULL_DUPLEX_STREAMED` isn't supported:
/// `Range`.
pub fn read_config(alloc: Global, bytes: &[u8]) -> Result<Config, ConfigFault>
    ensures ok { IfOk result (λ config. configured bytes.now ≡ Ok config) }
    ensures valid { IfOk result (λ config. IsValid config) }
    ensures err { IfErr result (λ f. IsFault (fault_in (configured bytes.now)) f) }
{
    let config = parse(alloc, bytes)?;
    configure(alloc, &config)
}

// The object that the bytes hold.
#[tactic(auto, using(crate::proofs::Tables::json_refused, crate::proofs::Tables::json_other, crate::proofs::Tables::json_object))]
fn parse(alloc: Global, bytes: &[u8]) -> Result<Value, ConfigFault>
    ensures ok { IfOk result (λ config. configured bytes.now ≡ configured_by (view config)) }
    ensures err { IfErr result (λ f. IsFault (fault_in (configured bytes.now)) f) }
{
    let value = match Value::from_slice(alloc, bytes) {
        Ok(value) => value,
        Err(e) => match e.classify() {
            Category::Memory => return Err(ConfigFault::Memory),
            _ => return Err(ConfigFault::Json),
        },
    };
    if !value.is_object() {
        return Err(ConfigFault::Json);
    }
    Ok(value)
}

// The configuration of an object.
#[tactic(auto, using(crate::proofs::Tables::unknown_first, crate::proofs::Tables::table_fault, crate::proofs::Tables::no_fault, crate::proofs::Validity::valid_without_fault))]
fn configure(alloc: Global, config: &Value) -> Result<Config, ConfigFault>
    ensures ok { IfOk result (λ c. configured_by (view config.now) ≡ Ok c) }
    ensures valid { IfOk result (λ c. IsValid c) }
    ensures err { IfErr result (λ f. IsFault (fault_in (configured_by (view config.now))) f) }
{
    if let Some(key) = least_unknown(alloc, config)? {
        return Err(ConfigFault::Unknown(key));
    }
    let by_table = by_table(alloc, config)?;
    Ok(by_table)
}

// The configuration of an object whose keys are known.
fn by_table(alloc: Global, config: &Value) -> Result<Config, ConfigFault>
    ensures ok { IfOk result (λ _. first_fault key_table (view config.now) ≡ None) }
    ensures value { IfOk result (λ c. c ≡ config_of (view config.now)) }
    ensures err { IfErr result (λ f. IsFault (first_fault key_table (view config.now)) f) }
{
    let general = read_general(alloc, config)?;
    let (request, response) = read_modes(alloc, config)?;
    let rules = read_rules(alloc, config)?;
    let limits = read_limits(alloc, config)?;
    Ok(Config {
        failure_allow: general.failure_allow,
        timeout_ms: general.timeout_ms,
        max_timeout_ms: general.max_timeout_ms,
        allow_override: general.allow_override,
        no_immediate: general.no_immediate,
        request,
        response,
        rules,
        buffer_limit: limits.buffer_limit,
        answer_limit: limits.answer_limit,
        max_exchanges: limits.max_exchanges,
        authority: limits.authority,
    })
}
