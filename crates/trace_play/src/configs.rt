//! Configurations.

use anyhow::{Result, bail};
use ext_config::{Config, ConfigFault, read_config};
use ext_msgs::{BodyMode, NameList, PartModes};
use header_mutation::Rules;
use pb_wire::Blob;
use std::str;

/// Reads a configuration, and writes what it says, or why it is refused.
pub fn read(rt: &HostRuntime, text: &str) -> Result<()> {
    match read_config(rt.alloc(), text.as_bytes()) {
        Ok(config) => tell(rt, &config),
        Err(fault) => tell_fault(rt, &fault),
    }
}

fn tell(rt: &HostRuntime, config: &Config) -> Result<()> {
    println!(rt;
        "failure_allow {} allow_override {} no_immediate {} timeout_ms {} max_timeout_ms {}",
        config.failure_allow,
        config.allow_override,
        config.no_immediate,
        config.timeout_ms,
        config.max_timeout_ms
    )?;
    tell_modes(rt, "request", config.request)?;
    tell_modes(rt, "response", config.response)?;
    tell_rules(rt, &config.rules)?;
    let authority = str::from_utf8(config.authority.bytes())?;
    println!(rt;
        "buffer_limit {} answer_limit {} max_exchanges {} authority {authority}",
        config.buffer_limit, config.answer_limit, config.max_exchanges
    )?;
    Ok(())
}

fn tell_modes(rt: &HostRuntime, side: &str, modes: PartModes) -> Result<()> {
    let body = match modes.body {
        BodyMode::NoAsk => "unasked",
        BodyMode::Streamed => "streamed",
        BodyMode::Buffered => "buffered",
        BodyMode::Partial => "partial",
    };
    println!(rt;
        "{side} headers {} body {body} trailers {}",
        modes.headers, modes.trailers
    )?;
    Ok(())
}

fn tell_rules(rt: &HostRuntime, rules: &Rules) -> Result<()> {
    println!(rt;
        "allow_all_routing {} allow_envoy {} disallow_system {} disallow_all {} disallow_is_error {}",
        rules.allow_all_routing,
        rules.allow_envoy,
        rules.disallow_system,
        rules.disallow_all,
        rules.disallow_is_error
    )?;
    tell_prefixes(rt, "disallow", &rules.disallow_prefixes)?;
    tell_prefixes(rt, "allow", &rules.allow_prefixes)
}

fn tell_prefixes(rt: &HostRuntime, kind: &str, prefixes: &NameList) -> Result<()> {
    for prefix in prefixes.as_slice() {
        tell_key(rt, kind, prefix)?;
    }
    Ok(())
}

/// Writes why a configuration is refused.
pub fn tell_fault(rt: &HostRuntime, fault: &ConfigFault) -> Result<()> {
    match fault {
        ConfigFault::Json => Ok(println!(rt; "json")?),
        ConfigFault::Unknown(key) => tell_key(rt, "unknown", key),
        ConfigFault::Kind(key) => tell_key(rt, "kind", key),
        ConfigFault::Range(key) => tell_key(rt, "range", key),
        ConfigFault::Memory => bail!("out of memory"),
    }
}

fn tell_key(rt: &HostRuntime, kind: &str, key: &Blob) -> Result<()> {
    let key = str::from_utf8(key.bytes())?;
    println!(rt; "{kind} {key}")?;
    Ok(())
}
