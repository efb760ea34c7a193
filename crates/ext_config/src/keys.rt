//! Where a key of the configuration stands, and how it is named.

ghost use Rattle.std.specs.Prelude.{◌≡◌, ◌∷◌, ◌++◌, [], IfOk, Some, option_map};
ghost use Rattle.serde_json.specs.View.{view};
ghost use Rattle.ext_config.specs.Keys.{found, dotted};
ghost use Rattle.ext_config.specs.Configured.{IsFault};
ghost use Rattle.ext_config.specs.declared.config.ConfigFault.TheVariants as fault;

use crate::ConfigFault;
use pb_wire::Blob;
use serde_json::Value;
use std::alloc::{AllocError, Global};

/// The object that a key stands in.
#[derive(Clone, Copy)]
pub(crate) enum Section {
    /// The configuration itself.
    Top,
    /// `processing_mode`.
    Modes,
    /// `mutation_rules`.
    Rules,
}

// What stands under a key.
#[tactic(auto, unfolding(crate::specs::Keys::found))]
pub(crate) fn found<'a>(config: &'a Value, section: Section, name: &str) -> Option<&'a Value>
    ensures { option_map (λ v. view v.now) result ≡ found section name.now (view config.now) }
{
    let object = match section {
        Section::Top => return config.get(name),
        Section::Modes => config.get("processing_mode"),
        Section::Rules => config.get("mutation_rules"),
    };
    // Prover: `?` on an `Option` would leave a goal open.
    let Some(object) = object else {
        return None;
    };
    object.get(name)
}

// The name of a key, with a dot behind its section.
#[tactic(auto, unfolding(crate::specs::Keys::dotted))]
pub(crate) fn dotted(alloc: Global, section: Section, name: &str) -> Result<Blob, AllocError>
    ensures { IfOk result (λ key. key ≡ dotted section name.now) }
{
    match section {
        Section::Top => Blob::of(alloc, name.as_bytes()),
        Section::Modes => joined(alloc, b"processing_mode", name),
        Section::Rules => joined(alloc, b"mutation_rules", name),
    }
}

fn joined(alloc: Global, section: &[u8], name: &str) -> Result<Blob, AllocError>
    ensures { IfOk result (λ key. key ≡ section.now ++ 46 ∷ name.now) }
{
    let mut key = Vec::from_slice(alloc, section)?;
    key.extend_from_slice(b".")?;
    key.extend_from_slice(name.as_bytes())?;
    Ok(Blob::from_vec(key))
}

// The key has a value of another kind.
pub(crate) fn other_kind(alloc: Global, section: Section, name: &str) -> ConfigFault
    ensures { IsFault (Some (fault.Kind (dotted section name.now))) result }
{
    match dotted(alloc, section, name) {
        Ok(key) => ConfigFault::Kind(key),
        Err(AllocError) => ConfigFault::Memory,
    }
}

// The key has a value outside its range.
pub(crate) fn out_of_range(alloc: Global, section: Section, name: &str) -> ConfigFault
    ensures { IsFault (Some (fault.Range (dotted section name.now))) result }
{
    match dotted(alloc, section, name) {
        Ok(key) => ConfigFault::Range(key),
        Err(AllocError) => ConfigFault::Memory,
    }
}
