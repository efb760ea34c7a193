//! The setup calls.

ghost use Rattle.std.specs.Prelude.{◌≡◌, ◌≤◌, IfOk, IfErr, IsErrOf, Ok, Option, List, ℕ};
ghost use Rattle.px_edge.specs.Causes.{Rose};
ghost use Rattle.ext_config.specs.Configured.{configured, fault_in};
ghost use Rattle.ext_config.specs.Valid.{IsValid};
ghost use Rattle.ext_setup.specs.Inputs.{RefusesInput, SetsUp};

use crate::fault::SetupFault;
use crate::input::{InputFault, read_whole};
use ext_config::{Config, ConfigFault, read_config};
use px_edge::Source;
use std::alloc::Global;

/// The configuration of a proxy, which is the whole input.
pub fn setup_proxy<S: Source>(alloc: Global, source: &mut S) -> Result<Config, SetupFault>
    ensures done { IfOk result (λ config. SetsUp (S.left source.old) (S.left source.new) (λ bytes. configured bytes
        ≡ Ok config)) }
    ensures valid { IfOk result (λ config. IsValid config) }
    ensures refused { IfErr result (λ f. RefusesInput (λ bytes. fault_in (configured bytes)) f (S.left source.old)
        (S.left source.new)) }
    ensures read { IsErrOf result SetupFault.Read → Rose (S.faults source.old) (S.faults source.new) }
{
    let bytes = match read_whole(alloc, source) {
        Ok(bytes) => bytes,
        Err(InputFault::Long) => return Err(SetupFault::Long),
        Err(InputFault::Read) => return Err(SetupFault::Read),
        Err(InputFault::Memory) => return Err(SetupFault::Memory),
    };
    match read_config(alloc, bytes.as_slice()) {
        Ok(config) => Ok(config),
        Err(ConfigFault::Memory) => Err(SetupFault::Memory),
        Err(fault) => Err(SetupFault::Config(fault)),
    }
}
