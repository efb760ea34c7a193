//! Why a setup call answers nothing.

ghost use Rattle.std.specs.Prelude.{◌≡◌};
ghost use Rattle.ext_setup.specs.Inputs.{setup_code};

use ext_config::ConfigFault;

/// Why there is nothing to serve with.
#[derive(Drop)]
pub enum SetupFault {
    /// The configuration of a proxy is refused.
    Config(ConfigFault),
    /// The input has more than 1,048,576 bytes.
    Long,
    /// A read failed.
    Read,
    /// Memory ran out.
    Memory,
}

impl SetupFault {
    /// The program's exit status.
    pub fn code(&self) -> u8
        ensures { result ≡ setup_code self.now }
    {
        match self {
            SetupFault::Config(_) | SetupFault::Long => 4,
            SetupFault::Read => 5,
            SetupFault::Memory => 7,
        }
    }
}
