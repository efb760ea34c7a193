//! What an exchange keeps of its configuration.

/// What an exchange keeps of its configuration; the halves keep the rest.
#[derive(Clone, Copy)]
pub(crate) struct Settings {
    pub failure_allow: bool,
    pub timeout_ms: u64,
    pub max_timeout_ms: u64,
    pub allow_override: bool,
    pub no_immediate: bool,
}
