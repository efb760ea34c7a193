//! What may be changed, and why a change is refused.

use ext_msgs::NameList;
use pb_wire::Duplicate;
use std::alloc::AllocError;

/// Which fields a processor may change: `HeaderMutationRules` of `envoy.config.common.mutation_rules.v3`.
#[derive(Drop)]
pub struct Rules {
    /// `host`, `:authority`, `:scheme` and `:method` may be changed.
    pub allow_all_routing: bool,
    /// Names that begin with `x-envoy-` may be changed.
    pub allow_envoy: bool,
    /// Names that begin with `:` may not be changed.
    pub disallow_system: bool,
    /// Nothing may be changed but what `allow_prefixes` lets through.
    pub disallow_all: bool,
    /// A forbidden item refuses the whole mutation.
    pub disallow_is_error: bool,
    /// Names that begin with one of these, in lower case, may not be changed. They go before `allow_prefixes`.
    pub disallow_prefixes: NameList,
    /// Names that begin with one of these, in lower case, may be changed. They go before the flags.
    pub allow_prefixes: NameList,
}

impl Duplicate for Rules {
    fn copy(&self) -> Result<Rules, AllocError> {
        let disallow_prefixes = self.disallow_prefixes.copy()?;
        let allow_prefixes = self.allow_prefixes.copy()?;
        Ok(Rules {
            allow_all_routing: self.allow_all_routing,
            allow_envoy: self.allow_envoy,
            disallow_system: self.disallow_system,
            disallow_all: self.disallow_all,
            disallow_is_error: self.disallow_is_error,
            disallow_prefixes,
            allow_prefixes,
        })
    }
}

/// What a mutation changes.
#[derive(Clone, Copy)]
pub enum PartKind {
    RequestHead,
    ResponseHead,
    Trailers,
}

/// Why a mutation has no result. A place is the number of an item, from 0: removals first, then settings.
#[derive(Clone, Copy)]
pub enum MutFault {
    /// The item's name or value is invalid: the answer is malformed.
    Bad(u32),
    /// The item is forbidden, and `disallow_is_error` stands.
    Disallowed(u32),
    /// Out of memory, or 2^32 items or more.
    Memory,
}

impl From<AllocError> for MutFault {
    ghost use Rattle.std.specs.Prelude.{◌≡◌};
    ghost use Rattle.header_mutation.specs.declared.rules.MutFault.TheVariants.{Memory};

    ghost from_gives = { λ _ e. e ≡ Memory };

    fn from(_: AllocError) -> MutFault {
        MutFault::Memory
    }
}
