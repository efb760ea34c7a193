//! The processor's parts: the stages that it asks in turn, and one call of its service.
//!
//! ```text
//!   DATA of a call ──▶ Call::hear ── each message, an ask ──▶ Stages::ask ──▶ the first answer, or the empty one
//!                          │                                                          │
//!                          └── a fault: the call fails with its status                ▼
//!                                                                          Owed: bytes for the client
//! ```
#![tactic(auto)]

mod call;
mod laws;
mod owed;
mod stages;

pub use call::Call;
pub use laws::answers_stay;
pub use owed::Owed;
pub use stages::Stages;
