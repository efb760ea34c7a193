//! The streams of an HTTP/2 session: which numbers were opened, what is kept of each live stream, and what a frame
//! breaks, as tests of what is kept: the rows of the tables of connection errors and of stream errors.
#![tactic(auto)]

mod blocks;
mod changes;
mod numbers;
mod stream_faults;
mod table;
mod violations;

pub use blocks::{LONGEST, PartialBlock};
pub use changes::Change;
pub use numbers::Numbers;
pub use stream_faults::{block_fault, data_fault, is_interim, update_fault};
pub use table::StreamTable;
pub use violations::{
    breaks_block, exceeds_window, has_bad_setting, has_long_block, has_wide_setting,
    is_empty_update, is_on_unopened, is_push, is_settings, widens_connection,
};
