//! Laws of what an HTTP/2 session keeps, as contracts of functions that do nothing: how it changes by a frame that
//! comes in, by the calls of its owner and by bytes, and that there is room for every frame that may still come.
//!
//! [`h2_model`] defines a session as its log; `seen` (`specs/State`) is what code keeps of it. Each law says that the
//! change that code makes, a function over what is kept, is the change of the log's sums.
//!
//! - `frame_laws`: a frame comes in and is no connection error. The lemmas say the same of each step: `Entries`,
//!   `Receives`, `Reports`, `Owes`, `Opens`.
//! - `call_laws`: what each call leaves.
//! - `byte_laws`: `h2_model` reads bytes one at a time (`with_byte`) and says how many of them one call of `feed` uses
//!   (`used`). Code reads whole frames; both come to the same.
//! - `room_laws`: a client that keeps fewer streams than it reserved has room for every end and reset that may still
//!   come. `specs/Rooms` counts the closing frames (DATA with END_STREAM, RST_STREAM) that wait, are held, or may still
//!   be handed over; `Counted` says what holds of them in every account.
#![tactic(auto)]

mod byte_laws;
mod call_laws;
mod frame_laws;
mod room_laws;

pub use byte_laws::{
    bytes_are_read, frame_comes, frame_fails, part_of_frame_waits, parts_are_kept, preface_comes,
    reading_ends, reading_goes_on, reading_is_answered, used_bytes_are_a_front,
};
pub use call_laws::{
    arrivals_stay_sound, block_goes_out, bytes_are_taken, connection_fails, event_is_told,
    frame_is_handed_over, session_begins,
};
pub use frame_laws::{
    frame_comes_in, headers_open_a_stream, live_streams_are_kept, stream_opens,
    what_is_no_entry_is_kept_apart,
};
pub use room_laws::{
    calls_keep_the_count, closing_frames_have_room, frames_keep_the_count, handing_keeps_the_count,
    session_begins_counted,
};
