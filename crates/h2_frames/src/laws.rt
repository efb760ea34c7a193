//! What holds of frames in any bytes, and of readers over all their calls.

ghost use Rattle.std.specs.Prelude.{◌≡◌, ◌++◌, ℕ, List, [], length, Some};
ghost use Rattle.h2_frames.specs.declared.frame.Frame.{Frame};
ghost use Rattle.h2_frames.specs.declared.header.Header.{Header};
ghost use Rattle.h2_frames.specs.Payloads.{padding, content_of};
ghost use Rattle.h2_frames.specs.Frames.{First, first, Unfinished, Whole, Faulty, Frames, StandsAtItsPlace};
ghost use Rattle.h2_frames.specs.Spelling.{spelling, IsWritable, IsInRange};
ghost use Rattle.h2_frames.specs.Runs.{FeedCall, FeedsAll, used, given};

/// What is written for a frame is read back, whatever comes behind it.
pub fn written_is_read()
    ensures { (f : Frame) (more : List ℕ) → IsInRange f → IsWritable f →
        first (spelling f ++ more) ≡ Whole f (length (spelling f)) }
{}

/// Padding is at the payload's end, as long as the pad byte says; the content stands before it.
pub fn padding_is_left_out()
    ensures { (h : Header) (front content pad : List ℕ) → padding h (front ++ (content ++ pad)) ≡ length pad →
        content_of h (length front) (front ++ (content ++ pad)) ≡ Some content }
{}

/// However bytes are cut into calls, a new reader gives their frames in order, and keeps what is left of them.
pub fn frames_in_any_cut()
    ensures { (calls : List FeedCall) (kept : List ℕ) → FeedsAll [] calls kept →
        Frames (used calls) (given calls) kept }
{}

/// Bytes have one list of whole frames.
pub fn one_list_of_frames()
    ensures { (bytes : List ℕ) (fs gs : List Frame) (rest other : List ℕ) → Frames bytes fs rest →
        Frames bytes gs other → (fs ≡ gs) × (rest ≡ other) }
{}

/// A fault that the nine bytes tell stands at the ninth byte, any other at the frame's last.
pub fn faults_stand()
    ensures { (bytes : List ℕ) (code : ℕ) → first bytes ≡ Faulty code → StandsAtItsPlace bytes code }
{}
