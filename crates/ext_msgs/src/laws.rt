//! Reading and writing belong together.

ghost use Rattle.std.specs.Prelude.{◌≡◌, ◌<◌, ◌^◌, ℕ, List, All, length, Ok};
ghost use Rattle.ext_msgs.specs.declared.answer.Answer.{Answer};
ghost use Rattle.ext_msgs.specs.declared.ask.Ask.{Ask};
ghost use Rattle.ext_msgs.specs.Messages.{answer_of, ask_of};
ghost use Rattle.ext_msgs.specs.Spelling.{answer, ask};
ghost use Rattle.ext_msgs.specs.Writable.{IsWritableAnswer, IsWritableAsk};

/// What is written of a writable answer is read as that answer.
pub fn written_answer_is_read()
    ensures { (a : Answer) → IsWritableAnswer a → answer_of (answer a) ≡ Ok a }
{}

/// What is written of a writable ask is read as that ask.
pub fn written_ask_is_read()
    ensures { (a : Ask) → IsWritableAsk a → ask_of (ask a) ≡ Ok a }
{}

/// An answer that was read from fewer than 2^30 bytes can be written.
pub fn read_answer_is_writable()
    ensures { (bytes : List ℕ) (a : Answer) → All (λ b. b < 256) bytes → length bytes < 2 ^ 30
        → answer_of bytes ≡ Ok a → IsWritableAnswer a }
{}

/// An ask that was read from fewer than 2^30 bytes can be written.
pub fn read_ask_is_writable()
    ensures { (bytes : List ℕ) (a : Ask) → All (λ b. b < 256) bytes → length bytes < 2 ^ 30 → ask_of bytes ≡ Ok a
        → IsWritableAsk a }
{}
