//! Laws of the definitions, as contracts of functions that do nothing.
ghost use Rattle.http_model.specs.Reading.{BadChunk, Whole, Partial};
ghost use Rattle.std.specs.Prelude.{◌≡◌, ◌++◌, Bool, List, ℕ, [], true};
ghost use Rattle.http_model.specs.Heads.{field_limit, message_head, head_so_far};
ghost use Rattle.http_model.specs.declared.types.Direction.{Direction};
ghost use Rattle.h1_read.specs.Agreement.{AgreesOnSections, AgreesOnRequests, AgreesOnResponses};
ghost use Rattle.httparse.specs.Grammar.{ChunkLine, ReadsChunkLine, chunk_size};
ghost use Rattle.http_model.specs.Lines.{line, chunk_line_at};
ghost use Rattle.http_model.specs.Reads.{reads};
ghost use Rattle.h1_read.specs.Written.{Message, message_bytes, given_message, IsWritten, IsAccepted};

/// The trailer sections that are read are those of `httparse`'s grammar, with its fields.
pub fn section_grammar()
    ensures { AgreesOnSections BadChunk field_limit }
{}

/// The request heads that are read are those of `httparse`'s grammar, with its parts; one that lacks its first line is
/// never bad.
pub fn request_grammar()
    ensures { AgreesOnRequests }
{}

/// The response heads that are read are those of `httparse`'s grammar, with its parts; one that lacks its first line is
/// never bad.
pub fn response_grammar()
    ensures { AgreesOnResponses }
{}

/// What stands behind the interim responses is all that counts of the bytes so far.
pub fn heads_go_on()
    ensures { (d : Direction) (to_head : Bool) (bytes more : List ℕ)
        → message_head d to_head (bytes ++ more) ≡ message_head d to_head (head_so_far d bytes ++ more) }
{}

/// The lines of chunks that are read are those of `httparse`'s grammar, with its sizes.
pub fn chunk_line_grammar()
    ensures found { (bytes : List ℕ) (l : ChunkLine) (rest : List ℕ) → ReadsChunkLine bytes l rest
        → chunk_line_at bytes (line bytes) ≡ Whole (chunk_size l) rest }
    ensures whole { (bytes : List ℕ) (size : ℕ) (rest : List ℕ) → chunk_line_at bytes (line bytes) ≡ Whole size rest
        → (l : ChunkLine) × ReadsChunkLine bytes l rest }
    ensures partial { (bytes : List ℕ) → chunk_line_at bytes (line bytes) ≡ Partial → (more : List ℕ)
        × (l : ChunkLine) × ReadsChunkLine (bytes ++ more) l [] }
{}

/// A message that was written is read back: where a reader takes it whole, it gives the head, the length, the body
/// and the trailers as they were written, with `http` for the scheme, the length last among the fields, and no blanks
/// around values; and it takes it whole, within its limits.
pub fn written_message_is_read()
    ensures given { (d : Direction) (to_head : Bool) (m : Message) (ended : Bool) → IsWritten d to_head m
        → (reads d to_head (message_bytes d m) ended).whole ≡ true
        → reads d to_head (message_bytes d m) ended ≡ given_message d to_head m ended }
    ensures accepted { (d : Direction) (to_head : Bool) (m : Message) (ended : Bool) → IsWritten d to_head m
        → IsAccepted d m → reads d to_head (message_bytes d m) ended ≡ given_message d to_head m ended }
{}
